//! Whether physical plans are sound.
#![tactic(auto)]

mod exprs;
mod given;
mod kinds;
mod many;
mod named;
mod nodes;
pub mod plans;

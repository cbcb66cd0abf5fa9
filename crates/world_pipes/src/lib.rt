//! All pipes of a run, by the keys that nodes have of them.
#![tactic(auto)]

mod giving;
mod opening;
pub mod pipes;
mod places;

pub use pipes::Pipes;

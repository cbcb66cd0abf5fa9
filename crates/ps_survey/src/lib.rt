//! The survey of a plan: a walk over its arenas, which finds what these decide.
#![tactic(auto)]

mod extents;
mod limits;
mod names;
mod orders;
mod search;
pub mod survey;

pub use survey::{Survey, flaws_are_refused, survey_plan};

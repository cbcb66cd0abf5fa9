//! Laws of lowering joins by keys, as steps of a plan.
#![tactic(auto)]

pub mod laws;

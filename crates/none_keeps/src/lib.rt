//! Laws of lowering distincts that keep rows without an equal, as steps of a plan.
#![tactic(auto)]

pub mod laws;

//! Laws of lowering distincts that keep the last row of each key, as steps of a plan.
#![tactic(auto)]

pub mod laws;

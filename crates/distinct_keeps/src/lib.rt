//! Laws of lowering distincts by groups, as steps of a plan.
#![tactic(auto)]

pub mod laws;

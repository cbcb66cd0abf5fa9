//! Laws of lowering selects, as steps of a plan.
#![tactic(auto)]

pub mod laws;

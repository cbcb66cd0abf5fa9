//! Laws of lowering further columns, as steps of a plan.
#![tactic(auto)]

pub mod laws;

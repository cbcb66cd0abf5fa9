//! Laws of lowering filters, as steps of a plan.
#![tactic(auto)]

pub mod laws;

//! Laws of lowering group-bys that stream, as steps of a plan.
#![tactic(auto)]

pub mod laws;

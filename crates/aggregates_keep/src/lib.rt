//! Laws of lowering group-bys whose aggregates hold reductions, as steps of a plan.
#![tactic(auto)]

pub mod laws;

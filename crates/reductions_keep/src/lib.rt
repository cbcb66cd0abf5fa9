//! Laws of aggregates that hold reductions, which a group-by that streams takes apart.
#![tactic(auto)]

pub mod laws;

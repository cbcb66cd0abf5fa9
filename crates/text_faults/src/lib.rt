//! What can break the plan of a query.
#![tactic(auto)]

pub mod laws;

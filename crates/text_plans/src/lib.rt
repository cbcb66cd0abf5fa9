//! The plan of a query: the scan of its table, a node for each stage and a sink.
#![tactic(auto)]

mod entering;
mod entries;
pub mod laws;
mod plans;
mod tables;

pub use plans::query_plan;

//! Queries of the pipeline language are read off their texts.
#![tactic(auto)]

mod deep;
mod entries;
mod expressions;
mod leaves;
mod numbers;
mod operators;
mod parts;
mod queries;
mod stages;

pub use queries::read_query;

//! Queries of the pipeline language: what they are, which text reads as which, how deep they are and how they are written.
#![tactic(auto)]

mod depths;
pub mod laws;
pub mod names;
pub mod query;
pub mod spelled;
pub mod words;

pub use depths::depth;

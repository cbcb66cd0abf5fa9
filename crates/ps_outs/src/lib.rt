//! The pieces of a run that are out, by worker.
#![tactic(auto)]

pub mod outs;

pub use outs::{Out, Outs};

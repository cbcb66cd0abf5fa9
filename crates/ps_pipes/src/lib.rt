//! The pipes of a run: morsels in number order, with places for those that are still to come.
#![tactic(auto)]

pub mod laws;
pub mod pipe;

pub use pipe::Pipe;

//! The nodes of a run: those of a graph, with what they do with morsels, as a world asks it of them.
#![tactic(auto)]

mod claims;
mod moves;
pub mod node;
mod pieces;
mod running;
mod storing;
mod updating;

pub use node::RunningNode;

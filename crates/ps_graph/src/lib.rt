//! Graphs of nodes over pipes: how they are put together, how the states of their ports come to rest, and which part of them may run next.
#![tactic(auto)]

pub mod adding;
pub mod complete;
pub mod compute_node;
pub mod end;
mod ends;
pub mod examples;
pub mod graph;
pub mod key;
pub mod marks;
mod origins;
pub mod phase;
mod turns;
pub mod update;

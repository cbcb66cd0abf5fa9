//! The graph of a run, made of the graph that a physical plan becomes.
#![tactic(auto)]

pub mod graphs;

pub use graphs::running_graph;

// The graph that a physical plan becomes: a node for each physical node, and a pipe for each input.
#![tactic(auto)]

pub mod flow_nodes;
pub mod graphs;
mod kinds;

pub use graph_parts::examples;

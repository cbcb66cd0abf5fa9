// Slices over streams become physical nodes: that of a node of its own, and the one that a node applies last.
#![tactic(auto)]

pub mod slices;

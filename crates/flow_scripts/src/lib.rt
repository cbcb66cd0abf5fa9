// What trials of a graph's nodes are written in: scripts of updates with the answers that are wanted.
#![tactic(auto)]

pub mod script;

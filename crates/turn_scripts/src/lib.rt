// What trials of a graph's nodes by their own updates are written in: scripts of updates with the answers that are wanted, tables
// of these answers, what of a node they call, and what nodes are made of.
#![tactic(auto)]

pub mod fixtures;
pub mod letters;
pub mod script;
pub mod tables;
pub mod turns;

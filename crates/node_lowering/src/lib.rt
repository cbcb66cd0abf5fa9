// Nodes of a plan become physical nodes: the rule of each kind of node, over the streams of its inputs.
#![tactic(auto)]

mod copies;
pub mod examples;
pub mod filters;
pub mod further;
pub mod joins;
pub mod lists;
mod parts;
pub mod single;
mod together;

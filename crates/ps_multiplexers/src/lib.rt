// Multiplexers of a physical plan: a node that several readers take gets one, with a port for each of them.
#![tactic(auto)]

pub mod examples;
pub mod laws;
pub mod multiplexers;
mod readers;
mod visits;

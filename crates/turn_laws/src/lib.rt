// What one update of a node of a run does, whatever its kind: it keeps the laws by which a graph comes to rest, and it goes on or finds a fault.
#![tactic(auto)]

pub mod examples;
pub mod laws;

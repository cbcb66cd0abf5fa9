// The states of ports, pipes as a graph sees them, the laws of updates, and the next phase: definitions, with worked examples. No code.
#![tactic(auto)]

pub mod examples;
pub mod port_state;

// A valid plan becomes physical nodes: the step of each node over the streams of its inputs, from the root on.
#![tactic(auto)]

pub mod examples;
pub mod physical;
pub mod plans;
pub mod steps;

// What passing nodes have sent in a reached world: answers to what they took, place by place.
#![tactic(auto)]

pub mod runs;

// The physical plan of a plan: the nodes that the rules give, with multiplexers; and worked plans. No code.
#![tactic(auto)]

pub mod plans;
pub mod selects;
pub mod shared;

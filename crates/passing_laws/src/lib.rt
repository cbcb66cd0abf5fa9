// Nodes that pass their rows on: what they give piece by piece is what they mean as a whole.
#![tactic(auto)]

pub mod piecewise;

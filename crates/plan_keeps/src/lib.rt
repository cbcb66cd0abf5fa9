//! Laws of lowering whole plans: what the nodes mean where each call keeps its step.
#![tactic(auto)]

pub mod laws;

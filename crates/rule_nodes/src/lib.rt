// That a shape stays sound, but for its readers, over the nodes that the rules make for a step of a plan. No code.
#![tactic(auto)]

pub mod laws;

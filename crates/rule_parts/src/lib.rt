// What the nodes of a step are made of: streams of a sound shape, columns, slices, joined names and reductions. No code.
#![tactic(auto)]

pub mod laws;

// That a shape stays sound, but for its readers, over the nodes which lowering makes. No code.
#![tactic(auto)]

pub mod laws;

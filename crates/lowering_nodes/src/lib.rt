// That the nodes which lowering makes are formed as a sound shape asks. No code.
#![tactic(auto)]

pub mod laws;

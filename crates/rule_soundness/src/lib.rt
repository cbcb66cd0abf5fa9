// That the nodes which the rules make of a plan are those of a sound shape, but for its readers. No code.
#![tactic(auto)]

pub mod laws;

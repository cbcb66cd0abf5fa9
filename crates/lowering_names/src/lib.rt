// That names differ, kinds fit and no schema is empty in the nodes which lowering makes. No code.
#![tactic(auto)]

pub mod laws;

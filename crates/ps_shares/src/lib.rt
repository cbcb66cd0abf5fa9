// Laws of lowering expressions: what the tables of streams show, and what stands for what. No code.
#![tactic(auto)]

pub mod laws;

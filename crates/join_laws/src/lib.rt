// Equi joins: what they give morsel by morsel is what they mean as a whole.
#![tactic(auto)]

pub mod joining;

// Copies of expressions, and of what nodes say beside the nodes that they read.
#![tactic(auto)]

pub mod exprs;
pub mod maps;
pub mod try_clone;

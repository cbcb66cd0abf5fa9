// Worked examples of what is said of physical plans and of their steps, as theorems of functions that do nothing.
#![tactic(auto)]

pub mod expressions;
pub mod readers;
pub mod trees;

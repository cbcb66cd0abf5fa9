// Worked examples of what the parts of a running world show, as theorems of functions that do nothing.
#![tactic(auto)]

pub mod journals;
pub mod pieces;
pub mod pipes;

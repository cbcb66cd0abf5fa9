// How the column of an expression follows the rows of its table.
#![tactic(auto)]

pub mod examples;
pub mod laws;

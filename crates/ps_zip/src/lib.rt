// Columns side by side: those of a table, and those of expressions over it.
#![tactic(auto)]

pub mod inputs;
pub mod zips;

// What a passing node of a world has sent, with the rows before, begins a table that it may give.
#![tactic(auto)]

pub mod fronts;

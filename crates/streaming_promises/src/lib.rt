// All that is promised of runs of graphs whose nodes stream, in one statement.
#![tactic(auto)]

pub mod examples;
pub mod promised;

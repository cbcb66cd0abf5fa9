// What the pieces of streaming nodes are, and that for each something may be handed in.
#![tactic(auto)]

pub mod results;

// Nodes that keep their input: what every reached world keeps of them, and what those that make a table of it give, say and find.
#![tactic(auto)]

pub mod makers;

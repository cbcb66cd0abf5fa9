// Every claim of a node fits its pipes, so that every world that the opening of a sound shape reaches keeps the facts; and what is promised of it, by the laws of the families of nodes.
#![tactic(auto)]

pub mod families;
pub mod reached;

// What may be handed in for the pieces of passing nodes, and what a fault says of the node.
#![tactic(auto)]

pub mod pieces;

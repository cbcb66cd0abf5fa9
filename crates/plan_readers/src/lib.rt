//! How the nodes of a physical plan are read: the places of nodes, the inputs that are told by them, and the readers of each port.
#![tactic(auto)]

pub mod places;
pub mod plans;
pub mod readers;

// The computation of a node of a plan, whatever it is.
#![tactic(auto)]

pub mod entry;
mod groups;
mod inputs;
mod joins;
pub mod node;
mod rows;
mod tables;

// Valid plans as they are handed on: the nodes, their schemas and their order, and what stays true of them.
#![tactic(auto)]

pub mod fields;
pub mod laws;
pub mod table;
pub mod valid;

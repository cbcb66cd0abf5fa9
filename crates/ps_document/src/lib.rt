// Documents of tables and a plan: their JSON, and the arenas that they hold.
#![tactic(auto)]

pub mod cells;
pub mod document;
mod exprs;
pub mod found;
pub mod laws;
mod nodes;
pub mod objects;
mod options;
pub mod parts;
mod tables;
pub mod taking;
mod values;
mod words;

// Tables that a node makes of all rows of its inputs: by a map, or by a join.
#![tactic(auto)]

pub mod join_tables;
pub mod map_tables;
mod narrowed;
pub mod no_functions;

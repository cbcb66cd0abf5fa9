// What an update of a node answers and makes of it, over the little that an update reads; and the table of answers, line by line.
#![tactic(auto)]

pub mod cuts;
pub mod equi_join;
pub mod heads;
pub mod keeper;
pub mod multiplexer;
pub mod one_port_tables;
pub mod passing;
pub mod ports;
pub mod sink;
pub mod source;
pub mod stage;
pub mod streaming_slice;
pub mod two_port_tables;
pub mod union_node;
pub mod zip;

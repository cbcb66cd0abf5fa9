// The nodes of a running query: how it is run, morsels and their numbers, expressions, and the nodes of its graph, one file each. The plain ones and what they take stand below.
#![tactic(auto)]

pub mod examples;
pub mod flow;
pub mod in_memory_join;
pub mod in_memory_map;
mod key_copies;
pub mod laws;

pub use plain_nodes::{
    equi_join, filter, group_by, independent_select, map, morsel, multiplexer, negative_slice,
    options, ordered_union, projection, reduce, reduction, row_index, select, sequence, sink,
    slice, source, stream_expr, zip,
};

// The plain nodes of a running query, one file each: all but those that evaluate a map or a join over whole tables. And what those take of them too: how a query is run, morsels and their numbers, expressions, and tables that a node made.
#![tactic(auto)]

mod cutting;
pub mod equi_join;
pub mod examples;
pub mod filter;
pub mod group_by;
pub mod independent_select;
pub mod made;
pub mod map;
pub mod morsel;
pub mod multiplexer;
pub mod negative_slice;
pub mod ordered_union;
pub mod projection;
pub mod reduce;
pub mod reduction;
pub mod row_index;
pub mod select;
pub mod sequence;
pub mod sink;
pub mod slice;
pub mod source;
pub mod starting;
pub mod stream_expr;
pub mod zip;

pub use ps_options::options;

// The nodes that stand on keys of rows: distinct and group-by.
#![tactic(auto)]

mod aggregates;
mod by_key;
pub mod distinct;
pub mod group_by;
mod kept_rows;
mod key_columns;
mod reductions;
mod statistics;
mod tables;

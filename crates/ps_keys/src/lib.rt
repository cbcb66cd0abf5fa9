// Which rows have the same key.
#![tactic(auto)]

mod buckets;
pub mod key_rows;
mod known;
pub mod numbering;
mod ordered;
mod row_order;
mod rows;
mod table;

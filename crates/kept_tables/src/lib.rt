// Tables that came of an input and are kept: all of their rows as one table, and the last ones, which hold the rows of a
// slice from the end.
#![tactic(auto)]

pub mod examples;
pub mod last_tables;
pub mod stored_rows;

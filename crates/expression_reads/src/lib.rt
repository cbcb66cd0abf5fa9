// What expressions read of a table: the columns that they name.
#![tactic(auto)]

pub mod examples;
pub mod laws;
pub mod read_columns;

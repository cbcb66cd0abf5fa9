//! Laws of zips of some of a table's columns, and expressions, beside those of all of them.
#![tactic(auto)]

pub mod laws;

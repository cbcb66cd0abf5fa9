//! Laws of rows that hold the number 1 in a column, with lemmas on schemas and rows with one more field, on what passes a test in another order, on rows whose key comes once, on counts and groups, and on slices above steps that are kept over some inputs.
#![tactic(auto)]

pub mod laws;

//! Laws of the columns and the rows of distincts by groups: each column is a key or another one, and a row of each key is picked.
#![tactic(auto)]

pub mod laws;

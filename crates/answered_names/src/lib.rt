//! Laws of the names that calls for expressions answer.
#![tactic(auto)]

pub mod laws;

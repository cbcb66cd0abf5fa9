//! Laws of calls that lower expressions beside all columns of an input.
#![tactic(auto)]

pub mod laws;

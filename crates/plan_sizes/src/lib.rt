//! Laws of how many nodes the calls that lower steps and plans insert. No code.
#![tactic(auto)]

pub mod examples;
pub mod laws;

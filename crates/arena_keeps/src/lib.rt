//! Laws of lowering valid plans in arenas.
#![tactic(auto)]

pub mod examples;
pub mod laws;

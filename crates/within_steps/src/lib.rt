//! Laws of single steps over tables that lie within others. No code.
#![tactic(auto)]

pub mod laws;

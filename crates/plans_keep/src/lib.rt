//! Laws of lowering whole plans: where no rule refuses a step, each call keeps its step, of most kinds. No code.
#![tactic(auto)]

pub mod examples;
pub mod laws;

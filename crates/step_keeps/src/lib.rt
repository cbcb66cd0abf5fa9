//! Laws of the rules on steps: which of them keep what the step means.
#![tactic(auto)]

pub mod laws;

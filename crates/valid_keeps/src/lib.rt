//! Laws of the physical plan of a valid plan whose steps are of kinds that the rules keep. No code.
#![tactic(auto)]

pub mod laws;

//! Laws of valid plans in arenas whose calls stay within: they are lowered, multiplexers and all, or some table is large. No code.
#![tactic(auto)]

pub mod laws;

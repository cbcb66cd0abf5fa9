//! Laws of valid plans: their physical plans are lowerings of them, whatever the steps and sizes are. No code.
#![tactic(auto)]

pub mod laws;

// What trials of lowering are written in: documents of small plans, and what stands once they are lowered, as text.
#![tactic(auto)]

pub mod documents;
pub mod exprs;
mod kinds;
pub mod written;

//! Laws of lowering further columns, as steps of a plan, whichever columns they replace.
#![tactic(auto)]

pub mod laws;

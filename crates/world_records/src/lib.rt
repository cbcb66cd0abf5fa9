//! The records of a run, the moves that a worker may make, and the journal.
#![tactic(auto)]

pub mod journal;
pub mod records;

pub use journal::Journal;
pub use records::{Handed, Move, Record};

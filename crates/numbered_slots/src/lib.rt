//! Items in the order of numbers that were given before they came.
#![tactic(auto)]

pub mod examples;
pub mod slots;

pub use slots::NumberedSlots;

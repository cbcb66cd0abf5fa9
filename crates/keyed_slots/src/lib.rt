//! Slot maps: values under keys that a map picks, and never picks twice.
#![tactic(auto)]

pub mod key;
pub mod secondary_map;
mod slot;
pub mod slot_map;

pub use key::Key;
pub use secondary_map::SecondaryMap;
pub use slot_map::SlotMap;

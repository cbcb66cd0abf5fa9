// The rules by which plans become physical nodes, as functions on trees, and worked plans. No code.
#![tactic(auto)]

pub mod distincts;
pub mod groups;
pub mod joins;
pub mod nodes;
pub mod readers;
pub mod selects;
pub mod slices;

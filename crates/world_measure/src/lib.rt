// What is left to do in a world, as numbers: each step of a phase makes it smaller, and over all phases no step makes it larger.
#![tactic(auto)]

pub mod driving;
pub mod measure;
pub mod phases;

// What a step over tables means, and what a tree of steps means; knows no arenas.
#![tactic(auto)]

pub mod faults;
pub mod map;
pub mod options;

// What trials of plans are written in: documents with the physical plans that are wanted, and functions over tables.
#![tactic(auto)]

pub mod documents;
pub mod functions;

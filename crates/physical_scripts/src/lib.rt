// What trials of physical plans are written in: nodes with their parameters and schemas, and expressions, as words.
#![tactic(auto)]

pub mod building;
mod kinds;
mod maps;
pub mod words;

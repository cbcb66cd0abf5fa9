//! The tokens of a text in the pipeline language, and their reading and writing.
#![tactic(auto)]

pub mod error;
pub mod laws;
mod quoted;
mod run;
mod sign;
pub mod token;
mod tokens;
mod writing;

pub use tokens::read_tokens;
pub use writing::write_tokens;

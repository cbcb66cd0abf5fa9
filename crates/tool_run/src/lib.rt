//! One run of the program: words and a document in, a table out.
#![tactic(auto)]

mod answer;
pub mod outcome;
pub mod tool;

pub use tool_ends::{csv_text, functions, reading, sink, source, writing};

//! What the program reads and writes, whatever it answers: bytes of a source, the text of a table, and the functions that it hands in.
#![tactic(auto)]

pub mod csv_text;
pub mod functions;
pub mod reading;
pub mod sink;
pub mod source;
pub mod writing;

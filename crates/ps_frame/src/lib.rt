// Tables, expressions and their meaning.
#![tactic(auto)]

pub mod builder;
pub mod column;
pub mod error;
pub mod expr;
mod fields;
pub mod frame;
pub mod frame_builder;
pub mod functions;
mod guesses;
mod hints;
pub mod items;
pub mod laws;
mod packed;
pub mod refusal;
pub mod run;
mod runs;
pub mod schema;
pub mod text;
pub mod value;
pub mod view;

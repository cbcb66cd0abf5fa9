// Parts of a JSON document, read off its tokens one after another with no tree between.
#![tactic(auto)]

pub mod list;
pub mod numbers;
pub mod value;

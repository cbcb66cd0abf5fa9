// Documents of a query in the pipeline language: tables, their names and the query's text, as JSON.
#![tactic(auto)]

mod distinct;
pub mod document;
mod found;
pub mod laws;

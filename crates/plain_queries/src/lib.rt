// Answers queries: a plan is validated, and each node that its root leads to is computed once.
#![tactic(auto)]

pub mod gate;
mod held_tables;
mod inputs;
pub mod query;
mod readers;
mod walk;

pub use ps_options::options::Options;

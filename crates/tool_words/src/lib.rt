//! The words of the program: which command they are.
#![tactic(auto)]

pub mod command;
mod settings;

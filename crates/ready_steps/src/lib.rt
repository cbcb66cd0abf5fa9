// What a step that is fit for the tables of its inputs may count on. No code.
#![tactic(auto)]

pub mod laws;

// Plans that are asked for, and not run.
#![tactic(auto)]

pub mod query;

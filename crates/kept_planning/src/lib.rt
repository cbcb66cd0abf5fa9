// The calls that make physical plans, with what these mean as clauses of each.
#![tactic(auto)]

pub mod plans;

// How runs of graphs of streaming nodes end: with the whole answer, or with a cause.
#![tactic(auto)]

pub mod answered;

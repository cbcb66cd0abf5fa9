// Every run ends: each phase takes something, and there is less to take from phase to phase.
#![tactic(auto)]

pub mod runs;

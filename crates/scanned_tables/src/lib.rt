//! That the rows of the tables that a plan scans fit their schemas, as a law for proofs.
#![tactic(auto)]

pub mod tables;

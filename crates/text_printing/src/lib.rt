//! Queries of the pipeline language are printed.
#![tactic(auto)]

mod printing;
mod writer;

pub use printing::print_query;

// Group-bys and distincts over streams become physical nodes: the rules of lowering, carried out in code.
#![tactic(auto)]

mod apart;
mod conditions;
pub mod distincts;
pub mod examples;
pub mod groups;
mod kept;
mod named;

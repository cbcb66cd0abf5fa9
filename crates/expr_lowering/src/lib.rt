// Expressions over a stream become streams: the rules of lowering, carried out on physical nodes.
#![tactic(auto)]

pub mod exprs;
pub mod lower;

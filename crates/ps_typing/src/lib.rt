// The kinds of expressions, and what is told of an expression before it is computed.
#![tactic(auto)]

pub mod kinds;
pub mod nature;
mod rules;

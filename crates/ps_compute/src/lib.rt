// The operators of expressions, on single values and on whole operands.
#![tactic(auto)]

pub mod aggregates;
pub mod casts;
mod leads;
pub mod operators;
pub mod order;
pub mod ranks;
pub mod selection;
pub mod sort_key;
pub mod values;

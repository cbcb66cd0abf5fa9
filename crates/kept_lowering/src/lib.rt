// The lowering of expressions and of selects, with what the answers mean.
#![tactic(auto)]

pub mod exprs;

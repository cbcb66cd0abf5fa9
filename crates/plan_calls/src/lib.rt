//! Laws of single calls on plans: whatever calls came before, a call on a node keeps the node. No code.
#![tactic(auto)]

pub mod laws;

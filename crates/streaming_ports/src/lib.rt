// Which ports of streaming nodes are ready between phases.
#![tactic(auto)]

pub mod leading;

// Where a cause comes from: what breaks a step's table was made by its own node, or broke one of its inputs.
#![tactic(auto)]

pub mod origins;

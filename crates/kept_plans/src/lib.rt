// The call that lowers a node of a plan, with what its answer means, whatever calls on the plan came before.
#![tactic(auto)]

pub mod plans;

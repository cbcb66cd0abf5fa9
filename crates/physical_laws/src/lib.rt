// Laws of the physical plan of a valid plan: it is a lowering of the plan, and it is sound. No code.
#![tactic(auto)]

pub mod laws;

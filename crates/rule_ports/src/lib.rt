// Laws of the nodes that the rules give: each reads first ports of nodes before it, and the root of a valid plan alone is a sink. No code.
#![tactic(auto)]

pub mod laws;

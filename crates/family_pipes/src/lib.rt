// What families of nodes say of the pipes of a node: what is complete, what came and was sent, what each step does to them; and that all families' sentences hold at the opening.
#![tactic(auto)]

pub mod openings;

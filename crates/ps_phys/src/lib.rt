// Physical nodes: what they are, the shape and the text that the nodes of a root show, and the order in which a walk leaves them.
#![tactic(auto)]

pub mod examples;
pub mod order;
pub mod phys;
pub mod text;

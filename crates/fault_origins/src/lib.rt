// Whose a fault is: each cause that ends a run was made by a node of its shape.
#![tactic(auto)]

pub mod faults;

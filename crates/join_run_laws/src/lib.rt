// Equi joins in every reached world: what their family keeps, what they have sent, which of their ports are ready between phases, what may be handed in for their pieces, and the causes that these name; with small worlds of a right join.
#![tactic(auto)]

pub mod examples;
pub mod fronts;
pub mod keeping;
pub mod leading;
pub mod pieces;

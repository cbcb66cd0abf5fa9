// What every reached world keeps of reduces and group-bys, what they give, and what they find; with small worlds of nodes that keep their input.
#![tactic(auto)]

pub mod examples;
pub mod group_runs;
pub mod reduce_runs;

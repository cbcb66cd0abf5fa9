// The lowering of group-bys and of slices over streams, with what the answers mean.
#![tactic(auto)]

pub mod groups;
pub mod laws;
pub mod slices;

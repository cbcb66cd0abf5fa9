// What every reached world keeps of its pipes between what is sent and what is read, whatever its nodes.
#![tactic(auto)]

pub mod worlds;

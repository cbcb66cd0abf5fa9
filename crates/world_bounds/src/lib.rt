// That little is in flight, and that sources claim all: two promises of every reached world.
#![tactic(auto)]

pub mod bounds;

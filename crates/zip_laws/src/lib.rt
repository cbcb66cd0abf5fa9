// Zips and multiplexers in every reached world: what their families keep, which of their ports are ready between phases, what may be handed in for a zip's pieces, and the causes that they name; with a small run of a zip, and small worlds of both.
#![tactic(auto)]

pub mod answers;
pub mod examples;
pub mod multiplexers;
pub mod ports;
pub mod zips;

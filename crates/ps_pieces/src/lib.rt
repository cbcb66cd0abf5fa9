// Pieces of work: what a worker computes, and what it hands in.
#![tactic(auto)]

pub mod answer;
mod called;
mod cases;
mod computed;
pub mod parameters;
pub mod piece;
pub mod views;
pub mod work;

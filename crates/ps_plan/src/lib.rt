// Plans as arenas: their entries, what these reach, and when a plan is refused.
#![tactic(auto)]

pub mod inputs;
pub mod ir;
pub mod walk;

pub use ps_meaning::map;

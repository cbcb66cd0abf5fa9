//! What the nodes of a run do with morsels: they hand them on, compute their parameters over them, or store them.
#![tactic(auto)]

mod copies;
pub mod operations;
pub mod stored_morsels;
pub mod tasks;
pub mod work;

pub use stored_morsels::StoredMorsels;
pub use work::Work;

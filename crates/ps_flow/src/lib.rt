//! The world of a run: its graph with all that goes through it, and the steps that change it.
#![tactic(auto)]

mod beginning;
pub mod claim_node;
mod claiming;
mod drops;
mod handing;
mod inputs;
pub mod marks;
mod opening;
mod output;
mod outputs;
mod parts;
pub mod piece_node;
mod pulling;
pub mod run_node;
pub mod store_node;
pub mod world;

pub use claim_node::{ClaimNode, Claimed, Seat};
pub use drops::is_cut_off;
pub use marks::{Mark, Marks};
pub use outputs::output_key;
pub use piece_node::PieceNode;
pub use run_node::RunNode;
pub use store_node::StoreNode;
pub use world::World;
pub use world_records::{Handed, Move, Record};

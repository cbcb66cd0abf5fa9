//! Which moves may be made in a run.
#![tactic(auto)]

pub mod move_node;
mod node_moves;
pub mod picking;
mod places;
mod waiting;
mod workers;

pub use move_node::MoveNode;
pub use picking::enabled;

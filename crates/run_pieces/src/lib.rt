//! How the pieces of a run are computed.
#![tactic(auto)]

pub mod computing;
pub mod tool_pieces;

pub use tool_pieces::ToolPieces;

//! Pieces as workers have them: who computes them, and which worker has which.
#![tactic(auto)]

pub mod compute_piece;
pub mod errors;
pub mod workers;

pub use compute_piece::ComputePiece;

//! Pieces of work.
use crate::parameters::Parameters;
use ps_frame::frame::DataFrame;
use std::sync::Arc;

/// What is done with the rows of a piece.
#[derive(Drop)]
pub enum Task {
    /// They are handed on: a cut of a source's table, what a slice keeps of a morsel, or a morsel of a union.
    HandsOn(DataFrame),
    /// A node's parameters are computed over a table that comes behind so many rows of its input. Only a row index looks at
    /// that number. A select that reads no input has a table without columns here.
    Computes {
        parameters: Arc<Parameters>,
        before: usize,
        table: DataFrame,
    },
}

/// What a worker claimed: a morsel of a node's input, or a part of the node's own, under a number; and the number under
/// which the answer goes on.
#[derive(Drop)]
pub struct Piece {
    pub node: u32,
    pub input: u32,
    pub number: u64,
    pub worker: u32,
    pub gives: u64,
    pub task: Task,
}

fn crosses_threads<T: Send + Sync>(_value: &T) {}

/// A piece may be shared and sent among threads.
pub fn is_shared(piece: &Piece) {
    crosses_threads(piece);
}

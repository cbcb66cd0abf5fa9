//! Pieces that are computed with the program's functions.
use crate::computing::compute;
use flow_runs::RunningNode;
use ps_frame::functions::Functions;
use ps_frame::refusal::PolarsResult;
use ps_frame::value::DataFault;
use ps_pieces::answer::Answer;
use ps_pieces::piece::Piece;
use std::alloc::Global;
use tool_ends::functions::ToolFunctions;
use worker_pieces::ComputePiece;

/// Computes the pieces of a run with the functions that the program hands in.
// An impl over functions of any type would share them among threads by a bound that a trait's method can't ask for, so each
// type of functions has its own, over `compute`.
#[derive(Drop)]
pub struct ToolPieces {
    pub functions: ToolFunctions,
}

impl ComputePiece<RunningNode> for ToolPieces {
    ghost told = { λ s. ⟦<ToolFunctions as Functions>⟧.told s.functions };

    fn compute(&self, alloc: Global, piece: &Piece) -> PolarsResult<Result<Answer, DataFault>> {
        compute(alloc, piece, &self.functions)
    }
}

//! What a run asks of who computes its pieces.
ghost use Rattle.std.specs.Prelude.{◌≡◌, Err, IfOk, List, OnErr};
ghost use Rattle.ps_frame.specs.Functions.{Functions};
ghost use Rattle.ps_frame.specs.Tables.{Row};
ghost use Rattle.ps_frame.specs.declared.refusal.PolarsError.{PolarsError};
ghost use Rattle.ps_meaning.specs.Shape.{PhysicalNode};
ghost use Rattle.ps_turns.specs.Results.{IsResult};
ghost use Rattle.ps_turns.specs.Tasks.{Piece, good};

use ps_flow::ClaimNode;
use ps_frame::refusal::PolarsResult;
use std::alloc::Global;

/// Computes the pieces that nodes of a type give out, with functions that were handed in.
pub trait ComputePiece<N: ClaimNode> {
    /// The functions.
    ghost told: { Self → Functions };

    /// What a piece gives: one of its results. Its rows have the schema of the piece's node.
    ///
    /// Fails only for want of memory.
    fn compute(&self, alloc: Global, piece: &N::Piece) -> PolarsResult<N::Answer>
        requires fit { (p : PhysicalNode) × N.IsFor (told self.now) p piece.now }
        ensures result { IfOk result (λ answer. (q : Piece) → N.Shows q piece.now → IsResult (told self.now) q (N.given piece.now answer)) }
        ensures schema { IfOk result (λ answer. (p : PhysicalNode) (rs : List Row) → N.IsFor (told self.now) p piece.now → N.given piece.now answer ≡ good rs → N.schema_given answer ≡ p.schema) }
        ensures memory { OnErr result (result ≡ Err PolarsError.OutOfMemory) };
}

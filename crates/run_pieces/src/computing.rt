//! The pieces that nodes of a run give out, and functions that were handed in.
ghost use Rattle.std.specs.Prelude.{◌≡◌, Err, IfOk, List, OnErr};
ghost use Rattle.flow_runs.specs.Claims.{IsPieceFor};
ghost use Rattle.flow_runs.specs.Handing.{given_for, schema_in};
ghost use Rattle.ps_frame.specs.Tables.{Row};
ghost use Rattle.ps_frame.specs.declared.refusal.PolarsError.{PolarsError};
ghost use Rattle.ps_meaning.specs.Shape.{PhysicalNode};
ghost use Rattle.ps_pieces.specs.Shown.{Shows};
ghost use Rattle.ps_turns.specs.Results.{IsResult};
ghost use Rattle.ps_turns.specs.Tasks.{Piece as WorldPiece, good};

use ps_frame::functions::Functions;
use ps_frame::refusal::PolarsResult;
use ps_frame::value::DataFault;
use ps_pieces::answer::Answer;
use ps_pieces::piece::Piece;
use ps_pieces::work::work;
use std::alloc::Global;

/// What a piece of a node of a run gives, computed with these functions: one of its results. Its rows have the schema of the
/// piece's node. It is what a run asks of who computes its pieces, whatever the functions.
///
/// Fails only for want of memory.
pub fn compute<F: Functions>(
    alloc: Global,
    piece: &Piece,
    functions: &F,
) -> PolarsResult<Result<Answer, DataFault>>
    requires { (p : PhysicalNode) × IsPieceFor (F.told functions.now) p piece.now }
    ensures result { IfOk result (λ answer. (q : WorldPiece) → Shows q piece.now → IsResult (F.told functions.now) q (given_for piece.now answer)) }
    ensures schema { IfOk result (λ answer. (p : PhysicalNode) (rs : List Row) → IsPieceFor (F.told functions.now) p piece.now → given_for piece.now answer ≡ good rs → schema_in answer ≡ p.schema) }
    ensures memory { OnErr result (result ≡ Err PolarsError.OutOfMemory) }
{
    work(alloc, piece, functions)
}

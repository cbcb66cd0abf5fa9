//! What a world asks of nodes that give out pieces of work.
ghost use Rattle.std.specs.Prelude.{◌≡◌, IfErr, IfOk};
ghost use Rattle.ps_flow.specs.Handing.{IsPlaceOf};
ghost use Rattle.ps_frame.specs.Causes.{Cause};
ghost use Rattle.ps_frame.specs.Tables.{Fields};
ghost use Rattle.ps_meaning.specs.Errors.{cause_error};
ghost use Rattle.ps_turns.specs.Tasks.{Answer, Piece, bad, good, handed_of};
ghost use Rattle.world_records.specs.Shown.{handed_shown};

use crate::run_node::RunNode;
use ps_frame::frame::DataFrame;
use ps_frame::refusal::PolarsError;
use world_records::Handed;

/// Of which node a piece is, for which of its inputs and under which number; which worker has it, and the number under which
/// its answer goes on.
#[derive(Clone, Copy, Debug, PartialEq, Eq)]
pub struct Place {
    pub node: u32,
    pub input: u32,
    pub number: u64,
    pub worker: u32,
    pub gives: u64,
}

/// A node that may give out pieces of work. What is handed in for one is rows or a fault.
pub trait PieceNode: RunNode {
    /// A piece of work.
    type Piece: Drop;
    /// What a worker made of a piece.
    type Answer: Drop;

    /// Whether a piece is this one of a run's world.
    ghost Shows: { Piece → Self.Piece → Type 0 };

    /// Which answer of a run's world is given for a piece.
    ghost given: { Self.Piece → Self.Answer → Answer };

    /// The schema of the rows that an answer has.
    ghost schema_given: { Self.Answer → Fields };

    /// Where a piece belongs.
    fn place_of(piece: &Self::Piece) -> Place
        ensures { (q : Piece) → Shows q piece.now → IsPlaceOf q result };

    /// What a journal says of an answer.
    fn handed(answer: &Self::Answer) -> Handed
        ensures { (piece : Self.Piece) → handed_shown result ≡ handed_of (given piece answer.now) };

    /// The rows of an answer to a piece, or the error of a fault.
    fn told(piece: &Self::Piece, answer: Self::Answer) -> Result<DataFrame, PolarsError>
        ensures rows { IfOk result (λ t. given piece.now answer ≡ good t.rows) }
        ensures schema { IfOk result (λ t. t.schema ≡ schema_given answer) }
        ensures fault { IfErr result (λ e. (c : Cause) × (given piece.now answer ≡ bad c) × (e ≡ cause_error c)) };
}

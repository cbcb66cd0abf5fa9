//! The computing of a piece.
ghost use Rattle.std.specs.Prelude.{◌≡◌, ◌≤◌, Err, IfErr, IfOk, IfNone, IfSome, Ok, OnErr, length};
ghost use Rattle.ps_frame.specs.Aggregates.{max_rows};
ghost use Rattle.ps_frame.specs.declared.refusal.PolarsError.{PolarsError};
ghost use Rattle.ps_pieces.specs.Computed.{fault_of};
ghost use Rattle.ps_pieces.specs.Shown.{IsFit, Shows, answer_shown, origin_of, schema_given, table_given};
ghost use Rattle.ps_pieces.specs.declared.answer.Answer.TheVariants as given;
ghost use Rattle.ps_turns.specs.Results.{IsResult};
ghost use Rattle.ps_turns.specs.Tasks.{Piece as WorldPiece};

use crate::answer::Answer;
use crate::computed::computed;
use crate::piece::{Piece, Task};
use ps_frame::frame::DataFrame;
use ps_frame::functions::Functions;
use ps_frame::refusal::{Bound, Compute, PolarsError, PolarsResult};
use ps_frame::value::DataFault;
use std::alloc::Global;

/// Computes a piece: whichever piece of a run's world it shows, the answer is one of that piece's results. The rows that
/// are answered are whole, and no more than `u32::MAX`; they share their columns with the piece where these stay. A fault
/// is one that breaks the node over the piece's rows, or `Rows` where it gives too many.
///
/// Fails only for want of memory.
pub fn work<F: Functions>(
    alloc: Global,
    piece: &Piece,
    functions: &F,
) -> PolarsResult<Result<Answer, DataFault>>
    requires fit { IsFit (F.told functions.now) piece.now.task }
    ensures result { IfOk result (λ answer. (q : WorldPiece) → Shows q piece.now → IsResult (F.told functions.now) q (answer_shown (origin_of piece.now.task) answer)) }
    ensures schema { IfOk result (λ answer. IfOk answer (λ a. (table_given a).schema ≡ schema_given piece.now.task)) }
    ensures few { IfOk result (λ answer. IfOk answer (λ a. length (table_given a).rows ≤ max_rows)) }
    ensures memory { OnErr result (result ≡ Err PolarsError.OutOfMemory) }
{
    match &piece.task {
        Task::HandsOn(table) => answered(shared(alloc, table)),
        Task::Computes {
            parameters,
            before,
            table,
        } => answered(computed(alloc, &**parameters, *before, table, functions)),
    }
}

fn shared(alloc: Global, table: &DataFrame) -> PolarsResult<DataFrame>
    ensures same { IfOk result (λ f. f ≡ table.now) }
    ensures memory { OnErr result (result ≡ Err PolarsError.OutOfMemory) }
{
    match table.share(alloc) {
        Ok(same) => Ok(same),
        Err(_) => Err(PolarsError::OutOfMemory),
    }
}

/// A table, or the fault of an error, as an answer. An error that stands for no fault is want of memory.
fn answered(computed: PolarsResult<DataFrame>) -> PolarsResult<Result<Answer, DataFault>>
    ensures rows { IfOk computed (λ f. result ≡ Ok (Ok (given.Rows f))) }
    ensures few { IfOk computed (λ f. length f.rows ≤ max_rows) }
    ensures fault { IfErr computed (λ e. IfSome (fault_of e) (λ x. result ≡ Ok (Err x))) }
    ensures memory { IfErr computed (λ e. IfNone (fault_of e) (result ≡ Err PolarsError.OutOfMemory)) }
{
    match computed {
        Ok(table) => {
            // What is given has few enough rows: its height says so.
            let _height = table.height();
            Ok(Ok(Answer::Rows(table)))
        }
        Err(error) => match fault_in(&error) {
            Some(fault) => Ok(Err(fault)),
            None => Err(PolarsError::OutOfMemory),
        },
    }
}

/// The fault that an error stands for.
fn fault_in(error: &PolarsError) -> Option<DataFault>
    ensures { result ≡ fault_of error.now }
{
    match error {
        PolarsError::ComputeError { why, .. } => match why {
            Compute::StrictCast => Some(DataFault::StrictCast),
            Compute::SliceBound => Some(DataFault::SliceBound),
            Compute::Function => Some(DataFault::Function),
            Compute::NoKey => None,
        },
        PolarsError::ShapeMismatch { .. } => Some(DataFault::Shape),
        PolarsError::OutOfBounds { why, .. } => match why {
            Bound::RowIndex => Some(DataFault::RowIndex),
            Bound::Gather => Some(DataFault::Gather),
            Bound::Rows => Some(DataFault::Rows),
        },
        _ => None,
    }
}

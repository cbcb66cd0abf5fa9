//! Which workers have a piece.
ghost use Rattle.std.specs.Prelude.{◌≡◌, ◌≢◌, ◌↔◌, ◌<◌, ℕ, Err, IfNone, IfOk, IfSome, IsTrue, None, OnErr, Some, length, option_copied, replicate, slice_get, slice_set};
ghost use Rattle.ps_frame.specs.declared.refusal.PolarsError.{PolarsError};

use ps_frame::refusal::{PolarsError, PolarsResult};
use std::alloc::Global;

/// So many workers, none of which has a piece.
///
/// Fails only for want of memory.
pub fn idle_workers<P: Drop>(alloc: Global, workers: usize) -> PolarsResult<Vec<Option<P>>>
    ensures idle { IfOk result (λ pieces. pieces.items ≡ replicate workers None) }
    ensures memory { OnErr result (result ≡ Err PolarsError.OutOfMemory) }
{
    let mut pieces = Vec::new(alloc);
    for _ in 0..workers {
        let Ok(()) = pieces.push(None) else {
            return Err(PolarsError::OutOfMemory);
        };
    }
    Ok(pieces)
}

/// Whether there is such a worker, who has no piece.
pub fn is_idle<P>(pieces: &[Option<P>], worker: usize) -> bool
    ensures { IsTrue result ↔ (slice_get pieces.now worker ≡ Some None) }
{
    match pieces.get(worker) {
        Some(piece) => piece.is_none(),
        None => false,
    }
}

/// The piece of a worker.
pub fn piece_of<P>(pieces: &[Option<P>], worker: usize) -> Option<&P>
    ensures some { IfSome (option_copied result) (λ piece. slice_get pieces.now worker ≡ Some (Some piece)) }
    ensures none { IfNone (option_copied result) ((piece : P) → slice_get pieces.now worker ≢ Some (Some piece)) }
{
    match pieces.get(worker) {
        Some(Some(piece)) => Some(piece),
        Some(None) => None,
        None => None,
    }
}

/// Some worker who has a piece.
pub fn busy_worker<P>(pieces: &[Option<P>]) -> Option<usize>
    ensures some { IfSome result (λ worker. (piece : P) × (slice_get pieces.now worker ≡ Some (Some piece))) }
    ensures none { IfNone result ((worker : ℕ) (piece : P) → slice_get pieces.now worker ≢ Some (Some piece)) }
{
    for worker in 0..pieces.len() {
        match piece_of(pieces, worker) {
            Some(_piece) => return Some(worker),
            None => (),
        }
    }
    None
}

/// Takes the piece of a worker, who has none then.
pub fn take_from<P>(pieces: &mut Vec<Option<P>>, worker: usize) -> Option<P>
    requires { worker < length pieces.old.items }
    ensures taken { slice_get pieces.old.items worker ≡ Some result }
    ensures left { pieces.new.items ≡ slice_set pieces.old.items worker None }
{
    pieces[worker].take()
}

/// Gives a worker a piece, in place of the one that it had.
pub fn give_to<P: Drop>(pieces: &mut Vec<Option<P>>, worker: usize, piece: P)
    requires { worker < length pieces.old.items }
    ensures { pieces.new.items ≡ slice_set pieces.old.items worker (Some piece) }
{
    pieces[worker] = Some(piece);
}

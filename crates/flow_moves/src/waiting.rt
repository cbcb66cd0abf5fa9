//! What waits in the pipes into a node.
ghost use Rattle.std.specs.Prelude.{◌≡◌, ◌&&◌, ◌<◌, ℕ, IfNone, IfSome, IsFalse, IsTrue, Some, false, not, slice_get, true};
ghost use Rattle.flow_moves.specs.Moves.{IsSo, is_through, is_waiting};
ghost use Rattle.ps_graph.specs.declared.key.LogicalPipeKey.{LogicalPipeKey};

use ps_graph::key::LogicalPipeKey;
use world_pipes::Pipes;

/// One of some keys.
fn key_at(keys: &[LogicalPipeKey], place: usize) -> Option<LogicalPipeKey>
    ensures { result ≡ slice_get keys.now place }
{
    keys.get(place).copied()
}

/// Whether a pipe is in the open phase and has a next morsel.
fn waits(pipes: &Pipes, key: LogicalPipeKey) -> bool
    ensures { IsSo pipes.now key is_waiting result }
{
    if pipes.in_phase(key) {
        pipes.has_next(key)
    } else {
        false
    }
}

/// Whether a pipe isn't in the open phase, or is closed and empty.
fn has_ended(pipes: &Pipes, key: LogicalPipeKey) -> bool
    ensures { IsSo pipes.now key is_through result }
{
    if pipes.in_phase(key) {
        pipes.is_over(key)
    } else {
        true
    }
}

/// Whether one of some pipes is in the open phase and has a next morsel.
fn waits_at(pipes: &Pipes, keys: &[LogicalPipeKey], place: usize) -> bool
    ensures yes { IsTrue result → (key : LogicalPipeKey) × (slice_get keys.now place ≡ Some key) × IsSo pipes.now key is_waiting true }
    ensures other { IsFalse result → (key : LogicalPipeKey) → slice_get keys.now place ≡ Some key → IsSo pipes.now key is_waiting false }
{
    match key_at(keys, place) {
        Some(key) => waits(pipes, key),
        None => false,
    }
}

/// Whether one of some pipes isn't in the open phase, or is closed and empty.
fn has_ended_at(pipes: &Pipes, keys: &[LogicalPipeKey], place: usize) -> bool
    ensures yes { IsTrue result → (key : LogicalPipeKey) → slice_get keys.now place ≡ Some key → IsSo pipes.now key is_through true }
    ensures other { IsFalse result → (key : LogicalPipeKey) × (slice_get keys.now place ≡ Some key) × IsSo pipes.now key is_through false }
{
    match key_at(keys, place) {
        Some(key) => has_ended(pipes, key),
        None => true,
    }
}

/// The first of some inputs that is in the open phase and has a next morsel.
pub(crate) fn input_with_next(pipes: &Pipes, keys: &[LogicalPipeKey]) -> Option<usize>
    ensures found { IfSome result (λ i. (key : LogicalPipeKey) × (slice_get keys.now i ≡ Some key) × IsSo pipes.now key is_waiting true) }
    ensures none { IfNone result ((i : ℕ) (key : LogicalPipeKey) → slice_get keys.now i ≡ Some key → IsSo pipes.now key is_waiting false) }
{
    for place in 0..keys.len() {
        if waits_at(pipes, keys, place) {
            return Some(place);
        }
    }
    None
}

/// Whether all of some inputs that are in the open phase are closed and empty.
pub(crate) fn are_through(pipes: &Pipes, keys: &[LogicalPipeKey]) -> bool
    ensures yes { IsTrue result → (i : ℕ) (key : LogicalPipeKey) → slice_get keys.now i ≡ Some key → IsSo pipes.now key is_through true }
    ensures other { IsFalse result → (i : ℕ) × (key : LogicalPipeKey) × (slice_get keys.now i ≡ Some key) × IsSo pipes.now key is_through false }
{
    for place in 0..keys.len() {
        if !has_ended_at(pipes, keys, place) {
            return false;
        }
    }
    true
}

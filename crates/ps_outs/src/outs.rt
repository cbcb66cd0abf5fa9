//! Which workers have a piece out.
ghost use Rattle.std.specs.Prelude.{◌≡◌, ◌≢◌, ◌↔◌, ℕ, ◌<◌, ◌∷◌, [], ◌&&◌, List, IfOk, IsFalse, IsTrue, None, OnErr, Err, Some, count_by, nat_eq, slice_get};
ghost use Rattle.std.specs.List.{AllByRecursion, filter as kept, list_any};
ghost use Rattle.ps_frame.specs.declared.refusal.PolarsError.{PolarsError};
ghost use Rattle.ps_outs.specs.Out.{AreOut, IsOf, passes};
ghost use Rattle.ps_turns.specs.Tasks.{Piece};
ghost use Rattle.ps_world.specs.Answers.{without_piece};

use ps_frame::refusal::{PolarsError, PolarsResult};
use std::alloc::Global;

/// Of which node a piece is, and for which of its inputs.
#[derive(Clone, Copy, Debug, PartialEq, Eq)]
pub struct Out {
    pub node: u32,
    pub input: u32,
}

/// Of which node the piece is that each worker has out, if it has one. The piece itself is with the worker.
///
/// A clause says of each call which pieces of a run's world are out after it, whichever were before. Each call but `new` and
/// those on one worker looks at all workers, of whom there are few.
#[derive(Drop)]
pub struct Outs {
    by_worker: Vec<Option<Out>>,
}

/// Whether a piece is out, and of this node.
fn is_of(out: Option<Out>, node: u32) -> bool
    ensures { result ≡ passes (λ n i. nat_eq n node) out }
{
    match out {
        Some(out) => out.node == node,
        None => false,
    }
}

/// Whether a piece is out, of this node and for this input.
fn is_at(out: Option<Out>, node: u32, input: u32) -> bool
    ensures { result ≡ passes (λ n i. nat_eq n node && nat_eq i input) out }
{
    match out {
        Some(out) => out.node == node && out.input == input,
        None => false,
    }
}

/// Whether a piece of this node is out with one of these.
fn has_of(by_worker: &[Option<Out>], node: u32) -> bool
    ensures { result ≡ list_any (passes (λ n i. nat_eq n node)) by_worker.now }
{
    by_worker.iter().any(|out| is_of(*out, node))
}

/// How many of these have a piece of this node for this input.
fn count_at(by_worker: &[Option<Out>], node: u32, input: u32) -> usize
    ensures { result ≡ count_by (passes (λ n i. nat_eq n node && nat_eq i input)) by_worker.now }
{
    by_worker
        .iter()
        .filter(|out| is_at(**out, node, input))
        .count()
}

/// Whether there is such a worker, who has no piece out.
fn is_idle(by_worker: &[Option<Out>], worker: usize) -> bool
    ensures { IsTrue result ↔ (slice_get by_worker.now worker ≡ Some None) }
{
    match by_worker.get(worker) {
        Some(out) => out.is_none(),
        None => false,
    }
}

impl Outs {
    /// No piece is out with any of so many workers.
    ///
    /// Fails only for want of memory.
    pub fn new(alloc: Global, workers: usize) -> PolarsResult<Outs>
        ensures out { IfOk result (λ h. AreOut workers [] h) }
        ensures memory { OnErr result (result ≡ Err PolarsError.OutOfMemory) }
    {
        let mut by_worker = Vec::new(alloc);
        for _ in 0..workers {
            let Ok(()) = by_worker.push(None) else {
                return Err(PolarsError::OutOfMemory);
            };
        }
        Ok(Outs { by_worker })
    }

    /// Whether there is such a worker, who has no piece out.
    pub fn is_free(&self, worker: u32) -> bool
        ensures seat { IsTrue result ↔ (slice_get self.now.by_worker.items worker ≡ Some None) }
        ensures free { (workers : ℕ) (outs : List Piece) → AreOut workers outs self.now → IsTrue result ↔ ((worker < workers) × AllByRecursion (λ (p : Piece). p.worker ≢ worker) outs) }
    {
        is_idle(self.by_worker.as_slice(), worker as usize)
    }

    /// Whether a piece of this node is out.
    pub fn has_piece_of(&self, node: u32) -> bool
        ensures { (workers : ℕ) (outs : List Piece) → AreOut workers outs self.now → IsFalse result ↔ (kept (λ (p : Piece). nat_eq p.node node) outs ≡ []) }
    {
        has_of(self.by_worker.as_slice(), node)
    }

    /// How many pieces of this node are out for this input.
    pub fn count(&self, node: u32, input: u32) -> usize
        ensures { (workers : ℕ) (outs : List Piece) → AreOut workers outs self.now → result ≡ count_by (λ (p : Piece). nat_eq p.node node && nat_eq p.input input) outs }
    {
        count_at(self.by_worker.as_slice(), node, input)
    }

    /// A worker takes a piece out.
    pub fn give(&mut self, worker: u32, out: Out)
        requires { slice_get self.old.by_worker.items worker ≡ Some None }
        ensures { (workers : ℕ) (outs : List Piece) (q : Piece) → AreOut workers outs self.old → IsOf worker out q → AreOut workers (q ∷ outs) self.new }
    {
        self.by_worker[worker as usize] = Some(out);
    }

    /// A worker hands its piece in.
    pub fn take_back(&mut self, worker: u32)
        ensures { (workers : ℕ) (outs : List Piece) (q : Piece) → AreOut workers outs self.old → q.worker ≡ worker → AreOut workers (without_piece q outs) self.new }
    {
        let worker = worker as usize;
        if worker < self.by_worker.len() {
            self.by_worker[worker] = None;
        }
    }
}

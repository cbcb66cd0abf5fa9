//! A run that is driven.
ghost use Rattle.std.specs.Prelude.{◌≡◌, ◌≢◌, ◌⊎◌, ◌↔◌, ℕ, Err, IfErr, IfNone, IfOk, IfSome, IsTrue, None, OnErr, Some, is_some, option_copied, slice_get, unwrap_or};
ghost use Rattle.flow_driver.specs.Runs.{CanBeDriven, HasOneSink, IsAnswer, IsAt, IsFaultOf, error_at};
ghost use Rattle.ps_flow.specs.Openings.{IsBuiltOf};
ghost use Rattle.ps_frame.specs.Causes.{Cause};
ghost use Rattle.ps_frame.specs.Functions.{Functions};
ghost use Rattle.ps_frame.specs.declared.refusal.PolarsError.{PolarsError};
ghost use Rattle.ps_graph.specs.Shown.{IsLinked};
ghost use Rattle.ps_meaning.specs.Errors.{cause_error};
ghost use Rattle.ps_meaning.specs.Shape.{Shape};
ghost use Rattle.ps_options.specs.declared.options.Options.{Options as RunOptions};
ghost use Rattle.ps_world.specs.Opening.{opening};
ghost use Rattle.ps_world.specs.World.{World as RunWorld, faulty, finished};
ghost use Rattle.world_records.specs.Shown.{IsEnabled, journal_shown};
ghost use Rattle.world_records.specs.declared.records.Move.{Move};

use flow_moves::{MoveNode, enabled};
use ps_flow::{Move, PieceNode, Record, StoreNode, World};
use ps_frame::frame::DataFrame;
use ps_frame::refusal::{PolarsError, PolarsResult};
use ps_graph::graph::Graph;
use ps_options::options::Options;
use std::alloc::Global;
use streaming_promises::promised::streaming_runs_keep_promises;
use worker_pieces::workers::{busy_worker, idle_workers, is_idle, piece_of};

/// A run, and the piece that each worker has out.
///
/// A clause says of each step which world of the definitions the run is at after it, whichever it was at before. That world is
/// reached from the opening of the shape, so all that is promised of reached worlds is promised of it.
#[derive(Drop)]
pub struct Run<N, P> {
    pub(crate) world: World<N>,
    pub(crate) pieces: Vec<Option<P>>,
}

impl<N: MoveNode + StoreNode> Run<N, N::Piece> {
    /// The run of a graph, which has to be as it was put together of a shape: nothing is done yet, and no worker has a piece.
    ///
    /// Fails only for want of memory.
    pub fn new(alloc: Global, graph: Graph<N>, options: &Options) -> PolarsResult<Self>
        requires linked { IsLinked graph }
        ensures begun { IfOk result (λ run. (F : Functions) (shape : Shape) → CanBeDriven F shape → IsBuiltOf N.IsNew shape graph → IsAt N.Has N.Shows N.IsFor F shape options.now (opening shape options.now) run) }
        ensures memory { OnErr result (result ≡ Err PolarsError.OutOfMemory) }
    {
        let Ok(pieces) = idle_workers(alloc, options.workers()) else {
            return Err(PolarsError::OutOfMemory);
        };
        let Ok(world) = World::new(alloc, graph, options) else {
            return Err(PolarsError::OutOfMemory);
        };
        Ok(Run { world, pieces })
    }

    /// The run's world, to be looked at.
    pub fn world(&self) -> &World<N>
        ensures { result.now ≡ self.now.world }
    {
        &self.world
    }

    /// Whether the run is finished.
    pub fn finished(&self) -> bool
        ensures { (F : Functions) (shape : Shape) (o : RunOptions) (w : RunWorld) → IsAt N.Has N.Shows N.IsFor F shape o w self.now → IsTrue result ↔ (w.ending ≡ finished) }
    {
        self.world.finished()
    }

    /// The error with which the run is at its end: that of its fault, or out of memory where that was marked.
    pub fn fault(&self) -> Option<&PolarsError>
        ensures fault { (F : Functions) (shape : Shape) (o : RunOptions) (w : RunWorld) → IsAt N.Has N.Shows N.IsFor F shape o w self.now → IfSome (option_copied result) (λ e. (e ≡ PolarsError.OutOfMemory) ⊎ IsFaultOf F shape e) }
        ensures faulty { (F : Functions) (shape : Shape) (o : RunOptions) (w : RunWorld) (c : Cause) → IsAt N.Has N.Shows N.IsFor F shape o w self.now → w.ending ≡ faulty c → option_copied result ≡ Some (cause_error c) }
        ensures told { (F : Functions) (shape : Shape) (o : RunOptions) (w : RunWorld) → IsAt N.Has N.Shows N.IsFor F shape o w self.now → unwrap_or (option_copied result) PolarsError.OutOfMemory ≡ error_at w.ending }
    {
        // What is promised of every reached world.
        streaming_runs_keep_promises();
        self.world.fault()
    }

    /// Whether there is a fault, or a want of memory is marked.
    pub fn has_fault(&self) -> bool
        ensures { result ≡ is_some self.now.world.fault }
    {
        self.world.has_fault()
    }

    /// All records so far, in order.
    pub fn journal(&self) -> &[Record]
        ensures { (F : Functions) (shape : Shape) (o : RunOptions) (w : RunWorld) → IsAt N.Has N.Shows N.IsFor F shape o w self.now → journal_shown result.now ≡ w.journal }
    {
        self.world.journal()
    }

    /// Whether there is such a worker, who has no piece. Such a one may make a move.
    pub fn is_idle(&self, worker: u32) -> bool
        ensures { IsTrue result ↔ (slice_get self.now.pieces.items worker ≡ Some None) }
    {
        is_idle(self.pieces.as_slice(), worker as usize)
    }

    /// The piece that a worker has out.
    pub fn piece(&self, worker: u32) -> Option<&N::Piece>
        ensures some { IfSome (option_copied result) (λ piece. slice_get self.now.pieces.items worker ≡ Some (Some piece)) }
        ensures none { IfNone (option_copied result) ((piece : N.Piece) → slice_get self.now.pieces.items worker ≢ Some (Some piece)) }
    {
        piece_of(self.pieces.as_slice(), worker as usize)
    }

    /// Some worker who has a piece out.
    pub fn busy_worker(&self) -> Option<u32>
        requires { (F : Functions) × (shape : Shape) × (o : RunOptions) × (w : RunWorld) × IsAt N.Has N.Shows N.IsFor F shape o w self.now }
        ensures some { IfSome result (λ worker. (piece : N.Piece) × (slice_get self.now.pieces.items worker ≡ Some (Some piece))) }
        ensures none { IfNone result ((worker : ℕ) (piece : N.Piece) → slice_get self.now.pieces.items worker ≢ Some (Some piece)) }
    {
        match busy_worker(self.pieces.as_slice()) {
            Some(worker) => Some(worker as u32),
            None => None,
        }
    }

    /// Some move that may be made, or none exactly where there is none: where the run is finished, has a fault, or a want of memory
    /// is marked, and where each node waits for a piece that is out, or all workers have one. It takes no memory.
    ///
    /// The nodes are looked at from a place on, and around.
    pub fn enabled(&self, from: u32) -> Option<Move>
        requires { (F : Functions) × (shape : Shape) × (o : RunOptions) × (w : RunWorld) × IsAt N.Has N.Shows N.IsFor F shape o w self.now }
        ensures some { IfSome result (λ m. (F : Functions) (shape : Shape) (o : RunOptions) (w : RunWorld) → IsAt N.Has N.Shows N.IsFor F shape o w self.now → IsEnabled F w m) }
        ensures unmarked { IfSome result (λ m. self.now.world.fault ≡ None) }
        ensures none { IfNone result ((F : Functions) (shape : Shape) (o : RunOptions) (w : RunWorld) (m : Move) → IsAt N.Has N.Shows N.IsFor F shape o w self.now → self.now.world.fault ≡ None → IsEnabled F w m → ⊥) }
        ensures over { IfNone result ((F : Functions) (shape : Shape) (o : RunOptions) (w : RunWorld) → IsAt N.Has N.Shows N.IsFor F shape o w self.now → self.now.world.fault ≡ None → ((worker : ℕ) (piece : N.Piece) → slice_get self.now.pieces.items worker ≢ Some (Some piece)) → w.ending ≡ finished) }
    {
        // What is promised of every reached world.
        streaming_runs_keep_promises();
        enabled(&self.world, from)
    }

    /// The table of a finished run: the rows of a whole table that the sink of the shape means, in its schema. After that the
    /// run may only be asked for its records.
    ///
    /// The shape has to have one sink. Fails only for want of memory.
    pub fn output(&mut self, alloc: Global) -> PolarsResult<DataFrame>
        requires over { (F : Functions) × (shape : Shape) × (o : RunOptions) × (w : RunWorld) × IsAt N.Has N.Shows N.IsFor F shape o w self.old × (w.ending ≡ finished) × HasOneSink shape }
        requires unmarked { self.old.world.fault ≡ None }
        ensures answer { IfOk result (λ table. (F : Functions) (shape : Shape) (o : RunOptions) (w : RunWorld) → IsAt N.Has N.Shows N.IsFor F shape o w self.old → w.ending ≡ finished → HasOneSink shape → IsAnswer F shape table) }
        ensures memory { OnErr result (result ≡ Err PolarsError.OutOfMemory) }
    {
        // What is promised of every reached world.
        streaming_runs_keep_promises();
        self.world.output(alloc)
    }
}

//! A run that is driven to its end by one thread.
ghost use Rattle.std.specs.Prelude.{◌≡◌, ◌≢◌, ◌⊎◌, ℕ, Err, IfErr, IfNone, IfOk, IfSome, None, OnErr, OnOk, Some, slice_get, unwrap_or};
ghost use Rattle.flow_driver.specs.Runs.{CanBeDriven, HasGoneOn, HasOneSink, HasStepped, IsAnswer, IsAt, IsFaultOf, StaysAt, StopsWith};
ghost use Rattle.ps_flow.specs.Openings.{IsBuiltOf};
ghost use Rattle.ps_frame.specs.Functions.{Functions};
ghost use Rattle.ps_frame.specs.declared.refusal.PolarsError.{PolarsError};
ghost use Rattle.ps_graph.specs.Shown.{IsLinked};
ghost use Rattle.ps_meaning.specs.Shape.{Shape};
ghost use Rattle.ps_options.specs.declared.options.Options.{Options as RunOptions};
ghost use Rattle.ps_world.specs.World.{World as RunWorld, finished};

use crate::run::Run;
use flow_moves::MoveNode;
use ps_flow::{Move, PieceNode, StoreNode};
use ps_frame::frame::DataFrame;
use ps_frame::refusal::{PolarsError, PolarsResult};
use ps_graph::graph::Graph;
use ps_options::options::Options;
use std::alloc::Global;
use worker_pieces::ComputePiece;
use worker_pieces::errors::fault_again;

/// From which node on the next move is looked for. What a node gave goes on to one behind it.
fn place_after(made: Move) -> u32 {
    match made {
        Move::Claim { node, .. } => node.saturating_add(1),
        Move::Pull { node, .. } => node.saturating_add(1),
        Move::Close { node } => node.saturating_add(1),
        Move::Open | Move::End => 0,
    }
}

impl<N: MoveNode + StoreNode> Run<N, N::Piece> {
    /// The error of a run that can't go on: that of its fault, or want of memory in a run that has none.
    fn error(&self) -> PolarsError
        ensures told { (F : Functions) (shape : Shape) (o : RunOptions) (w : RunWorld) → IsAt N.Has N.Shows N.IsFor F shape o w self.now → result ≡ unwrap_or self.now.world.fault PolarsError.OutOfMemory }
        ensures fault { (F : Functions) (shape : Shape) (o : RunOptions) (w : RunWorld) → IsAt N.Has N.Shows N.IsFor F shape o w self.now → (result ≡ PolarsError.OutOfMemory) ⊎ IsFaultOf F shape result }
    {
        match self.fault() {
            Some(error) => fault_again(error),
            None => PolarsError::OutOfMemory,
        }
    }

    /// Some move is made by worker 0, where no worker has a piece. Answers from which node on the next one is to be looked for, or
    /// none in a finished run.
    ///
    /// Fails only for want of memory: the run is then at the world at which it was, and has no fault.
    fn advance(&mut self, alloc: Global, from: u32) -> PolarsResult<Option<u32>>
        requires at { (F : Functions) × (shape : Shape) × (o : RunOptions) × (w : RunWorld) × IsAt N.Has N.Shows N.IsFor F shape o w self.old }
        requires unmarked { self.old.world.fault ≡ None }
        requires idle { (worker : ℕ) (piece : N.Piece) → slice_get self.old.pieces.items worker ≢ Some (Some piece) }
        ensures stepped { IfOk result (λ next. IfSome next (λ _. (F : Functions) (shape : Shape) (o : RunOptions) (w : RunWorld) → IsAt N.Has N.Shows N.IsFor F shape o w self.old → HasStepped N.Has N.Shows N.IsFor F shape o w self.new)) }
        ensures finished { IfOk result (λ next. IfNone next ((F : Functions) (shape : Shape) (o : RunOptions) (w : RunWorld) → IsAt N.Has N.Shows N.IsFor F shape o w self.old → w.ending ≡ finished)) }
        ensures same { IfOk result (λ next. IfNone next (self.new ≡ self.old)) }
        ensures memory { OnErr result (result ≡ Err PolarsError.OutOfMemory) }
        ensures stays { OnErr result (StaysAt N.Has N.Shows N.IsFor self.old self.new) }
        ensures told { OnErr result (unwrap_or self.new.world.fault PolarsError.OutOfMemory ≡ PolarsError.OutOfMemory) }
    {
        match self.enabled(from) {
            Some(found) => match self.make(alloc, found, 0) {
                Ok(()) => Ok(Some(place_after(found))),
                Err(_error) => Err(PolarsError::OutOfMemory),
            },
            None => Ok(None),
        }
    }

    /// One step: a piece that is out is handed in, or a move is made. Answers from which node on the next one is to be looked for,
    /// or none in a finished run.
    ///
    /// Fails by the error of the run's fault, and in a run that has none for want of memory. The run is then at the world at which it
    /// was.
    fn step<C: ComputePiece<N>>(
        &mut self,
        alloc: Global,
        from: u32,
        functions: &C,
    ) -> PolarsResult<Option<u32>>
        requires { (shape : Shape) × (o : RunOptions) × (w : RunWorld) × IsAt N.Has N.Shows N.IsFor (C.told functions.now) shape o w self.old }
        ensures stepped { IfOk result (λ next. IfSome next (λ _. (shape : Shape) (o : RunOptions) (w : RunWorld) → IsAt N.Has N.Shows N.IsFor (C.told functions.now) shape o w self.old → HasStepped N.Has N.Shows N.IsFor (C.told functions.now) shape o w self.new)) }
        ensures finished { IfOk result (λ next. IfNone next ((shape : Shape) (o : RunOptions) (w : RunWorld) → IsAt N.Has N.Shows N.IsFor (C.told functions.now) shape o w self.old → w.ending ≡ finished)) }
        ensures same { IfOk result (λ next. IfNone next ((self.new ≡ self.old) × (self.old.world.fault ≡ None))) }
        ensures fault { IfErr result (λ e. (shape : Shape) (o : RunOptions) (w : RunWorld) → IsAt N.Has N.Shows N.IsFor (C.told functions.now) shape o w self.old → (e ≡ PolarsError.OutOfMemory) ⊎ IsFaultOf (C.told functions.now) shape e) }
        ensures told { IfErr result (λ e. e ≡ unwrap_or self.new.world.fault PolarsError.OutOfMemory) }
        ensures stays { OnErr result (StaysAt N.Has N.Shows N.IsFor self.old self.new) }
    {
        if self.has_fault() {
            return Err(self.error());
        }
        match self.busy_worker() {
            Some(worker) => match self.hand_in(alloc, worker, functions) {
                Ok(()) => Ok(Some(from)),
                Err(_error) => Err(PolarsError::OutOfMemory),
            },
            None => match self.advance(alloc, from) {
                Ok(next) => Ok(next),
                Err(_error) => Err(PolarsError::OutOfMemory),
            },
        }
    }

    /// Steps until the run is finished. A piece that was claimed is handed in before the next move.
    ///
    /// Fails by the error of the run's fault, and in a run that has none for want of memory. Whether it fails or not, the run is at a
    /// world to which its steps have led. Each step writes a record, and every run ends after finitely many steps.
    pub fn run_to_end<C: ComputePiece<N>>(
        &mut self,
        alloc: Global,
        functions: &C,
    ) -> PolarsResult<()>
        requires { (shape : Shape) × (o : RunOptions) × (w : RunWorld) × IsAt N.Has N.Shows N.IsFor (C.told functions.now) shape o w self.old }
        ensures finished { OnOk result ((shape : Shape) (o : RunOptions) (w : RunWorld) → IsAt N.Has N.Shows N.IsFor (C.told functions.now) shape o w self.old → (v : RunWorld) × (v.ending ≡ finished) × IsAt N.Has N.Shows N.IsFor (C.told functions.now) shape o v self.new) }
        ensures unmarked { OnOk result (self.new.world.fault ≡ None) }
        ensures fault { IfErr result (λ e. (shape : Shape) (o : RunOptions) (w : RunWorld) → IsAt N.Has N.Shows N.IsFor (C.told functions.now) shape o w self.old → (e ≡ PolarsError.OutOfMemory) ⊎ IsFaultOf (C.told functions.now) shape e) }
        ensures told { IfErr result (λ e. e ≡ unwrap_or self.new.world.fault PolarsError.OutOfMemory) }
        ensures goes_on { (shape : Shape) (o : RunOptions) (w : RunWorld) → IsAt N.Has N.Shows N.IsFor (C.told functions.now) shape o w self.old → HasGoneOn N.Has N.Shows N.IsFor (C.told functions.now) shape o w self.new }
    {
        let mut from = 0;
        loop {
            // What the journal's length is known for: it is a number of 64 bits, and grows by one in each step.
            let _records = self.world.journal().len();
            match self.step(alloc, from, functions) {
                Ok(next) => match next {
                    Some(place) => from = place,
                    None => return Ok(()),
                },
                Err(error) => return Err(error),
            }
        }
    }
}

/// The table of a run from its beginning to its end, in one thread: the rows of a whole table that the sink of the shape means, in
/// its schema. The graph has to be as it was put together of a sound shape with one sink, all of whose nodes stream.
///
/// Fails by the error of a cause that breaks its node in some meaning, or that says that this node has too many rows, where it is
/// large; else only for want of memory. The run has then come to a world that has this fault, or to one that has none.
pub fn drive<N: MoveNode + StoreNode, C: ComputePiece<N>>(
    alloc: Global,
    graph: Graph<N>,
    options: &Options,
    functions: &C,
) -> PolarsResult<DataFrame>
    requires linked { IsLinked graph }
    requires built { (shape : Shape) × CanBeDriven (C.told functions.now) shape × HasOneSink shape × IsBuiltOf N.IsNew shape graph }
    ensures answer { IfOk result (λ table. (shape : Shape) → CanBeDriven (C.told functions.now) shape → HasOneSink shape → IsBuiltOf N.IsNew shape graph → IsAnswer (C.told functions.now) shape table) }
    ensures fault { IfErr result (λ e. (shape : Shape) → CanBeDriven (C.told functions.now) shape → IsBuiltOf N.IsNew shape graph → (e ≡ PolarsError.OutOfMemory) ⊎ IsFaultOf (C.told functions.now) shape e) }
    ensures told { IfErr result (λ e. (shape : Shape) → CanBeDriven (C.told functions.now) shape → IsBuiltOf N.IsNew shape graph → StopsWith (C.told functions.now) shape options.now e) }
{
    let mut run = match Run::new(alloc, graph, options) {
        Ok(run) => run,
        Err(_error) => return Err(PolarsError::OutOfMemory),
    };
    match run.run_to_end(alloc, functions) {
        Ok(()) => match run.output(alloc) {
            Ok(table) => Ok(table),
            Err(_error) => Err(PolarsError::OutOfMemory),
        },
        Err(error) => Err(error),
    }
}

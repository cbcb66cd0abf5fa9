//! How the pieces of a run are computed and handed in.
ghost use Rattle.std.specs.Prelude.{◌≡◌, Err, IfOk, IfSome, List, None, OnErr, OnOk, Some, slice_get, slice_set};
ghost use Rattle.flow_driver.specs.Runs.{HasHandedIn, IsAt};
ghost use Rattle.ps_flow.specs.Handing.{MayHandIn};
ghost use Rattle.ps_flow.specs.Standing.{Stands};
ghost use Rattle.ps_frame.specs.Functions.{Functions};
ghost use Rattle.ps_frame.specs.Tables.{Row};
ghost use Rattle.ps_frame.specs.declared.refusal.PolarsError.{PolarsError};
ghost use Rattle.ps_meaning.specs.Shape.{PhysicalNode, Shape};
ghost use Rattle.ps_options.specs.declared.options.Options.{Options};
ghost use Rattle.ps_turns.specs.Results.{IsResult};
ghost use Rattle.ps_turns.specs.Tasks.{Piece, good};
ghost use Rattle.ps_world.specs.Answers.{answered};
ghost use Rattle.ps_world.specs.World.{Node, World as RunWorld};

use crate::run::Run;
use flow_moves::MoveNode;
use ps_flow::{PieceNode, StoreNode};
use ps_frame::refusal::{PolarsError, PolarsResult};
use std::alloc::Global;
use worker_pieces::ComputePiece;
use worker_pieces::workers::take_from;

impl<N: MoveNode + StoreNode> Run<N, N::Piece> {
    /// What the piece that a worker has gives. Nothing changes yet.
    ///
    /// Fails only for want of memory.
    fn answer_of<C: ComputePiece<N>>(
        &self,
        alloc: Global,
        worker: u32,
        functions: &C,
    ) -> PolarsResult<N::Answer>
        requires { (piece : N.Piece) × (slice_get self.now.pieces.items worker ≡ Some (Some piece)) × ((p : PhysicalNode) × N.IsFor (C.told functions.now) p piece) }
        ensures result { IfOk result (λ answer. (piece : N.Piece) → slice_get self.now.pieces.items worker ≡ Some (Some piece) → (q : Piece) → N.Shows q piece → IsResult (C.told functions.now) q (N.given piece answer)) }
        ensures schema { IfOk result (λ answer. (piece : N.Piece) → slice_get self.now.pieces.items worker ≡ Some (Some piece) → (p : PhysicalNode) (rs : List Row) → N.IsFor (C.told functions.now) p piece → N.given piece answer ≡ good rs → N.schema_given answer ≡ p.schema) }
        ensures memory { OnErr result (result ≡ Err PolarsError.OutOfMemory) }
    {
        match self.piece(worker) {
            Some(piece) => functions.compute(alloc, piece),
            None => unreachable!(),
        }
    }

    /// What the piece that a worker has gave is handed in, and the worker has none then.
    fn give_in(&mut self, worker: u32, answer: N::Answer)
        requires piece { (piece : N.Piece) × (slice_get self.old.pieces.items worker ≡ Some (Some piece)) }
        requires may { self.old.world.fault ≡ None → (piece : N.Piece) → slice_get self.old.pieces.items worker ≡ Some (Some piece) → (G : Functions) × (u : RunWorld) × (q : Piece) × (x : Node) × Stands N.Has u self.old.world × MayHandIn G u q x × N.Shows q piece }
        ensures answered { self.old.world.fault ≡ None → (piece : N.Piece) → slice_get self.old.pieces.items worker ≡ Some (Some piece) → (G : Functions) (u : RunWorld) (q : Piece) (x : Node) → Stands N.Has u self.old.world → MayHandIn G u q x → N.Shows q piece → ((rs : List Row) → N.given piece answer ≡ good rs → N.schema_given answer ≡ x.node.schema) → Stands N.Has (answered u q (N.given piece answer)) self.new.world }
        ensures left { self.new.pieces.items ≡ slice_set self.old.pieces.items worker None }
    {
        match take_from(&mut self.pieces, worker as usize) {
            Some(piece) => self.world.hand_in(piece, answer),
            None => unreachable!(),
        }
    }

    /// A worker computes the piece that it has, and hands in what it gives. In a run that has a fault nothing is done.
    ///
    /// Fails only for want of memory; all is then as before.
    pub fn hand_in<C: ComputePiece<N>>(
        &mut self,
        alloc: Global,
        worker: u32,
        functions: &C,
    ) -> PolarsResult<()>
        requires at { (shape : Shape) × (o : Options) × (w : RunWorld) × IsAt N.Has N.Shows N.IsFor (C.told functions.now) shape o w self.old }
        requires piece { (piece : N.Piece) × (slice_get self.old.pieces.items worker ≡ Some (Some piece)) }
        ensures handed { OnOk result ((shape : Shape) (o : Options) (w : RunWorld) → IsAt N.Has N.Shows N.IsFor (C.told functions.now) shape o w self.old → self.old.world.fault ≡ None → HasHandedIn N.Has N.Shows N.IsFor (C.told functions.now) shape o w worker self.new) }
        ensures faulty { IfSome self.old.world.fault (λ e. self.new ≡ self.old) }
        ensures stays { OnErr result (self.new ≡ self.old) }
        ensures memory { OnErr result (result ≡ Err PolarsError.OutOfMemory) }
    {
        if self.world.has_fault() {
            return Ok(());
        }
        match self.answer_of(alloc, worker, functions) {
            Ok(answer) => {
                self.give_in(worker, answer);
                Ok(())
            }
            Err(_error) => Err(PolarsError::OutOfMemory),
        }
    }
}

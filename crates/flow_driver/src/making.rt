//! How the moves of a run are made.
ghost use Rattle.std.specs.Prelude.{◌≡◌, ℕ, Err, OnErr, OnOk, Some};
ghost use Rattle.flow_driver.specs.Runs.{HasMade, MayMake, StaysAt};
ghost use Rattle.ps_frame.specs.Functions.{Functions};
ghost use Rattle.ps_frame.specs.declared.refusal.PolarsError.{PolarsError};
ghost use Rattle.ps_meaning.specs.Shape.{Shape};
ghost use Rattle.ps_options.specs.declared.options.Options.{Options};
ghost use Rattle.ps_world.specs.World.{World as RunWorld};
ghost use Rattle.world_records.specs.declared.records.Move.{Move};

use crate::run::Run;
use flow_moves::MoveNode;
use ps_flow::{Move, PieceNode, StoreNode};
use ps_frame::refusal::{PolarsError, PolarsResult};
use std::alloc::Global;
use worker_pieces::workers::give_to;

impl<N: MoveNode + StoreNode> Run<N, N::Piece> {
    /// A worker claims a piece, and has it from then on.
    fn claim(&mut self, alloc: Global, node: u32, input: u32, worker: u32) -> PolarsResult<()>
        requires { (F : Functions) × (shape : Shape) × (o : Options) × (w : RunWorld) × MayMake N.Has N.Shows N.IsFor F shape o w worker (Move.Claim node input) self.old }
        ensures made { OnOk result ((F : Functions) (shape : Shape) (o : Options) (w : RunWorld) → MayMake N.Has N.Shows N.IsFor F shape o w worker (Move.Claim node input) self.old → HasMade N.Has N.Shows N.IsFor F shape o w (Move.Claim node input) self.new) }
        ensures stays { OnErr result (StaysAt N.Has N.Shows N.IsFor self.old self.new) }
        ensures memory { OnErr result (result ≡ Err PolarsError.OutOfMemory) }
    {
        match self.world.claim(alloc, node, input, worker) {
            Ok(piece) => {
                give_to(&mut self.pieces, worker as usize, piece);
                Ok(())
            }
            Err(_error) => Err(PolarsError::OutOfMemory),
        }
    }

    /// The next phase is opened. Where memory is missing that is marked, since the nodes may have changed.
    fn open(&mut self, alloc: Global) -> PolarsResult<()>
        requires { (F : Functions) × (shape : Shape) × (o : Options) × (w : RunWorld) × (worker : ℕ) × MayMake N.Has N.Shows N.IsFor F shape o w worker Move.Open self.old }
        ensures made { OnOk result ((F : Functions) (shape : Shape) (o : Options) (w : RunWorld) (worker : ℕ) → MayMake N.Has N.Shows N.IsFor F shape o w worker Move.Open self.old → HasMade N.Has N.Shows N.IsFor F shape o w Move.Open self.new) }
        ensures stays { OnErr result (StaysAt N.Has N.Shows N.IsFor self.old self.new) }
        ensures marked { OnErr result (self.new.world.fault ≡ Some PolarsError.OutOfMemory) }
        ensures memory { OnErr result (result ≡ Err PolarsError.OutOfMemory) }
    {
        self.world.open_phase(alloc)
    }

    /// A node stores the next morsel of an input.
    fn pull(&mut self, alloc: Global, node: u32, input: u32) -> PolarsResult<()>
        requires { (F : Functions) × (shape : Shape) × (o : Options) × (w : RunWorld) × (worker : ℕ) × MayMake N.Has N.Shows N.IsFor F shape o w worker (Move.Pull node input) self.old }
        ensures made { OnOk result ((F : Functions) (shape : Shape) (o : Options) (w : RunWorld) (worker : ℕ) → MayMake N.Has N.Shows N.IsFor F shape o w worker (Move.Pull node input) self.old → HasMade N.Has N.Shows N.IsFor F shape o w (Move.Pull node input) self.new) }
        ensures stays { OnErr result (StaysAt N.Has N.Shows N.IsFor self.old self.new) }
        ensures memory { OnErr result (result ≡ Err PolarsError.OutOfMemory) }
    {
        self.world.pull(alloc, node, input)
    }

    /// A node is closed.
    fn close(&mut self, node: u32) -> PolarsResult<()>
        requires { (F : Functions) × (shape : Shape) × (o : Options) × (w : RunWorld) × (worker : ℕ) × MayMake N.Has N.Shows N.IsFor F shape o w worker (Move.Close node) self.old }
        ensures made { OnOk result ((F : Functions) (shape : Shape) (o : Options) (w : RunWorld) (worker : ℕ) → MayMake N.Has N.Shows N.IsFor F shape o w worker (Move.Close node) self.old → HasMade N.Has N.Shows N.IsFor F shape o w (Move.Close node) self.new) }
        ensures stays { OnErr result (StaysAt N.Has N.Shows N.IsFor self.old self.new) }
        ensures memory { OnErr result (result ≡ Err PolarsError.OutOfMemory) }
    {
        self.world.close(node)
    }

    /// The open phase is at its end.
    fn end(&mut self) -> PolarsResult<()>
        requires { (F : Functions) × (shape : Shape) × (o : Options) × (w : RunWorld) × (worker : ℕ) × MayMake N.Has N.Shows N.IsFor F shape o w worker Move.End self.old }
        ensures made { OnOk result ((F : Functions) (shape : Shape) (o : Options) (w : RunWorld) (worker : ℕ) → MayMake N.Has N.Shows N.IsFor F shape o w worker Move.End self.old → HasMade N.Has N.Shows N.IsFor F shape o w Move.End self.new) }
        ensures stays { OnErr result (StaysAt N.Has N.Shows N.IsFor self.old self.new) }
        ensures memory { OnErr result (result ≡ Err PolarsError.OutOfMemory) }
    {
        self.world.end()
    }

    /// A worker who has no piece makes a move that may be made. What it claims it has out from then on.
    ///
    /// Fails only for want of memory: the run is then at the world at which it was, and where a phase was to be opened, out of
    /// memory is marked.
    pub fn make(&mut self, alloc: Global, found: Move, worker: u32) -> PolarsResult<()>
        requires { (F : Functions) × (shape : Shape) × (o : Options) × (w : RunWorld) × MayMake N.Has N.Shows N.IsFor F shape o w worker found self.old }
        ensures made { OnOk result ((F : Functions) (shape : Shape) (o : Options) (w : RunWorld) → MayMake N.Has N.Shows N.IsFor F shape o w worker found self.old → HasMade N.Has N.Shows N.IsFor F shape o w found self.new) }
        ensures stays { OnErr result (StaysAt N.Has N.Shows N.IsFor self.old self.new) }
        ensures marked { found ≡ Move.Open → OnErr result (self.new.world.fault ≡ Some PolarsError.OutOfMemory) }
        ensures memory { OnErr result (result ≡ Err PolarsError.OutOfMemory) }
    {
        match found {
            Move::Open => self.open(alloc),
            Move::Claim { node, input } => self.claim(alloc, node, input, worker),
            Move::Pull { node, input } => self.pull(alloc, node, input),
            Move::Close { node } => self.close(node),
            Move::End => self.end(),
        }
    }
}

//! How a worker claims a piece of work.
ghost use Rattle.std.specs.Prelude.{◌≡◌, ◌+◌, ◌≤◌, ◌&&◌, ℕ, true, Bool, Contains, Err, IfNone, IfOk, IfSome, List, MatchOption, None, OnErr, OnOk, Some, length, map, option_copied, slice_get};
ghost use Rattle.keyed_slots.specs.Slots.{value_at};
ghost use Rattle.ps_flow.specs.Changes.{ChangedAt};
ghost use Rattle.ps_flow.specs.Claiming.{Gives, HasClaimed, IsKeyOf, MayClaim, dropped_if, placed, rows_next, taken_if};
ghost use Rattle.ps_flow.specs.Handing.{HasOneOutput, IsPlaceOf};
ghost use Rattle.ps_flow.specs.Standing.{Stands};
ghost use Rattle.ps_frame.specs.Functions.{Functions};
ghost use Rattle.ps_frame.specs.declared.refusal.PolarsError.{PolarsError};
ghost use Rattle.ps_graph.specs.Shown.{IsLinked, wires_of};
ghost use Rattle.ps_turns.specs.Claims.{Claim};
ghost use Rattle.ps_world.specs.Claims.{after_claim, piece_of};
ghost use Rattle.ps_world.specs.Pipes.{change_pipes, is_input, taken};
ghost use Rattle.ps_world.specs.World.{Node, Pipe, World as RunWorld, has_next};
ghost use Rattle.world_pipes.specs.Giving.{next_in_phase};
ghost use Rattle.world_pipes.specs.Shown.{AreShown, IsAt, Setting};

use crate::claim_node::{ClaimNode, Claimed, Seat};
use crate::drops::drop_input;
use crate::inputs::input_key;
use crate::outputs::reserve_out;
use crate::piece_node::Place;
use crate::world::World;
use keyed_slots::{Key, SlotMap};
use ps_frame::frame::DataFrame;
use ps_frame::refusal::{PolarsError, PolarsResult};
use ps_graph::graph::{Graph, GraphNode};
use ps_graph::key::{GraphNodeKey, LogicalPipeKey};
use ps_outs::Out;
use std::alloc::Global;
use world_pipes::Pipes;
use world_records::Record;

/// The number of the next morsel of a pipe, if there is such a pipe.
fn next_number(pipes: &Pipes, key: Option<LogicalPipeKey>) -> u64
    ensures { IfSome key (λ k. (s : Setting) (ps : List Pipe) (p : Pipe) → AreShown s ps pipes.now → IsAt k ps p → result ≡ p.next) }
{
    match key {
        Some(key) => pipes.next(key),
        None => 0,
    }
}

/// The next morsel of a pipe, if there is such a pipe in the open phase, and its next morsel is there.
fn next_morsel(pipes: &Pipes, key: Option<LogicalPipeKey>) -> Option<&DataFrame>
    ensures morsel { IfSome key (λ k. (s : Setting) (ps : List Pipe) (p : Pipe) → AreShown s ps pipes.now → IsAt k ps p → option_copied result ≡ next_in_phase (s.schema p.wire.sender) p) }
    ensures none { IfNone key (option_copied result ≡ None) }
{
    match key {
        Some(key) => pipes.peek(key),
        None => None,
    }
}

/// Takes the next morsel of a pipe, if there is such a pipe. It isn't wanted any more.
fn take_next(pipes: &mut Pipes, key: Option<LogicalPipeKey>)
    ensures { (s : Setting) (ps : List Pipe) (n i : ℕ) → AreShown s ps pipes.old → IsKeyOf n i ps key → ((p : Pipe) → Contains ps p → is_input n i p ≡ true → has_next p ≡ true) → AreShown s (change_pipes (is_input n i) taken ps) pipes.new }
{
    match key {
        Some(key) => take_at(pipes, key),
        None => (),
    }
}

/// Takes the next morsel of a pipe.
fn take_at(pipes: &mut Pipes, key: LogicalPipeKey)
    ensures { (s : Setting) (ps : List Pipe) (n i : ℕ) → AreShown s ps pipes.old → IsKeyOf n i ps (Some key) → ((p : Pipe) → Contains ps p → is_input n i p ≡ true → has_next p ≡ true) → AreShown s (change_pipes (is_input n i) taken ps) pipes.new }
{
    match pipes.take(key) {
        Some(_morsel) => (),
        None => (),
    }
}

/// Takes the next morsel of a pipe, if that is to be taken.
fn take_if(pipes: &mut Pipes, key: Option<LogicalPipeKey>, takes: bool)
    ensures { (s : Setting) (ps : List Pipe) (n i : ℕ) → AreShown s ps pipes.old → IsKeyOf n i ps key → (takes ≡ true → (p : Pipe) → Contains ps p → is_input n i p ≡ true → has_next p ≡ true) → AreShown s (taken_if takes n i ps) pipes.new }
{
    if takes {
        take_next(pipes, key);
    }
}

/// Drops a pipe, if that is to be dropped, and all that then feeds nobody.
fn drop_if<N>(graph: &Graph<N>, pipes: &mut Pipes, key: Option<LogicalPipeKey>, drops: bool)
    requires linked { IsLinked graph.now }
    ensures { (s : Setting) (ps : List Pipe) (n i : ℕ) → AreShown s ps pipes.old → IsKeyOf n i ps key → wires_of graph.now.pipes.slots ≡ map (λ (p : Pipe). p.wire) ps → ((m : ℕ) → HasOneOutput m ps) → AreShown s (dropped_if drops (length graph.now.nodes.slots) n i ps) pipes.new }
{
    if drops {
        drop_input(graph, pipes, key);
    }
}

/// A node's claim is made.
fn claim_in<N: ClaimNode>(node: &mut GraphNode<N>, input: u32, rows: usize)
    requires { N.HasCount node.old.compute rows }
    ensures claimed { HasClaimed N.Has input rows node.old.compute node.new.compute }
    ensures others { node.new ≡ record node.old { compute = node.new.compute } }
{
    node.compute.claim(input, rows);
}

/// The claim of one of the nodes is made.
fn claim_at<N: ClaimNode>(
    nodes: &mut SlotMap<GraphNodeKey, GraphNode<N>>,
    node: u32,
    input: u32,
    rows: usize,
)
    requires { IfSome (value_at nodes.old.slots node) (λ x. N.HasCount x.compute rows) }
    ensures { IfSome (value_at nodes.old.slots node) (λ x. ChangedAt (HasClaimed N.Has input rows) x node nodes.old.slots nodes.new.slots) }
{
    match nodes.get_mut(GraphNodeKey::from_number(node)) {
        Some(node) => claim_in(node, input, rows),
        None => (),
    }
}

/// The record of a claim.
fn record_of(place: Place) -> Record
    ensures { result ≡ Record.Claim place.node place.input place.number place.worker }
{
    Record::Claim {
        node: place.node,
        input: place.input,
        number: place.number,
        worker: place.worker,
    }
}

impl<N: ClaimNode> World<N> {
    /// The piece of a claim, if there is one to make. Nothing changes yet.
    ///
    /// Fails only for want of memory.
    fn prepare(
        &self,
        alloc: Global,
        seat: Seat,
        key: Option<LogicalPipeKey>,
    ) -> PolarsResult<Option<Claimed<N::Piece>>>
        ensures claim { IfOk result (λ found. (F : Functions) (w : RunWorld) (x : Node) (c : Claim) → Stands N.Has w self.now → MayClaim F w seat.node seat.input seat.worker x c → IsKeyOf seat.node seat.input w.pipes key → MatchOption found ⊥ (Gives N.Shows N.IsFor F seat x.node (rows_next w seat.node seat.input) c)) }
        ensures count { IfOk result (λ found. IfSome found (λ y. IfSome (value_at self.now.graph.nodes.slots seat.node) (λ x. N.HasCount x.compute y.rows))) }
        ensures memory { OnErr result (result ≡ Err PolarsError.OutOfMemory) }
    {
        let number = next_number(&self.pipes, key);
        let morsel = next_morsel(&self.pipes, key);
        match self.graph.nodes.get(GraphNodeKey::from_number(seat.node)) {
            Some(node) => node.compute.prepare(alloc, seat, number, morsel),
            None => Ok(None),
        }
    }

    /// Takes the memory of a claim: that of its record, and a place for the answer in the pipe out of its node. Fails only for
    /// want of it.
    fn make_place(&mut self, node: u32) -> PolarsResult<()>
        ensures placed { OnOk result ((F : Functions) (w : RunWorld) (input worker : ℕ) (x : Node) (c : Claim) → Stands N.Has w self.old → MayClaim F w node input worker x c → Stands N.Has (placed w node) self.new) }
        ensures spare { OnOk result (self.new.options.workers + 1 ≤ self.new.journal.spare) }
        ensures others { self.new ≡ record self.old { pipes = self.new.pipes; journal = self.new.journal } }
        ensures stays { OnErr result ((w : RunWorld) → Stands N.Has w self.old → Stands N.Has w self.new) }
        ensures memory { OnErr result (result ≡ Err PolarsError.OutOfMemory) }
    {
        let Ok(()) = self.journal.reserve(self.options.workers() + 1) else {
            return Err(PolarsError::OutOfMemory);
        };
        reserve_out(&self.graph, &mut self.pipes, node)
    }

    /// Makes a claim, for which memory was taken.
    fn make(
        &mut self,
        seat: Seat,
        key: Option<LogicalPipeKey>,
        claimed: Claimed<N::Piece>,
    ) -> N::Piece
        requires linked { IsLinked self.old.graph }
        requires count { IfSome (value_at self.old.graph.nodes.slots seat.node) (λ x. N.HasCount x.compute claimed.rows) }
        requires free { slice_get self.old.outs.by_worker.items seat.worker ≡ Some None }
        requires spare { self.old.options.workers + 1 ≤ self.old.journal.spare }
        ensures piece { result ≡ claimed.piece }
        ensures made { (F : Functions) (w : RunWorld) (x : Node) (c : Claim) → Stands N.Has (placed w seat.node) self.old → MayClaim F w seat.node seat.input seat.worker x c → IsKeyOf seat.node seat.input w.pipes key → Gives N.Shows N.IsFor F seat x.node (rows_next w seat.node seat.input) c claimed → Stands N.Has (after_claim w seat.node seat.input seat.worker x c) self.new }
    {
        let place = N::place_of(&claimed.piece);
        take_if(&mut self.pipes, key, claimed.takes_morsel);
        drop_if(&self.graph, &mut self.pipes, key, claimed.drops_input);
        claim_at(&mut self.graph.nodes, seat.node, seat.input, claimed.rows);
        self.outs.give(
            seat.worker,
            Out {
                node: seat.node,
                input: seat.input,
            },
        );
        self.journal.append(record_of(place));
        claimed.piece
    }

    /// Takes the memory of a claim, and makes it.
    ///
    /// Fails only for want of memory; the world is then the one that it was before.
    fn carry_out(
        &mut self,
        seat: Seat,
        key: Option<LogicalPipeKey>,
        claimed: Claimed<N::Piece>,
    ) -> PolarsResult<N::Piece>
        requires linked { IsLinked self.old.graph }
        requires count { IfSome (value_at self.old.graph.nodes.slots seat.node) (λ x. N.HasCount x.compute claimed.rows) }
        requires free { slice_get self.old.outs.by_worker.items seat.worker ≡ Some None }
        ensures piece { IfOk result (λ piece. piece ≡ claimed.piece) }
        ensures made { OnOk result ((F : Functions) (w : RunWorld) (x : Node) (c : Claim) → Stands N.Has w self.old → MayClaim F w seat.node seat.input seat.worker x c → IsKeyOf seat.node seat.input w.pipes key → Gives N.Shows N.IsFor F seat x.node (rows_next w seat.node seat.input) c claimed → Stands N.Has (after_claim w seat.node seat.input seat.worker x c) self.new) }
        ensures stays { OnErr result ((w : RunWorld) → Stands N.Has w self.old → Stands N.Has w self.new) }
        ensures memory { OnErr result (result ≡ Err PolarsError.OutOfMemory) }
    {
        let Ok(()) = self.make_place(seat.node) else {
            return Err(PolarsError::OutOfMemory);
        };
        Ok(self.make(seat, key, claimed))
    }

    /// A worker, who has no piece out, claims a piece of a node, named by its place in the graph, for one of its inputs: the next
    /// morsel of that input, or, of a node without inputs, the next part of its own. What is handed in for the piece has its
    /// place from then on, and takes no memory. A slice and a row index count the piece's rows at the claim, and the claim with
    /// which a slice has its rows drops the slice's input.
    ///
    /// The nodes of the graph have to be such as stream, and the node has to have a claim on the input. Fails only for want of
    /// memory; the world is then the one that it was before.
    pub fn claim(
        &mut self,
        alloc: Global,
        node: u32,
        input: u32,
        worker: u32,
    ) -> PolarsResult<N::Piece>
        requires { (F : Functions) × (w : RunWorld) × (x : Node) × (c : Claim) × Stands N.Has w self.old × MayClaim F w node input worker x c }
        ensures claimed { IfOk result (λ piece. (F : Functions) (w : RunWorld) (x : Node) (c : Claim) → Stands N.Has w self.old → MayClaim F w node input worker x c → N.Shows (piece_of node input worker c) piece × N.IsFor F x.node piece × Stands N.Has (after_claim w node input worker x c) self.new) }
        ensures stays { OnErr result ((w : RunWorld) → Stands N.Has w self.old → Stands N.Has w self.new) }
        ensures memory { OnErr result (result ≡ Err PolarsError.OutOfMemory) }
    {
        let seat = Seat {
            node,
            input,
            worker,
        };
        let key = input_key(&self.graph, node, input);
        let Ok(found) = self.prepare(alloc, seat, key) else {
            return Err(PolarsError::OutOfMemory);
        };
        match found {
            Some(claimed) => self.carry_out(seat, key, claimed),
            None => unreachable!(),
        }
    }
}

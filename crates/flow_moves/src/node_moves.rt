//! Which move one node has.
ghost use Rattle.std.specs.Prelude.{◌≡◌, ◌&&◌, Bool, Contains, IsTrue, List, Some, None, false, nat_eq, not, slice_get, true};
ghost use Rattle.keyed_slots.specs.Slots.{value_at};
ghost use Rattle.flow_moves.specs.Moves.{IsMoveOf, MayPick, OnlyClaims, TakesNothing, is_waiting};
ghost use Rattle.ps_flow.specs.Standing.{Stands, seen_as};
ghost use Rattle.ps_flow.specs.declared.marks.Mark.{Mark};
ghost use Rattle.ps_frame.specs.Functions.{Functions};
ghost use Rattle.ps_graph.specs.Shown.{IsLinked};
ghost use Rattle.ps_turns.specs.Claims.{Claim};
ghost use Rattle.ps_world.specs.Closing.{HasFinished};
ghost use Rattle.ps_world.specs.Pipes.{is_input};
ghost use Rattle.ps_world.specs.Step.{IsAtWork};
ghost use Rattle.ps_world.specs.World.{Node, Pipe, World as RunWorld, is_cut_off, running, shape_of};

use crate::move_node::MoveNode;
use crate::places::has_place;
use crate::waiting::{are_through, input_with_next};
use crate::workers::has_free_worker;
use keyed_slots::Key;
use ps_flow::{Mark, Move, RunNode, World, is_cut_off};
use ps_graph::graph::GraphNode;
use ps_graph::key::GraphNodeKey;

/// Whether a node with this mark is in the phase, and isn't closed there.
fn is_working(mark: Mark) -> bool
    ensures { result ≡ (mark.in_phase && not mark.is_closed) }
{
    mark.in_phase && !mark.is_closed
}

/// Whether a node is in the open phase, and isn't closed there.
fn is_at_work(marks: &[Mark], node: usize) -> bool
    ensures there { (m : Mark) → slice_get marks.now node ≡ Some m → result ≡ (m.in_phase && not m.is_closed) }
    ensures none { slice_get marks.now node ≡ None → result ≡ false }
{
    match marks.get(node) {
        Some(mark) => is_working(*mark),
        None => false,
    }
}

/// The close of a node that has nothing left to take, unless a piece of it is out.
fn close_of<N: RunNode>(world: &World<N>, node: u32) -> Option<Move>
    ensures { (F : Functions) (w : RunWorld) (x : Node) → Stands N.Has w world.now → IsAtWork w node x → HasFinished w node x → TakesNothing F w node → IsMoveOf F w node result }
{
    if world.outs().has_piece_of(node) {
        None
    } else {
        Some(Move::Close { node })
    }
}

/// The claim of a node on an input, if some worker is free and there is a place for its answer.
fn claim_of<N: RunNode>(world: &World<N>, node: u32, input: u32) -> Option<Move>
    ensures { (F : Functions) (w : RunWorld) (x : Node) (c : Claim) → Stands N.Has w world.now → MayPick F w → OnlyClaims F w node input x c → IsMoveOf F w node result }
{
    if !has_free_worker(world) {
        return None;
    }
    if has_place(world, node) {
        Some(Move::Claim { node, input })
    } else {
        None
    }
}

/// A move of a node that has a next morsel of an input: it stores it, or claims it.
fn take_of<N: MoveNode>(world: &World<N>, node: u32, input: u32, compute: &N) -> Option<Move>
    ensures { (F : Functions) (w : RunWorld) (x : Node) (p : Pipe) → Stands N.Has w world.now → MayPick F w → IsAtWork w node x → is_cut_off w node ≡ false → (es : List Bool) × N.Has w.options compute.now (seen_as (shape_of w) x es) → Contains w.pipes p → is_input node input p ≡ true → is_waiting p ≡ true → IsMoveOf F w node result }
{
    if compute.pulls() {
        Some(Move::Pull { node, input })
    } else {
        claim_of(world, node, input)
    }
}

/// A move of a node that has no next morsel: it claims a part of its own, or is closed.
fn own_of<N: MoveNode>(world: &World<N>, node: u32, found: &GraphNode<N>) -> Option<Move>
    ensures { (F : Functions) (w : RunWorld) (x : Node) → Stands N.Has w world.now → MayPick F w → IsAtWork w node x → is_cut_off w node ≡ false → value_at world.now.graph.nodes.slots node ≡ Some found.now → ((p : Pipe) → Contains w.pipes p → nat_eq p.wire.receiver node ≡ true → is_waiting p ≡ false) → IsMoveOf F w node result }
{
    if found.compute.claims_own() {
        return claim_of(world, node, 0);
    }
    if are_through(world.pipes(), found.inputs.as_slice()) {
        return close_of(world, node);
    }
    None
}

/// A move of a node at work that isn't cut off.
fn move_by<N: MoveNode>(world: &World<N>, node: u32, found: &GraphNode<N>) -> Option<Move>
    requires linked { IsLinked world.now.graph }
    requires node { value_at world.now.graph.nodes.slots node ≡ Some found.now }
    ensures { (F : Functions) (w : RunWorld) (x : Node) → Stands N.Has w world.now → MayPick F w → IsAtWork w node x → is_cut_off w node ≡ false → IsMoveOf F w node result }
{
    match input_with_next(world.pipes(), found.inputs.as_slice()) {
        Some(input) => {
            let place = input as u32;
            take_of(world, node, place, &found.compute)
        }
        None => own_of(world, node, found),
    }
}

/// The same, by the node's place.
fn move_at_work<N: MoveNode>(world: &World<N>, node: u32) -> Option<Move>
    requires linked { IsLinked world.now.graph }
    ensures { (F : Functions) (w : RunWorld) (x : Node) → Stands N.Has w world.now → MayPick F w → IsAtWork w node x → is_cut_off w node ≡ false → IsMoveOf F w node result }
{
    match world.graph().nodes.get(GraphNodeKey::from_number(node)) {
        Some(found) => move_by(world, node, found),
        None => None,
    }
}

/// A move of a node of the open phase, named by its place in the graph, or none where it has none.
///
/// It looks at the pipes around the node and at the workers, of whom there are few.
pub(crate) fn move_of<N: MoveNode>(world: &World<N>, node: u32) -> Option<Move>
    requires linked { IsLinked world.now.graph }
    ensures { (F : Functions) (w : RunWorld) → Stands N.Has w world.now → MayPick F w → IsTrue w.is_open → w.ending ≡ running → IsMoveOf F w node result }
{
    if !is_at_work(world.marks().as_slice(), node as usize) {
        return None;
    }
    if is_cut_off(world.graph(), world.pipes(), node) {
        return close_of(world, node);
    }
    move_at_work(world, node)
}

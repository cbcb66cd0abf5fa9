//! Some move that may be made.
ghost use Rattle.std.specs.Prelude.{◌≡◌, ◌≤◌, ◌<◌, ◌||◌, ℕ, IfNone, IfSome, IsFalse, IsTrue, None, not};
ghost use Rattle.std.specs.List.{AllByRecursion, list_all};
ghost use Rattle.flow_moves.specs.Moves.{HasNoMove, MayPick};
ghost use Rattle.ps_flow.specs.Openings.{Tells};
ghost use Rattle.ps_flow.specs.Standing.{Stands};
ghost use Rattle.ps_flow.specs.declared.marks.Mark.{Mark};
ghost use Rattle.ps_frame.specs.Functions.{Functions};
ghost use Rattle.ps_graph.specs.Shown.{IsLinked};
ghost use Rattle.ps_world.specs.World.{Node, World as RunWorld, running};
ghost use Rattle.world_records.specs.Shown.{IsEnabled};
ghost use Rattle.world_records.specs.declared.records.Move.{Move};

use crate::move_node::MoveNode;
use crate::node_moves::move_of;
use ps_flow::{Mark, Move, RunNode, World};

/// Whether a node with this mark isn't in the phase, or is closed there.
fn is_left(mark: Mark) -> bool
    ensures { result ≡ (not mark.in_phase || mark.is_closed) }
{
    !mark.in_phase || mark.is_closed
}

/// Whether all nodes of the open phase are closed.
fn are_all_left(marks: &[Mark]) -> bool
    ensures { result ≡ list_all (λ (m : Mark). not m.in_phase || m.is_closed) marks.now }
{
    marks.iter().all(|mark| is_left(*mark))
}

/// The end of the open phase, if all its nodes are closed.
fn end_of<N: RunNode>(world: &World<N>) -> Option<Move>
    ensures some { IfSome result (λ m. (F : Functions) (w : RunWorld) → Stands N.Has w world.now → IsTrue w.is_open → w.ending ≡ running → IsEnabled F w m) }
    ensures none { IfNone result ((w : RunWorld) → Stands N.Has w world.now → AllByRecursion (λ (x : Node). IsTrue x.in_phase → IsTrue x.is_closed) w.nodes → ⊥) }
{
    if are_all_left(world.marks().as_slice()) {
        Some(Move::End)
    } else {
        None
    }
}

/// A move of one of the nodes from one place up to another.
fn move_among<N: MoveNode>(world: &World<N>, begin: u32, end: u32) -> Option<Move>
    requires linked { IsLinked world.now.graph }
    ensures some { IfSome result (λ m. (F : Functions) (w : RunWorld) → Stands N.Has w world.now → MayPick F w → IsTrue w.is_open → w.ending ≡ running → IsEnabled F w m) }
    ensures none { IfNone result ((F : Functions) (w : RunWorld) (n : ℕ) → Stands N.Has w world.now → MayPick F w → IsTrue w.is_open → w.ending ≡ running → begin ≤ n → n < end → HasNoMove F w n) }
{
    for node in begin..end {
        if let Some(found) = move_of(world, node) {
            return Some(found);
        }
    }
    None
}

/// A move of a node: first of those from a place on, then of those before it.
fn move_within<N: MoveNode>(world: &World<N>, from: u32) -> Option<Move>
    requires linked { IsLinked world.now.graph }
    ensures some { IfSome result (λ m. (F : Functions) (w : RunWorld) → Stands N.Has w world.now → MayPick F w → IsTrue w.is_open → w.ending ≡ running → IsEnabled F w m) }
    ensures none { IfNone result ((F : Functions) (w : RunWorld) (n : ℕ) → Stands N.Has w world.now → MayPick F w → IsTrue w.is_open → w.ending ≡ running → HasNoMove F w n) }
{
    let count = world.graph().nodes.inserts() as u32;
    let start = from.min(count);
    match move_among(world, start, count) {
        Some(found) => Some(found),
        None => move_among(world, 0, start),
    }
}

/// Some move that may be made, or none exactly where there is none: where the run is finished, has a fault, or a want of memory
/// is marked, and where each node waits for a piece that is out, or all workers have one. It takes no memory.
///
/// The nodes of the graph have to be such as stream. They are looked at from a place on, and around. A driver that goes on
/// where it made its last move so finds the next one mostly at once.
pub fn enabled<N: MoveNode>(world: &World<N>, from: u32) -> Option<Move>
    requires linked { world.now.fault ≡ None → IsLinked world.now.graph }
    ensures some { IfSome result (λ m. (F : Functions) (w : RunWorld) → Stands N.Has w world.now → MayPick F w → IsEnabled F w m) }
    ensures none { IfNone result ((F : Functions) (w : RunWorld) (m : Move) → Stands N.Has w world.now → MayPick F w → world.now.fault ≡ None → IsEnabled F w m → ⊥) }
    ensures ended { (w : RunWorld) → Tells w world.now → (w.ending ≡ running → ⊥) → result ≡ None }
    ensures marked { IfSome world.now.fault (λ e. result ≡ None) }
{
    if world.has_fault() {
        return None;
    }
    if world.finished() {
        return None;
    }
    if !world.is_open() {
        return Some(Move::Open);
    }
    match move_within(world, from) {
        Some(found) => Some(found),
        None => end_of(world),
    }
}

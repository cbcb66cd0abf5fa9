//! The pipe out of a node.
ghost use Rattle.std.specs.Prelude.{◌≡◌, ◌&&◌, ◌∷◌, ◌<◌, [], Contains, Err, IfNone, IfSome, List, OnErr, OnOk, false, length, map, nat_eq, not, slice_get};
ghost use Rattle.ps_flow.specs.Handing.{HasOneOutput};
ghost use Rattle.ps_frame.specs.declared.refusal.PolarsError.{PolarsError};
ghost use Rattle.ps_graph.specs.Shown.{IsLinked, wires_of};
ghost use Rattle.ps_world.specs.Pipes.{change_pipes, with_answer, with_place};
ghost use Rattle.ps_world.specs.World.{Pipe};
ghost use Rattle.world_pipes.specs.Giving.{IsAwaitedIn};
ghost use Rattle.world_pipes.specs.Shown.{AreKeysOf, AreShown, Setting};

use crate::inputs::key_at;
use keyed_slots::Key;
use ps_frame::frame::DataFrame;
use ps_frame::refusal::PolarsResult;
use ps_graph::graph::Graph;
use ps_graph::key::{GraphNodeKey, LogicalPipeKey};
use world_pipes::Pipes;

/// The key of the first pipe out of a node, if there is one.
pub fn output_key<N>(graph: &Graph<N>, node: u32) -> Option<LogicalPipeKey>
    ensures key { IfSome result (λ key. (ps : List Pipe) → IsLinked graph.now → wires_of graph.now.pipes.slots ≡ map (λ (p : Pipe). p.wire) ps → HasOneOutput node ps → AreKeysOf (λ p. nat_eq p.wire.sender node) (key ∷ []) ps) }
    ensures none { IfNone result ((ps : List Pipe) (p : Pipe) → IsLinked graph.now → wires_of graph.now.pipes.slots ≡ map (λ (p : Pipe). p.wire) ps → Contains ps p → nat_eq p.wire.sender node ≡ false) }
{
    match graph.nodes.get(GraphNodeKey::from_number(node)) {
        Some(found) => key_at(found.outputs.as_slice(), 0),
        None => None,
    }
}

/// Puts the answer to a claim into the pipe out of a node, where that is in the open phase.
pub(crate) fn put_out<N>(
    graph: &Graph<N>,
    pipes: &mut Pipes,
    node: u32,
    number: u64,
    table: DataFrame,
)
    requires { (s : Setting) × (ps : List Pipe) × AreShown s ps pipes.old × IsLinked graph.now × (wires_of graph.now.pipes.slots ≡ map (λ (p : Pipe). p.wire) ps) × HasOneOutput node ps × ((p : Pipe) → Contains ps p → p.wire.sender ≡ node → IsAwaitedIn number p) }
    ensures { (s : Setting) (ps : List Pipe) → AreShown s ps pipes.old → IsLinked graph.now → wires_of graph.now.pipes.slots ≡ map (λ (p : Pipe). p.wire) ps → HasOneOutput node ps → table.schema ≡ s.schema node → AreShown s (change_pipes (λ p. nat_eq p.wire.sender node && p.in_phase) (with_answer number table.rows) ps) pipes.new }
{
    match output_key(graph, node) {
        Some(key) => pipes.put(key, number, table),
        None => (),
    }
}

/// Makes a place for the answer to a claim in the pipe out of a node, where that is in the open phase and isn't dropped.
///
/// Fails only for want of memory; the pipes are then as they were.
pub(crate) fn reserve_out<N>(graph: &Graph<N>, pipes: &mut Pipes, node: u32) -> PolarsResult<()>
    ensures placed { OnOk result ((s : Setting) (ps : List Pipe) → AreShown s ps pipes.old → IsLinked graph.now → wires_of graph.now.pipes.slots ≡ map (λ (p : Pipe). p.wire) ps → HasOneOutput node ps → AreShown s (change_pipes (λ p. nat_eq p.wire.sender node && (p.in_phase && not p.is_dropped)) with_place ps) pipes.new) }
    ensures stays { OnErr result ((s : Setting) (ps : List Pipe) → AreShown s ps pipes.old → AreShown s ps pipes.new) }
    ensures memory { OnErr result (result ≡ Err PolarsError.OutOfMemory) }
{
    match output_key(graph, node) {
        Some(key) => pipes.reserve(key),
        None => Ok(()),
    }
}

//! The pipes into a node.
ghost use Rattle.std.specs.Prelude.{◌≡◌, ◌∷◌, [], Contains, IfNone, IfSome, List, false, map, slice_get};
ghost use Rattle.ps_graph.specs.Shown.{IsLinked, wires_of};
ghost use Rattle.ps_world.specs.Pipes.{is_input};
ghost use Rattle.ps_world.specs.World.{Pipe};
ghost use Rattle.world_pipes.specs.Shown.{AreKeysOf};

use keyed_slots::Key;
use ps_graph::graph::Graph;
use ps_graph::key::{GraphNodeKey, LogicalPipeKey};

/// One of some keys.
pub(crate) fn key_at(keys: &[LogicalPipeKey], place: usize) -> Option<LogicalPipeKey>
    ensures { result ≡ slice_get keys.now place }
{
    keys.get(place).copied()
}

/// The key of the pipe into an input of a node, if there is such an input.
pub(crate) fn input_key<N>(graph: &Graph<N>, node: u32, input: u32) -> Option<LogicalPipeKey>
    ensures key { IfSome result (λ key. (ps : List Pipe) → IsLinked graph.now → wires_of graph.now.pipes.slots ≡ map (λ (p : Pipe). p.wire) ps → AreKeysOf (is_input node input) (key ∷ []) ps) }
    ensures none { IfNone result ((ps : List Pipe) (p : Pipe) → IsLinked graph.now → wires_of graph.now.pipes.slots ≡ map (λ (p : Pipe). p.wire) ps → Contains ps p → is_input node input p ≡ false) }
{
    match graph.nodes.get(GraphNodeKey::from_number(node)) {
        Some(found) => key_at(found.inputs.as_slice(), input as usize),
        None => None,
    }
}

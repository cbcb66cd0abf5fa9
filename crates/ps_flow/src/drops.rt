//! How the inputs of nodes are dropped from which nobody wants anything any more.
ghost use Rattle.std.specs.Prelude.{◌≡◌, ◌<◌, ◌&&◌, ◌∷◌, [], ℕ, List, length, map, nat_eq};
ghost use Rattle.ps_flow.specs.Claiming.{IsKeyOf};
ghost use Rattle.ps_flow.specs.Drops.{cut_at, cut_below, is_cut, lost_inputs};
ghost use Rattle.ps_flow.specs.Handing.{HasOneOutput};
ghost use Rattle.ps_graph.specs.Shown.{IsLinked, wires_of};
ghost use Rattle.ps_world.specs.Pipes.{change_pipes, dropped_pipe, is_input};
ghost use Rattle.ps_world.specs.World.{Pipe};
ghost use Rattle.world_pipes.specs.Shown.{AreShown, Setting};

use crate::outputs::output_key;
use keyed_slots::Key;
use ps_graph::graph::Graph;
use ps_graph::key::{GraphNodeKey, LogicalPipeKey};
use world_pipes::Pipes;

/// Whether what leaves a node in the open phase is dropped.
pub fn is_cut_off<N>(graph: &Graph<N>, pipes: &Pipes, node: u32) -> bool
    ensures { (s : Setting) (ps : List Pipe) → AreShown s ps pipes.now → IsLinked graph.now → wires_of graph.now.pipes.slots ≡ map (λ (p : Pipe). p.wire) ps → HasOneOutput node ps → result ≡ is_cut node ps }
{
    match output_key(graph, node) {
        Some(key) => {
            if pipes.in_phase(key) {
                pipes.is_dropped(key)
            } else {
                false
            }
        }
        None => false,
    }
}

/// Drops the pipes of the open phase that lead to a node.
fn lose_inputs<N>(graph: &Graph<N>, pipes: &mut Pipes, node: u32)
    ensures { (s : Setting) (ps : List Pipe) → AreShown s ps pipes.old → IsLinked graph.now → wires_of graph.now.pipes.slots ≡ map (λ (p : Pipe). p.wire) ps → node < length graph.now.nodes.slots → AreShown s (lost_inputs node ps) pipes.new }
{
    if let Some(lost) = graph.nodes.get(GraphNodeKey::from_number(node)) {
        pipes.lose_in_phase(lost.inputs.as_slice());
    }
}

/// Drops the inputs of a node where what leaves it is dropped.
fn drop_node<N>(graph: &Graph<N>, pipes: &mut Pipes, node: u32)
    ensures { (s : Setting) (ps : List Pipe) → AreShown s ps pipes.old → IsLinked graph.now → wires_of graph.now.pipes.slots ≡ map (λ (p : Pipe). p.wire) ps → node < length graph.now.nodes.slots → HasOneOutput node ps → AreShown s (cut_at node ps) pipes.new }
{
    if is_cut_off(graph, pipes, node) {
        lose_inputs(graph, pipes, node);
    }
}

/// Drops the inputs of all nodes from which nobody wants anything any more, from the last node to the first.
fn drop_all<N>(graph: &Graph<N>, pipes: &mut Pipes)
    requires linked { IsLinked graph.now }
    ensures { (s : Setting) (ps : List Pipe) → AreShown s ps pipes.old → wires_of graph.now.pipes.slots ≡ map (λ (p : Pipe). p.wire) ps → ((n : ℕ) → HasOneOutput n ps) → AreShown s (cut_below (length graph.now.nodes.slots) ps) pipes.new }
{
    for node in (0..graph.nodes.inserts()).rev() {
        drop_node(graph, pipes, node as u32);
    }
}

/// Drops the pipe of a key, if there is one.
fn lose_at(pipes: &mut Pipes, key: Option<LogicalPipeKey>)
    ensures { (s : Setting) (ps : List Pipe) (n i : ℕ) → AreShown s ps pipes.old → IsKeyOf n i ps key → AreShown s (change_pipes (is_input n i) dropped_pipe ps) pipes.new }
{
    match key {
        Some(key) => pipes.lose(key),
        None => (),
    }
}

/// Drops the pipe of a key, if there is one, and with it all inputs of nodes from which nobody wants anything any more.
pub(crate) fn drop_input<N>(graph: &Graph<N>, pipes: &mut Pipes, key: Option<LogicalPipeKey>)
    requires linked { IsLinked graph.now }
    ensures { (s : Setting) (ps : List Pipe) (n i : ℕ) → AreShown s ps pipes.old → IsKeyOf n i ps key → wires_of graph.now.pipes.slots ≡ map (λ (p : Pipe). p.wire) ps → ((m : ℕ) → HasOneOutput m ps) → AreShown s (cut_below (length graph.now.nodes.slots) (change_pipes (is_input n i) dropped_pipe ps)) pipes.new }
{
    lose_at(pipes, key);
    drop_all(graph, pipes);
}

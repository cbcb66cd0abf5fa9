//! The world in which a run begins.
ghost use Rattle.std.specs.Prelude.{◌≡◌, ◌≤◌, ◌<◌, ℕ, Err, IfOk, IfSome, OnErr, Some, length, map};
ghost use Rattle.keyed_slots.specs.Slots.{value_at};
ghost use Rattle.ps_flow.specs.Openings.{AreBounds, AreStarted, IsBuiltOf, IsUnbounded, OneStarted, empty_pipe};
ghost use Rattle.ps_flow.specs.Standing.{Stands};
ghost use Rattle.ps_frame.specs.declared.refusal.PolarsError.{PolarsError};
ghost use Rattle.ps_graph.specs.Shown.{IsLinked, wires_of};
ghost use Rattle.ps_meaning.specs.Shape.{Shape};
ghost use Rattle.ps_world.specs.Opening.{opening};
ghost use Rattle.world_pipes.specs.Shown.{AreShown, Setting};

use crate::marks::Marks;
use crate::run_node::RunNode;
use crate::world::World;
use keyed_slots::{Key, SlotMap};
use ps_frame::refusal::PolarsResult;
use ps_graph::graph::{Graph, GraphNode};
use ps_graph::key::{GraphNodeKey, LogicalPipeKey};
use ps_options::options::Options;
use ps_outs::Outs;
use std::alloc::Global;
use world_pipes::Pipes;
use world_records::Journal;

/// Tells a node how its query is run.
fn start_one<N: RunNode>(
    nodes: &mut SlotMap<GraphNodeKey, GraphNode<N>>,
    key: GraphNodeKey,
    options: &Options,
)
    ensures { IfSome (value_at nodes.old.slots key.0) (λ x. OneStarted N.Has N.IsNew options.now key.0 x nodes.old.slots nodes.new.slots) }
{
    if let Some(node) = nodes.get_mut(key) {
        node.compute.run_by(options);
    }
}

/// Tells all nodes of a graph how their query is run.
fn start_all<N: RunNode>(graph: &mut Graph<N>, options: &Options)
    requires linked { IsLinked graph.old }
    ensures nodes { AreStarted N.Has N.IsNew options.now (length graph.old.nodes.slots) graph.old.nodes.slots graph.new.nodes.slots }
    ensures pipes { graph.new.pipes ≡ graph.old.pipes }
{
    for number in 0..graph.nodes.len() {
        let key = GraphNodeKey::from_number(number as u32);
        start_one(&mut graph.nodes, key, options);
    }
}

/// Whether the sender of a pipe gives its input to each of its readers, so that the pipe has no bound.
fn is_unbounded<N: RunNode>(graph: &Graph<N>, key: LogicalPipeKey) -> bool
    ensures { IsUnbounded N.Has graph.now key.0 result }
{
    let Some(pipe) = graph.pipes.get(key) else {
        return false;
    };
    match graph.nodes.get(pipe.sender) {
        Some(sender) => sender.compute.is_multiplexer(),
        None => false,
    }
}

/// Pipes for those of a graph, with room for so many morsels, that got nothing.
fn empty_pipes<N: RunNode>(alloc: Global, graph: &Graph<N>, room: usize) -> PolarsResult<Pipes>
    requires linked { IsLinked graph.now }
    requires room { 1 ≤ room }
    ensures shown { IfOk result (λ h. (s : Setting) → s.room ≡ room → AreBounds N.Has graph.now.nodes.slots s → AreShown s (map empty_pipe (wires_of graph.now.pipes.slots)) h) }
    ensures memory { OnErr result (result ≡ Err PolarsError.OutOfMemory) }
{
    let mut pipes = Pipes::new(alloc);
    for number in 0..graph.pipes.len() {
        let is_unbounded = is_unbounded(graph, LogicalPipeKey::from_number(number as u32));
        pipes.add(alloc, room, !is_unbounded)?;
    }
    Ok(pipes)
}

impl<N: RunNode> World<N> {
    /// The world in which a run begins: nothing is done, and every pipe is blocked on both ends.
    ///
    /// The graph has to be as it was put together of a shape. Fails only for want of memory.
    pub fn new(alloc: Global, graph: Graph<N>, options: &Options) -> PolarsResult<World<N>>
        requires linked { IsLinked graph }
        ensures opening { IfOk result (λ h. (shape : Shape) → IsBuiltOf N.IsNew shape graph → Stands N.Has (opening shape options.now) h) }
        ensures memory { OnErr result (result ≡ Err PolarsError.OutOfMemory) }
    {
        let mut graph = graph;
        start_all(&mut graph, options);
        let marks = Marks::new(alloc, graph.nodes.len())?;
        let pipes = empty_pipes(alloc, &graph, options.workers() + 4)?;
        let outs = Outs::new(alloc, options.workers())?;
        let journal = Journal::new(alloc);
        Ok(World {
            graph,
            marks,
            pipes,
            outs,
            options: *options,
            phase: 0,
            is_open: false,
            journal,
            is_finished: false,
            fault: None,
        })
    }
}

//! Graphs: nodes, the pipes between them, and how they are put together.
ghost use Rattle.std.specs.Prelude.{◌≡◌, [], IfErr, IfOk, IsTrue, length};
ghost use Rattle.ps_frame.specs.declared.refusal.PolarsError.{PolarsError};
ghost use Rattle.ps_graph.specs.Shown.{IsLinked, are_there};

use crate::key::{GraphNodeKey, LogicalPipeKey};
use keyed_slots::SlotMap;
use ps_frame::refusal::PolarsResult;
use ps_ports::port_state::PortState;
use pu_base::Node;
use std::alloc::Global;

/// A node with the pipes that it reads, in the order of its inputs, and those that it writes.
#[derive(Drop)]
pub struct GraphNode<N> {
    pub compute: N,
    /// The logical node that it comes from.
    pub origin: Node,
    pub inputs: Vec<LogicalPipeKey>,
    pub outputs: Vec<LogicalPipeKey>,
}

/// A pipe from a port of one node to an input of another, and what both say of it.
#[derive(Clone, Copy, Debug)]
pub struct LogicalPipe {
    pub sender: GraphNodeKey,
    pub send_port: usize,
    pub send_state: PortState,
    pub receiver: GraphNodeKey,
    pub recv_port: usize,
    pub recv_state: PortState,
}

/// Nodes and the pipes between them.
#[derive(Drop)]
pub struct Graph<N> {
    pub nodes: SlotMap<GraphNodeKey, GraphNode<N>>,
    pub pipes: SlotMap<LogicalPipeKey, LogicalPipe>,
}

impl<N: Drop> Graph<N> {
    /// A graph without nodes, with room for `capacity` of them and as many pipes. It fails only for want of memory.
    pub fn with_capacity(alloc: Global, capacity: usize) -> PolarsResult<Graph<N>>
        ensures nodes { IfOk result (λ g. g.nodes.slots ≡ []) }
        ensures pipes { IfOk result (λ g. g.pipes.slots ≡ []) }
        ensures linked { IfOk result IsLinked }
        ensures memory { IfErr result (λ e. e ≡ PolarsError.OutOfMemory) }
    {
        Ok(Graph {
            nodes: SlotMap::with_capacity_and_key(alloc, capacity)?,
            pipes: SlotMap::with_capacity_and_key(alloc, capacity)?,
        })
    }

    /// How many nodes there are.
    pub fn count(&self) -> usize
        requires there { IsTrue (are_there self.now.nodes.slots) }
        ensures { result ≡ length self.now.nodes.slots }
    {
        self.nodes.len()
    }
}

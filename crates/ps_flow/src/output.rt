//! The answer of a run.
ghost use Rattle.std.specs.Prelude.{◌≡◌, ◌+◌, ◌≤◌, ℕ, Err, IfOk, IfSome, OnErr, Some};
ghost use Rattle.keyed_slots.specs.Slots.{value_at};
ghost use Rattle.ps_flow.specs.Openings.{IsSink, table_of};
ghost use Rattle.ps_flow.specs.Standing.{Stands, answer_kept};
ghost use Rattle.ps_frame.specs.declared.refusal.PolarsError.{PolarsError};
ghost use Rattle.ps_options.specs.declared.options.Options.{Options};
ghost use Rattle.ps_world.specs.World.{Node, World as RunWorld};
ghost use Rattle.turn_laws.specs.Updating.{SeenNode};

use crate::run_node::RunNode;
use crate::world::World;
use keyed_slots::{Key, SlotMap};
use ps_frame::frame::DataFrame;
use ps_frame::refusal::PolarsResult;
use ps_graph::graph::GraphNode;
use ps_graph::key::GraphNodeKey;
use std::alloc::Global;

/// Gives the table of a node, if it is a sink. The nodes behind it are left.
fn table_at<N: RunNode>(
    nodes: &mut SlotMap<GraphNodeKey, GraphNode<N>>,
    alloc: Global,
    key: GraphNodeKey,
) -> PolarsResult<Option<DataFrame>>
    ensures table { IfSome (value_at nodes.old.slots key.0) (λ node. IfOk result (λ table. (o : Options) (x : SeenNode) → N.Has o node.compute x → table ≡ answer_kept x)) }
    ensures others { (k : ℕ) → key.0 + 1 ≤ k → value_at nodes.new.slots k ≡ value_at nodes.old.slots k }
    ensures memory { OnErr result (result ≡ Err PolarsError.OutOfMemory) }
{
    match nodes.get_mut(key) {
        Some(node) => node.compute.give_table(alloc),
        None => Ok(None),
    }
}

impl<N: RunNode> World<N> {
    /// Gives the table in the sink: the rows of the morsels that it stored, in number order. After that the world may only
    /// be asked for its records.
    ///
    /// There has to be one sink. Fails only for want of memory.
    pub fn output(&mut self, alloc: Global) -> PolarsResult<DataFrame>
        requires sink { (w : RunWorld) × (n : ℕ) × (x : Node) × Stands N.Has w self.old × IsSink w n x }
        ensures table { IfOk result (λ table. (w : RunWorld) (n : ℕ) (x : Node) → Stands N.Has w self.old → IsSink w n x → table ≡ table_of x) }
        ensures memory { OnErr result (result ≡ Err PolarsError.OutOfMemory) }
    {
        for number in 0..self.graph.nodes.len() {
            let key = GraphNodeKey::from_number(number as u32);
            let found = table_at(&mut self.graph.nodes, alloc, key)?;
            if let Some(table) = found {
                return Ok(table);
            }
        }
        unreachable!()
    }
}

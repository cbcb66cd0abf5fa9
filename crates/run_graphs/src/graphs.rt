//! The graph of a run.
ghost use Rattle.std.specs.Prelude.{◌≡◌, ◌+◌, ◌-◌, ◌<◌, ◌≤◌, ◌^◌, [], ℕ, Err, IfOk, IfSome, IsSome, IsTrue, OnErr, OnOk, length, slice_get};
ghost use Rattle.keyed_slots.specs.Slots.{value_at};
ghost use Rattle.flow_runs.specs.Running.{IsNewNode};
ghost use Rattle.plan_graphs.specs.Wiring.{IsBuiltOf as IsPutTogetherOf};
ghost use Rattle.ps_flow.specs.Claiming.{streams};
ghost use Rattle.ps_flow.specs.Openings.{IsBuiltOf};
ghost use Rattle.ps_frame.specs.declared.refusal.PolarsError.{PolarsError};
ghost use Rattle.ps_graph.specs.Shown.{IsLinked, are_there};
ghost use Rattle.ps_meaning.specs.Shape.{Shape};
ghost use Rattle.ps_nodes.specs.Seen.{kind_of};
ghost use Rattle.run_graphs.specs.Runs.{AllStreamIn, AreRunning, HaveFitInputs, IsNextIn, RunsAs, schemas_of};

use flow_runs::RunningNode;
use keyed_slots::{Key, SlotMap};
use ps_frame::refusal::{PolarsError, PolarsResult};
use ps_frame::schema::Schema;
use ps_graph::graph::{Graph, GraphNode};
use ps_graph::key::GraphNodeKey;
use ps_nodes::flow::FlowNode;
use std::alloc::Global;

/// A node of a graph as one of a run: with its pipes, and with what it does with morsels.
fn running(
    alloc: Global,
    node: GraphNode<FlowNode>,
    schema: &Schema,
) -> PolarsResult<GraphNode<RunningNode>>
    requires streams { IsTrue (streams (kind_of node.compute)) }
    ensures runs { IfOk result (RunsAs node schema.now) }
    ensures memory { OnErr result (result ≡ Err PolarsError.OutOfMemory) }
{
    let Ok(schema) = schema.try_clone(alloc) else {
        return Err(PolarsError::OutOfMemory);
    };
    let GraphNode {
        compute,
        origin,
        inputs,
        outputs,
    } = node;
    match RunningNode::new(alloc, compute, schema, origin) {
        Ok(compute) => Ok(GraphNode {
            compute,
            origin,
            inputs,
            outputs,
        }),
        Err(error) => Err(error),
    }
}

/// The next node of a graph becomes the next one of a run.
fn add_next(
    alloc: Global,
    nodes: &mut SlotMap<GraphNodeKey, GraphNode<FlowNode>>,
    schemas: &[Schema],
    place: usize,
    made: &mut SlotMap<GraphNodeKey, GraphNode<RunningNode>>,
) -> PolarsResult<()>
    requires place { place < length schemas.now }
    requires few { length made.old.slots < 2 ^ 32 - 1 }
    requires fits { place < 2 ^ 32 }
    requires streams { IfSome (value_at nodes.old.slots place) (λ node. IsTrue (streams (kind_of node.compute))) }
    requires there { IsSome (value_at nodes.old.slots place) }
    ensures next { OnOk result (IsNextIn (value_at nodes.old.slots place) (slice_get schemas.now place) made.old.slots made.new.slots) }
    ensures others { (k : ℕ) → place + 1 ≤ k → value_at nodes.new.slots k ≡ value_at nodes.old.slots k }
    ensures memory { OnErr result (result ≡ Err PolarsError.OutOfMemory) }
{
    let key = GraphNodeKey::from_number(place as u32);
    let Some(node) = nodes.remove(key) else {
        unreachable!();
    };
    match running(alloc, node, &schemas[place]) {
        Ok(node) => match made.insert(node) {
            Ok(_key) => Ok(()),
            Err(_error) => Err(PolarsError::OutOfMemory),
        },
        Err(error) => Err(error),
    }
}

/// All nodes of a graph become those of a run.
fn add_all(
    alloc: Global,
    nodes: &mut SlotMap<GraphNodeKey, GraphNode<FlowNode>>,
    schemas: &[Schema],
    made: &mut SlotMap<GraphNodeKey, GraphNode<RunningNode>>,
) -> PolarsResult<()>
    requires there { IsTrue (are_there nodes.old.slots) }
    requires few { length nodes.old.slots < 2 ^ 32 }
    requires streams { AllStreamIn nodes.old.slots }
    requires schemas { length schemas.now ≡ length nodes.old.slots }
    requires none { made.old.slots ≡ [] }
    ensures all { OnOk result (AreRunning (length schemas.now) nodes.old.slots schemas.now made.new.slots) }
    ensures memory { OnErr result (result ≡ Err PolarsError.OutOfMemory) }
{
    for place in 0..schemas.len() {
        add_next(alloc, nodes, schemas, place, made)?;
    }
    Ok(())
}

/// The graph of a run: that of these nodes, each with what it does with morsels, and with the same pipes. The schemas are
/// those of the nodes' tables, in the order of the graph, and all nodes have to stream.
///
/// Fails only for want of memory.
pub fn running_graph(
    alloc: Global,
    graph: Graph<FlowNode>,
    schemas: &[Schema],
) -> PolarsResult<Graph<RunningNode>>
    requires linked { IsLinked graph }
    requires streams { AllStreamIn graph.nodes.slots }
    requires schemas { length schemas.now ≡ length graph.nodes.slots }
    ensures linked { IfOk result IsLinked }
    ensures built { IfOk result (λ g. (shape : Shape) → IsPutTogetherOf shape graph → schemas_of shape ≡ schemas.now → HaveFitInputs shape → IsBuiltOf IsNewNode shape g) }
    ensures memory { OnErr result (result ≡ Err PolarsError.OutOfMemory) }
{
    let Graph { mut nodes, pipes } = graph;
    let Ok(mut made) = SlotMap::with_capacity_and_key(alloc, schemas.len()) else {
        return Err(PolarsError::OutOfMemory);
    };
    match add_all(alloc, &mut nodes, schemas, &mut made) {
        Ok(()) => Ok(Graph { nodes: made, pipes }),
        Err(error) => Err(error),
    }
}

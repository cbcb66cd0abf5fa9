//! Whether the nodes of a graph are such as a run is driven over: all stream, and one is a sink.
ghost use Rattle.std.specs.Prelude.{◌≡◌, ◌↔◌, IfSome, IsSome, IsTrue};
ghost use Rattle.flow_run_trials.specs.Ready.{IsOneSink, IsSink, Streams};
ghost use Rattle.keyed_slots.specs.Slots.{value_at};
ghost use Rattle.ps_flow.specs.Claiming.{streams};
ghost use Rattle.ps_graph.specs.Shown.{IsLinked};
ghost use Rattle.ps_meaning.specs.Shape.{in_memory_sink};
ghost use Rattle.ps_nodes.specs.Seen.{kind_of};
ghost use Rattle.run_graphs.specs.Runs.{AllStreamIn};

use keyed_slots::{Key, SlotMap};
use ps_graph::graph::{Graph, GraphNode};
use ps_graph::key::GraphNodeKey;
use ps_nodes::flow::FlowNode;

/// Whether a node streams.
fn does_stream(flow: &FlowNode) -> bool
    ensures { IsTrue result → IsTrue (streams (kind_of flow.now)) }
{
    match flow {
        FlowNode::Filter(_) => true,
        FlowNode::Select(_) => true,
        FlowNode::InputIndependentSelect(_) => true,
        FlowNode::SimpleProjection(_) => true,
        FlowNode::WithRowIndex(_) => true,
        FlowNode::Map(_) => true,
        FlowNode::StreamingSlice(_) => true,
        FlowNode::InMemorySource(_) => true,
        FlowNode::OrderedUnion(_) => true,
        FlowNode::InMemorySink(_) => true,
        _ => false,
    }
}

/// Whether a node is a sink.
fn is_sink(flow: &FlowNode) -> bool
    ensures { IsTrue result ↔ (kind_of flow.now ≡ in_memory_sink) }
{
    match flow {
        FlowNode::InMemorySink(_) => true,
        FlowNode::Filter(_) => false,
        FlowNode::Select(_) => false,
        FlowNode::InputIndependentSelect(_) => false,
        FlowNode::SimpleProjection(_) => false,
        FlowNode::WithRowIndex(_) => false,
        FlowNode::Map(_) => false,
        FlowNode::StreamingSlice(_) => false,
        FlowNode::InMemorySource(_) => false,
        FlowNode::OrderedUnion(_) => false,
        FlowNode::NegativeSlice(_) => false,
        FlowNode::Multiplexer(_) => false,
        FlowNode::Zip(_) => false,
        FlowNode::Reduce(_) => false,
        FlowNode::GroupBy(_) => false,
        FlowNode::InMemoryMap(_) => false,
        FlowNode::InMemoryJoin(_) => false,
        FlowNode::EquiJoin(_) => false,
    }
}

/// Whether the node of a key streams, if there is one.
fn streams_at(nodes: &SlotMap<GraphNodeKey, GraphNode<FlowNode>>, key: GraphNodeKey) -> bool
    ensures { IsTrue result → IfSome (value_at nodes.now.slots key.0) Streams }
{
    match nodes.get(key) {
        Some(node) => does_stream(&node.compute),
        None => true,
    }
}

/// Whether the node of a key is a sink, if there is one.
fn is_sink_at(nodes: &SlotMap<GraphNodeKey, GraphNode<FlowNode>>, key: GraphNodeKey) -> bool
    ensures there { IsTrue result → IsSome (value_at nodes.now.slots key.0) }
    ensures kind { IfSome (value_at nodes.now.slots key.0) (λ a. IsTrue result ↔ IsSink a) }
{
    match nodes.get(key) {
        Some(node) => is_sink(&node.compute),
        None => false,
    }
}

/// Whether each node of a graph streams.
pub fn all_stream(graph: &Graph<FlowNode>) -> bool
    requires { IsLinked graph.now }
    ensures { IsTrue result → AllStreamIn graph.now.nodes.slots }
{
    for number in 0..graph.nodes.inserts() {
        if !streams_at(&graph.nodes, GraphNodeKey::from_number(number as u32)) {
            return false;
        }
    }
    true
}

/// The place of the sink of a graph, if there is one and no other.
pub fn one_sink(graph: &Graph<FlowNode>) -> Option<u32>
    requires { IsLinked graph.now }
    ensures { IfSome result (IsOneSink graph.now.nodes.slots) }
{
    let mut found = None;
    for number in 0..graph.nodes.inserts() {
        let place = number as u32;
        if is_sink_at(&graph.nodes, GraphNodeKey::from_number(place)) {
            if found.is_some() {
                return None;
            }
            found = Some(place);
        }
    }
    found
}

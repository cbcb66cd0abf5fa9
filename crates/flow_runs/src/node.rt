//! The nodes of a run.
ghost use Rattle.std.specs.Prelude.{◌≡◌, Err, IfOk, IsTrue, List, OnErr, length};
ghost use Rattle.flow_runs.specs.Running.{IsNewNode};
ghost use Rattle.node_work.specs.Working.{IsNewWork};
ghost use Rattle.ps_flow.specs.Claiming.{streams};
ghost use Rattle.ps_frame.specs.Tables.{Fields};
ghost use Rattle.ps_frame.specs.declared.refusal.PolarsError.{PolarsError};
ghost use Rattle.ps_meaning.specs.Shape.{PhysicalNode};
ghost use Rattle.ps_meaning.specs.Sound.{HasInputs};
ghost use Rattle.ps_nodes.specs.Seen.{IsNew, kind_of};

use node_work::operations;
use node_work::work::Work;
use ps_frame::refusal::PolarsResult;
use ps_frame::schema::Schema;
use ps_nodes::flow::FlowNode;
use pu_base::Node;
use std::alloc::Global;

/// A node of a graph, with what it does with morsels in a run.
#[derive(Drop)]
pub struct RunningNode {
    pub(crate) flow: FlowNode,
    pub(crate) work: Work,
}

/// What a new node of a graph does with morsels, whose table has this schema and whose faults are told of this logical node.
fn work_of(alloc: Global, flow: &FlowNode, schema: Schema, origin: Node) -> PolarsResult<Work>
    requires streams { IsTrue (streams (kind_of flow.now)) }
    ensures work { IfOk result (IsNewWork (kind_of flow.now) schema origin.0) }
    ensures memory { OnErr result (result ≡ Err PolarsError.OutOfMemory) }
{
    match flow {
        FlowNode::InMemorySource(_) => Ok(Work::HandsOn),
        FlowNode::StreamingSlice(_) => Ok(Work::HandsOn),
        FlowNode::OrderedUnion(_) => Ok(Work::Unites { sent: 0 }),
        FlowNode::InMemorySink(_) => Ok(operations::sink(alloc, schema, origin)),
        FlowNode::Select(node) => operations::select(alloc, node, schema, origin),
        FlowNode::InputIndependentSelect(node) => {
            operations::independent_select(alloc, node, schema, origin)
        }
        FlowNode::Filter(node) => operations::filter(alloc, node, schema, origin),
        FlowNode::SimpleProjection(node) => operations::projection(alloc, node, schema, origin),
        FlowNode::WithRowIndex(node) => operations::row_index(alloc, node, schema, origin),
        FlowNode::Map(node) => operations::map(alloc, node, schema, origin),
        FlowNode::NegativeSlice(_)
        | FlowNode::Multiplexer(_)
        | FlowNode::Zip(_)
        | FlowNode::Reduce(_)
        | FlowNode::GroupBy(_)
        | FlowNode::InMemoryMap(_)
        | FlowNode::InMemoryJoin(_)
        | FlowNode::EquiJoin(_) => unreachable!(),
    }
}

impl RunningNode {
    /// The node of a run that a new node of a graph becomes, whose table has this schema and whose faults are told of this
    /// logical node. It has to be one that streams: a source, a select, a projection, a filter, a map of a streamable function,
    /// a row index, a slice, a union or a sink.
    ///
    /// Fails only for want of memory.
    pub fn new(
        alloc: Global,
        flow: FlowNode,
        schema: Schema,
        origin: Node,
    ) -> PolarsResult<RunningNode>
        requires streams { IsTrue (streams (kind_of flow)) }
        ensures new { IfOk result (λ n. (p : PhysicalNode) (ss : List Fields) → IsNew p.kind flow → p.schema ≡ schema → p.origin ≡ origin.0 → HasInputs p.kind (length p.inputs) → IsNewNode n p ss) }
        ensures memory { OnErr result (result ≡ Err PolarsError.OutOfMemory) }
    {
        match work_of(alloc, &flow, schema, origin) {
            Ok(work) => Ok(RunningNode { flow, work }),
            Err(error) => Err(error),
        }
    }
}

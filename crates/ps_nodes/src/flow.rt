//! The nodes of a graph that runs a query.
ghost use Rattle.std.specs.Prelude.{◌≡◌, IsTrue, length};
ghost use Rattle.node_states.specs.Views.{sides_of};
ghost use Rattle.node_states.specs.States.{is_passing};
ghost use Rattle.ps_turns.specs.Progress.{is_intensive};
ghost use Rattle.ps_nodes.specs.FlowLaws.{flow_laws};
ghost use Rattle.ps_nodes.specs.Seen.{Faults as FaultsOf, HasPorts as HasPortsOf, Updates, kind_of, progress_of, seen};
ghost use Rattle.ps_nodes.specs.Told.{IsToldOf, answer_kept, without_answer, word_of};
ghost use Rattle.turn_laws.specs.Updating.{stages_behind as stages_seen};

use crate::in_memory_join::InMemoryJoinNode;
use crate::in_memory_map::InMemoryMapNode;
use node_states::passing;
use node_states::stage::Stage;
use plain_nodes::equi_join::EquiJoinNode;
use plain_nodes::filter::FilterNode;
use plain_nodes::group_by::GroupByNode;
use plain_nodes::independent_select::InputIndependentSelectNode;
use plain_nodes::map::MapNode;
use plain_nodes::multiplexer::MultiplexerNode;
use plain_nodes::negative_slice::NegativeSliceNode;
use plain_nodes::ordered_union::OrderedUnionNode;
use plain_nodes::projection::SimpleProjectionNode;
use plain_nodes::reduce::ReduceNode;
use plain_nodes::row_index::WithRowIndexNode;
use plain_nodes::select::SelectNode;
use plain_nodes::sink::InMemorySinkNode;
use plain_nodes::slice::StreamingSliceNode;
use plain_nodes::source::InMemorySourceNode;
use plain_nodes::zip::ZipNode;
use ps_frame::frame::DataFrame;
use ps_frame::refusal::{PolarsError, PolarsResult};
use ps_graph::compute_node::ComputeNode;
use ps_ports::port_state::PortState;
use std::alloc::Global;

/// A node of a running query.
#[derive(Drop)]
pub enum FlowNode {
    Filter(FilterNode),
    Select(SelectNode),
    InputIndependentSelect(InputIndependentSelectNode),
    SimpleProjection(SimpleProjectionNode),
    WithRowIndex(WithRowIndexNode),
    Map(MapNode),
    StreamingSlice(StreamingSliceNode),
    NegativeSlice(NegativeSliceNode),
    InMemorySource(InMemorySourceNode),
    OrderedUnion(OrderedUnionNode),
    Multiplexer(MultiplexerNode),
    InMemorySink(InMemorySinkNode),
    Zip(ZipNode),
    Reduce(ReduceNode),
    GroupBy(GroupByNode),
    InMemoryMap(InMemoryMapNode),
    InMemoryJoin(InMemoryJoinNode),
    EquiJoin(EquiJoinNode),
}

/// A node that gives each morsel on as it comes passes.
fn pass(_node: &FlowNode, recv: &mut [PortState], send: &mut [PortState])
    requires passing { IsTrue (is_passing (kind_of _node.now)) }
    requires input { length recv.old ≡ 1 }
    requires output { length send.old ≡ 1 }
    ensures { Updates _node.now (sides_of recv.old send.old) _node.now (sides_of recv.new send.new) }
{
    passing::answer(recv, send);
}

impl ComputeNode for FlowNode {
    ghost HasPorts = { HasPortsOf };

    ghost stages = { λ n. stages_seen (seen n) };

    ghost Update = { Updates };

    ghost Faults = { FaultsOf };

    ghost intensive = { λ n. is_intensive (kind_of n) (progress_of n).stage };

    ghost word = { word_of };

    ghost Initializes = { IsToldOf };

    ghost answer = { answer_kept };

    ghost emptied = { without_answer };

    fn name(&self) -> &str {
        match self {
            FlowNode::Filter(_) => "filter",
            FlowNode::Select(_) => "select",
            FlowNode::InputIndependentSelect(_) => "input_independent_select",
            FlowNode::SimpleProjection(_) => "simple_projection",
            FlowNode::WithRowIndex(_) => "with_row_index",
            FlowNode::Map(_) => "map",
            FlowNode::StreamingSlice(_) => "streaming_slice",
            FlowNode::NegativeSlice(_) => "negative_slice",
            FlowNode::InMemorySource(_) => "in_memory_source",
            FlowNode::OrderedUnion(_) => "ordered_union",
            FlowNode::Multiplexer(_) => "multiplexer",
            FlowNode::InMemorySink(_) => "in_memory_sink",
            FlowNode::Zip(_) => "zip",
            FlowNode::Reduce(_) => "reduce",
            FlowNode::GroupBy(_) => "group_by",
            FlowNode::InMemoryMap(_) => "in_memory_map",
            FlowNode::InMemoryJoin(_) => "in_memory_join",
            FlowNode::EquiJoin(_) => "equi_join",
        }
    }

    fn initialize(&mut self, num_pipelines: usize) {
        match self {
            FlowNode::InMemorySource(node) => node.cut_for(num_pipelines),
            FlowNode::NegativeSlice(node) => node.cut_for(num_pipelines),
            FlowNode::InMemoryMap(node) => node.cut_for(num_pipelines),
            FlowNode::InMemoryJoin(node) => node.cut_for(num_pipelines),
            _ => (),
        }
    }

    #[tactic(auto, using(plain_nodes::proofs::Turning::same_count))]
    fn stages_behind(&self) -> usize {
        match self {
            FlowNode::NegativeSlice(node) => node.stage().behind(),
            FlowNode::Reduce(node) => node.stage().behind(),
            FlowNode::GroupBy(node) => node.stage().behind(),
            FlowNode::InMemoryMap(node) => node.stage.behind(),
            FlowNode::InMemoryJoin(node) => node.stage.behind(),
            FlowNode::EquiJoin(node) => node.stage().behind(),
            _ => 0,
        }
    }

    fn update_state(
        &mut self,
        alloc: Global,
        recv: &mut [PortState],
        send: &mut [PortState],
    ) -> PolarsResult<()> {
        match self {
            FlowNode::InputIndependentSelect(node) => {
                node.update(send);
                Ok(())
            }
            FlowNode::StreamingSlice(node) => {
                node.update(recv, send);
                Ok(())
            }
            FlowNode::NegativeSlice(node) => node.update(alloc, recv, send),
            FlowNode::InMemorySource(node) => {
                node.update(send);
                Ok(())
            }
            FlowNode::OrderedUnion(node) => {
                node.update(recv, send);
                Ok(())
            }
            FlowNode::Multiplexer(node) => {
                node.update(recv, send);
                Ok(())
            }
            FlowNode::InMemorySink(node) => {
                node.update(recv);
                Ok(())
            }
            FlowNode::Zip(node) => node.update(recv, send),
            FlowNode::Reduce(node) => {
                node.update(recv, send);
                Ok(())
            }
            FlowNode::GroupBy(node) => {
                node.update(recv, send);
                Ok(())
            }
            FlowNode::InMemoryMap(node) => node.update(alloc, recv, send),
            FlowNode::InMemoryJoin(node) => node.update(alloc, recv, send),
            FlowNode::EquiJoin(node) => {
                node.update(recv, send);
                Ok(())
            }
            FlowNode::Filter(_)
            | FlowNode::Select(_)
            | FlowNode::SimpleProjection(_)
            | FlowNode::WithRowIndex(_)
            | FlowNode::Map(_) => {
                pass(self, recv, send);
                Ok(())
            }
        }
    }

    fn is_memory_intensive_pipeline_blocker(&self) -> bool {
        match self {
            FlowNode::InMemorySink(_) => true,
            FlowNode::NegativeSlice(node) => node.stage() == Stage::Taking,
            FlowNode::GroupBy(node) => node.stage() == Stage::Taking,
            FlowNode::InMemoryMap(node) => node.stage == Stage::Taking,
            FlowNode::InMemoryJoin(node) => node.stage == Stage::Taking,
            FlowNode::EquiJoin(node) => node.stage() == Stage::Taking,
            _ => false,
        }
    }

    fn get_output(&mut self, alloc: Global) -> PolarsResult<Option<DataFrame>> {
        match self {
            // No `?`: the error of a table is another, and here it stands for want of memory alone.
            FlowNode::InMemorySink(node) => match node.output(alloc) {
                Ok(table) => Ok(Some(table)),
                Err(_) => Err(PolarsError::OutOfMemory),
            },
            _ => Ok(None),
        }
    }

    ghost laws = { flow_laws };

    ghost ports_stay = { λ a b given answer inputs outputs u p. u.ports inputs outputs p };
}

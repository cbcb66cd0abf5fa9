//! Which moves the nodes of a run may make: a sink pulls, and what has no input gives rows of its own.
use crate::node::RunningNode;
use flow_moves::MoveNode;
use node_work::tasks;
use node_work::work::Work;
use ps_nodes::flow::FlowNode;

impl MoveNode for RunningNode {
    fn pulls(&self) -> bool {
        matches!(self.work, Work::Stores(_))
    }

    fn claims_own(&self) -> bool {
        match &self.flow {
            FlowNode::InMemorySource(source) => !tasks::is_spent(source),
            FlowNode::InputIndependentSelect(select) => select.sent() == 0,
            _ => false,
        }
    }
}

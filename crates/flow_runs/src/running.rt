//! Nodes of a run as a world has them.
ghost use Rattle.flow_runs.specs.Laws.{finds, has_ports, keeps, rests, updates};
ghost use Rattle.flow_runs.specs.Running.{Has as IsIn, IsNewNode};

use crate::node::RunningNode;
use ps_flow::RunNode;
use ps_frame::frame::DataFrame;
use ps_frame::refusal::PolarsResult;
use ps_nodes::flow::FlowNode;
use ps_options::options::Options;
use std::alloc::Global;

impl RunNode for RunningNode {
    ghost Has = { IsIn };

    ghost IsNew = { IsNewNode };

    fn run_by(&mut self, options: &Options) {
        match &mut self.flow {
            FlowNode::InMemorySource(source) => source.cut_by(*options),
            _ => (),
        }
    }

    fn is_multiplexer(&self) -> bool {
        // None of the nodes that stream is one.
        false
    }

    fn give_table(&mut self, alloc: Global) -> PolarsResult<Option<DataFrame>> {
        self.work.give_table(alloc)
    }

    ghost updates = { updates };

    ghost rests = { rests };

    ghost finds = { finds };

    ghost keeps = { keeps };

    ghost has_ports = { has_ports };
}

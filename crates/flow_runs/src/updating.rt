//! Nodes of a run as nodes of a graph.
ghost use Rattle.flow_runs.specs.Laws.{node_laws};
ghost use Rattle.flow_runs.specs.Updating.{IsToldIn, UpdatesNode, rows_stored, stages_of, without_rows};
ghost use Rattle.ps_nodes.specs.Seen.{Faults as FaultsOf, HasPorts as HasPortsOf, kind_of, progress_of};
ghost use Rattle.ps_nodes.specs.Told.{word_of};
ghost use Rattle.ps_turns.specs.Progress.{is_intensive};

use crate::node::RunningNode;
use ps_frame::frame::DataFrame;
use ps_frame::refusal::PolarsResult;
use ps_graph::compute_node::ComputeNode;
use ps_ports::port_state::PortState;
use std::alloc::Global;

impl ComputeNode for RunningNode {
    ghost HasPorts = { λ n inputs outputs. HasPortsOf n.flow inputs outputs };

    ghost stages = { stages_of };

    ghost Update = { UpdatesNode };

    ghost Faults = { λ n given e. FaultsOf n.flow given e };

    ghost intensive = { λ n. is_intensive (kind_of n.flow) (progress_of n.flow).stage };

    ghost word = { λ n. word_of n.flow };

    ghost Initializes = { IsToldIn };

    ghost answer = { rows_stored };

    ghost emptied = { without_rows };

    fn name(&self) -> &str {
        self.flow.name()
    }

    fn initialize(&mut self, num_pipelines: usize) {
        self.flow.initialize(num_pipelines);
    }

    fn stages_behind(&self) -> usize {
        self.flow.stages_behind()
    }

    fn update_state(
        &mut self,
        alloc: Global,
        recv: &mut [PortState],
        send: &mut [PortState],
    ) -> PolarsResult<()> {
        self.flow.update_state(alloc, recv, send)
    }

    fn is_memory_intensive_pipeline_blocker(&self) -> bool {
        self.flow.is_memory_intensive_pipeline_blocker()
    }

    fn get_output(&mut self, alloc: Global) -> PolarsResult<Option<DataFrame>> {
        self.work.give_table(alloc)
    }

    ghost laws = { node_laws };

    ghost ports_stay = { λ a b given answer inputs outputs u p. u.update.ports inputs outputs p };
}

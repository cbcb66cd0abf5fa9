//! Graphs that lack nothing.
ghost use Rattle.ps_graph.specs.Complete.{IsComplete};
ghost use Rattle.ps_graph.specs.Shown.{CanRun, IsLinked, standing_of};

use crate::compute_node::ComputeNode;
use crate::graph::Graph;

impl<N: ComputeNode> Graph<N> {
    /// A law, for a caller that put a graph together: once each port has its one reader, and each node as many inputs and
    /// readers as it asks for, the graph may run. In which order the readers were added is free.
    pub fn complete_graphs_run(&self)
        requires linked { IsLinked self.now }
        requires complete { IsComplete N.HasPorts (standing_of self.now) }
        ensures { CanRun N.HasPorts self.now }
    {}
}

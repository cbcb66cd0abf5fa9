//! The parts of a world, to be looked at.
ghost use Rattle.std.specs.Prelude.{◌≡◌, is_some};

use crate::marks::Marks;
use crate::world::World;
use ps_graph::graph::Graph;
use ps_options::options::Options;
use ps_outs::Outs;
use world_pipes::Pipes;

impl<N> World<N> {
    /// The graph, with what its nodes have behind them.
    pub fn graph(&self) -> &Graph<N>
        ensures { result.now ≡ self.now.graph }
    {
        &self.graph
    }

    /// Which nodes are in the open phase, and which of these are closed.
    pub fn marks(&self) -> &Marks
        ensures { result.now ≡ self.now.marks }
    {
        &self.marks
    }

    /// What is in the pipes.
    pub fn pipes(&self) -> &Pipes
        ensures { result.now ≡ self.now.pipes }
    {
        &self.pipes
    }

    /// Which workers have a piece out.
    pub fn outs(&self) -> &Outs
        ensures { result.now ≡ self.now.outs }
    {
        &self.outs
    }

    /// How many workers there are.
    pub fn workers(&self) -> usize
        ensures { result ≡ self.now.options.workers }
    {
        self.options.workers()
    }

    /// Whether there is a fault, or a want of memory is marked.
    pub fn has_fault(&self) -> bool
        ensures { result ≡ is_some self.now.fault }
    {
        self.fault.is_some()
    }

    /// Whether a phase is open.
    pub fn is_open(&self) -> bool
        ensures { result ≡ self.now.is_open }
    {
        self.is_open
    }
}

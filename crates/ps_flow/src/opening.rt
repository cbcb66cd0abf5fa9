//! How a phase opens.
ghost use Rattle.std.specs.Prelude.{◌≡◌, ◌≢◌, ◌+◌, ◌≤◌, ◌<◌, Err, IfErr, IsFalse, IsSome, OnErr, OnOk};
ghost use Rattle.ps_flow.specs.Openings.{HasOpened, IsBegun, IsBrokenAs, IsFinishedAs, IsMarkedAs, IsPlain, IsWhole, Tells};
ghost use Rattle.ps_flow.specs.Standing.{Stands};
ghost use Rattle.ps_frame.specs.Functions.{Functions};
ghost use Rattle.ps_frame.specs.declared.refusal.PolarsError.{PolarsError};
ghost use Rattle.ps_graph.specs.Running.{node_numbers};
ghost use Rattle.ps_graph.specs.Shown.{CanRun, IsLinked, numbers, standing_of};
ghost use Rattle.ps_graph.specs.Turning.{MayFail, origins_of};
ghost use Rattle.ps_settle.specs.Standings.{IsSettled, Updates};
ghost use Rattle.ps_world.specs.Step.{Steps as StepsTo};
ghost use Rattle.ps_world.specs.World.{World as RunWorld, opened, running};

use crate::run_node::RunNode;
use crate::world::World;
use ps_frame::refusal::{PolarsError, PolarsResult};
use ps_graph::graph::Graph;
use ps_graph::key::{GraphNodeKey, LogicalPipeKey};
use pu_base::Steps;
use std::alloc::Global;
use std::marker::Brand;
use std::sync::ledger::{Blank, Ledger};
use world_records::Record;

/// Updates the nodes of a graph until none would change anything. Nobody counts the updates.
fn settle<N: RunNode, L: Ledger>(
    alloc: Global,
    blank: Blank,
    graph: &mut Graph<N>,
) -> PolarsResult<()>
    requires name { blank.name ≡ L.name }
    requires parts { blank.parts ≡ L.parts }
    requires some { 0 < L.parts }
    requires can { CanRun N.HasPorts graph.old }
    ensures reached { OnOk result (Updates N.stages N.Update (standing_of graph.old) (standing_of graph.new)) }
    ensures settled { OnOk result (IsSettled N.stages N.Update (standing_of graph.new)) }
    ensures can { OnOk result (CanRun N.HasPorts graph.new) }
    ensures origins { OnOk result (origins_of graph.new.nodes.slots ≡ origins_of graph.old.nodes.slots) }
    ensures fault { IfErr result (λ e. MayFail N.stages N.Update N.Faults (standing_of graph.old) (origins_of graph.old.nodes.slots) e) }
{
    let mut steps = Steps::<L>::new(blank);
    graph.update_all_states(alloc, &mut steps)
}

impl<N: RunNode> World<N> {
    /// Updates all nodes until none would change anything, and opens the next phase. Where no phase is left the run is
    /// finished, and where an update finds a fault the run is at its end with that.
    ///
    /// Fails only for want of memory. Nothing is recorded then, and nothing may be done after it: what the nodes have behind
    /// them may have changed.
    pub fn open_phase(&mut self, alloc: Global) -> PolarsResult<()>
        requires whole { (w : RunWorld) × Stands N.Has w self.old × IsWhole w }
        ensures opened { OnOk result ((F : Functions) (w : RunWorld) → Stands N.Has w self.old → IsWhole w → IsPlain w → IsFalse w.is_open → w.ending ≡ running → (v : RunWorld) × StepsTo F w (opened (w.phase + 1)) v × HasOpened N.Has v self.new) }
        ensures memory { OnErr result (result ≡ Err PolarsError.OutOfMemory) }
        ensures short { OnErr result ((w : RunWorld) → Stands N.Has w self.old → Tells w self.new) }
        ensures marked { OnErr result (IsSome self.new.fault) }
    {
        match self.try_open(alloc) {
            Ok(()) => Ok(()),
            Err(error) => {
                self.run_short();
                Err(error)
            }
        }
    }

    /// The same, but nothing is marked where memory is missing.
    fn try_open(&mut self, alloc: Global) -> PolarsResult<()>
        requires whole { (w : RunWorld) × Stands N.Has w self.old × IsWhole w }
        ensures opened { OnOk result ((F : Functions) (w : RunWorld) → Stands N.Has w self.old → IsWhole w → IsPlain w → IsFalse w.is_open → w.ending ≡ running → (v : RunWorld) × StepsTo F w (opened (w.phase + 1)) v × HasOpened N.Has v self.new) }
        ensures memory { OnErr result (result ≡ Err PolarsError.OutOfMemory) }
        ensures short { OnErr result ((w : RunWorld) → Stands N.Has w self.old → Tells w self.new) }
    {
        let Some(phase) = self.phase.checked_add(1) else {
            // No run has so many phases.
            return Err(PolarsError::OutOfMemory);
        };
        let Ok(()) = self.journal.reserve(self.options.workers() + 1) else {
            return Err(PolarsError::OutOfMemory);
        };
        match settle::<N, Brand>(alloc, Blank::new(1), &mut self.graph) {
            Ok(()) => self.begin(alloc, phase),
            Err(error) => self.fail(phase, error),
        }
    }

    /// Picks the next phase, if one is left.
    fn begin(&mut self, alloc: Global, phase: u32) -> PolarsResult<()>
        requires linked { IsLinked self.old.graph }
        requires spare { 1 ≤ self.old.journal.spare }
        ensures begun { OnOk result (IsBegun N.intensive phase self.old self.new) }
        ensures memory { OnErr result ((self.new ≡ self.old) × (result ≡ Err PolarsError.OutOfMemory)) }
    {
        let (nodes, pipes) = match self.graph.find_runnable_subgraph(alloc) {
            Ok(found) => found,
            Err(_error) => return Err(PolarsError::OutOfMemory),
        };
        if nodes.is_empty() {
            self.finish(phase);
        } else {
            self.mark(phase, nodes.as_slice(), pipes.as_slice());
        }
        Ok(())
    }

    /// Nothing is left to do.
    fn finish(&mut self, phase: u32)
        requires spare { 1 ≤ self.old.journal.spare }
        ensures { IsFinishedAs phase self.old self.new }
    {
        self.is_finished = true;
        self.phase = phase;
        self.journal.append(Record::Open { phase });
    }

    /// The phase has these nodes and pipes.
    fn mark(&mut self, phase: u32, nodes: &[GraphNodeKey], pipes: &[LogicalPipeKey])
        requires spare { 1 ≤ self.old.journal.spare }
        ensures { IsMarkedAs phase (node_numbers nodes.now) (numbers pipes.now) self.old self.new }
    {
        self.marks.open(nodes);
        self.pipes.open(pipes);
        self.is_open = true;
        self.phase = phase;
        self.journal.append(Record::Open { phase });
    }

    /// An update failed: with a fault the run is at its end.
    fn fail(&mut self, phase: u32, error: PolarsError) -> PolarsResult<()>
        requires spare { 1 ≤ self.old.journal.spare }
        ensures broken { OnOk result ((error ≢ PolarsError.OutOfMemory) × IsBrokenAs phase error self.old self.new) }
        ensures memory { OnErr result ((self.new ≡ self.old) × (result ≡ Err PolarsError.OutOfMemory)) }
    {
        match error {
            PolarsError::OutOfMemory => Err(PolarsError::OutOfMemory),
            fault => {
                self.break_off(phase, fault);
                Ok(())
            }
        }
    }

    /// An update found a fault.
    fn break_off(&mut self, phase: u32, fault: PolarsError)
        requires spare { 1 ≤ self.old.journal.spare }
        ensures { IsBrokenAs phase fault self.old self.new }
    {
        self.fault = Some(fault);
        self.phase = phase;
        self.journal.append(Record::Open { phase });
    }
}

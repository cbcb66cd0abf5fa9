//! The world of a run.
ghost use Rattle.std.specs.Prelude.{◌≡◌, ◌↔◌, ◌⊎◌, ℕ, ◌<◌, ◌&&◌, List, Some, IsTrue, OnErr, OnOk, Err, count_by, length, map, nat_eq, option_copied, slice_get};
ghost use Rattle.ps_flow.specs.Openings.{Tells};
ghost use Rattle.ps_flow.specs.Standing.{IsUnmarred, Stands, or_short};
ghost use Rattle.ps_frame.specs.Causes.{Cause};
ghost use Rattle.ps_frame.specs.declared.refusal.PolarsError.{PolarsError};
ghost use Rattle.ps_graph.specs.Shown.{IsLinked, wires_of};
ghost use Rattle.ps_meaning.specs.Errors.{cause_error};
ghost use Rattle.ps_world.specs.Closing.{after_close, after_end};
ghost use Rattle.ps_world.specs.Pipes.{change_pipes};
ghost use Rattle.ps_world.specs.World.{Node, Pipe, World as RunWorld, faulty, finished, running};
ghost use Rattle.world_pipes.specs.Shown.{AreShown, Setting, closed_pipe};
ghost use Rattle.world_records.specs.Shown.{is_claimed, journal_shown};

use crate::marks::Marks;
use crate::run_node::RunNode;
use keyed_slots::Key;
use ps_frame::refusal::{PolarsError, PolarsResult};
use ps_graph::graph::Graph;
use ps_graph::key::GraphNodeKey;
use ps_options::options::Options;
use ps_outs::Outs;
use world_pipes::Pipes;
use world_records::{Journal, Record};

/// A run as it stands: the graph with what its nodes have behind them, its pipes, the pieces that are out, and the journal.
///
/// A clause says of each step which world of the definitions it is after it, whichever it was before. Whether that step is
/// enabled is the caller's to know.
#[derive(Drop)]
pub struct World<N> {
    pub(crate) graph: Graph<N>,
    pub(crate) marks: Marks,
    pub(crate) pipes: Pipes,
    pub(crate) outs: Outs,
    pub(crate) options: Options,
    pub(crate) phase: u32,
    pub(crate) is_open: bool,
    pub(crate) journal: Journal,
    pub(crate) is_finished: bool,
    pub(crate) fault: Option<PolarsError>,
}

/// Closes the pipes of the open phase that leave a node.
fn close_outputs<N>(graph: &Graph<N>, pipes: &mut Pipes, node: u32)
    ensures { (s : Setting) (ps : List Pipe) → IsLinked graph.now → wires_of graph.now.pipes.slots ≡ map (λ (p : Pipe). p.wire) ps → node < length graph.now.nodes.slots → AreShown s ps pipes.old → AreShown s (change_pipes (λ p. nat_eq p.wire.sender node && p.in_phase) closed_pipe ps) pipes.new }
{
    if let Some(closed) = graph.nodes.get(GraphNodeKey::from_number(node)) {
        pipes.close_in_phase(closed.outputs.as_slice());
    }
}

impl<N: RunNode> World<N> {
    /// Whether the run is finished.
    pub fn finished(&self) -> bool
        ensures stands { (w : RunWorld) → Stands N.Has w self.now → IsTrue result ↔ (w.ending ≡ finished) }
        ensures told { (w : RunWorld) → Tells w self.now → IsTrue result ↔ (w.ending ≡ finished) }
    {
        self.is_finished
    }

    /// The error with which the run is at its end: that of its fault, or out of memory where that was marked.
    pub fn fault(&self) -> Option<&PolarsError>
        ensures fault { (w : RunWorld) (c : Cause) → Tells w self.now → w.ending ≡ faulty c → option_copied result ≡ Some (cause_error c) }
        ensures none { (w : RunWorld) → Tells w self.now → (w.ending ≡ running) ⊎ (w.ending ≡ finished) → IsUnmarred (option_copied result) }
    {
        self.fault.as_ref()
    }

    /// All records so far, in order.
    pub fn journal(&self) -> &[Record]
        ensures stands { (w : RunWorld) → Stands N.Has w self.now → journal_shown result.now ≡ w.journal }
        ensures told { (w : RunWorld) → Tells w self.now → journal_shown result.now ≡ w.journal }
    {
        self.journal.records()
    }

    /// How many pieces were claimed so far.
    pub fn claims(&self) -> u64
        ensures stands { (w : RunWorld) → Stands N.Has w self.now → result ≡ count_by is_claimed w.journal }
        ensures told { (w : RunWorld) → Tells w self.now → result ≡ count_by is_claimed w.journal }
    {
        self.journal.claims()
    }

    /// Marks a want of memory, where there is no fault yet. Nothing may be done after it.
    pub fn run_short(&mut self)
        ensures world { (w : RunWorld) → Stands N.Has w self.old → Stands N.Has w self.new }
        ensures mark { self.new ≡ record self.old { fault = or_short self.old.fault } }
    {
        if self.fault.is_none() {
            self.fault = Some(PolarsError::OutOfMemory);
        }
    }

    /// A node, named by its place in the graph, gives nothing more in the open phase: it is closed, and so are the pipes of
    /// the phase that leave it. Of a place that has no node nothing is said.
    ///
    /// Fails only for want of memory; all is then as before.
    pub fn close(&mut self, node: u32) -> PolarsResult<()>
        ensures closed { OnOk result ((w : RunWorld) (x : Node) → Stands N.Has w self.old → slice_get w.nodes node ≡ Some x → Stands N.Has (after_close w node x) self.new) }
        ensures memory { OnErr result ((self.new ≡ self.old) × (result ≡ Err PolarsError.OutOfMemory)) }
    {
        let Ok(()) = self.journal.reserve(self.options.workers() + 1) else {
            return Err(PolarsError::OutOfMemory);
        };
        close_outputs(&self.graph, &mut self.pipes, node);
        self.marks.close(node as usize);
        self.journal.append(Record::Close { node });
        Ok(())
    }

    /// The open phase is at its end: no node and no pipe is in it or closed in it any more.
    ///
    /// Fails only for want of memory; all is then as before.
    pub fn end(&mut self) -> PolarsResult<()>
        ensures ended { OnOk result ((w : RunWorld) → Stands N.Has w self.old → Stands N.Has (after_end w) self.new) }
        ensures memory { OnErr result ((self.new ≡ self.old) × (result ≡ Err PolarsError.OutOfMemory)) }
    {
        let Ok(()) = self.journal.reserve(self.options.workers() + 1) else {
            return Err(PolarsError::OutOfMemory);
        };
        self.marks.end();
        self.pipes.end();
        self.is_open = false;
        self.journal.append(Record::End { phase: self.phase });
        Ok(())
    }
}

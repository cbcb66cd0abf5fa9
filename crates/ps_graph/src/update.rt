//! How the states of a graph's ports come to rest: updates of single nodes, until every node's update leaves them.
//!
//! A node is updated when something changed round it: it is marked by the node that says something else to it, and by a change of its
//! own stage. Sweeps go over the marked nodes alone, up in the order in which the nodes were added and then down, so that what a node says to its readers goes through
//! the whole graph in one sweep up, and what it says to its senders in one sweep down.
ghost use Rattle.std.specs.Prelude.{◌≡◌, ◌≢◌, ◌≤◌, ◌<◌, ◌+◌, ◌⊎◌, ℕ, Some, true, false, IfErr, IfOk, IfSome, IsSome, IsTrue, OnOk, length};
ghost use Rattle.keyed_slots.specs.Slots.{value_at};
ghost use Rattle.ps_frame.specs.declared.refusal.PolarsError.{PolarsError};
ghost use Rattle.ps_ports.specs.UpdateLaws.{update_limit};
ghost use Rattle.ps_settle.specs.Standings.{IsSettled, Updates};
ghost use Rattle.ps_settle.specs.Sweeps.{MarksIf, OthersLeft, SweptDown, SweptUp, Turned};
ghost use Rattle.ps_graph.specs.Marking.{is_marked};
ghost use Rattle.ps_graph.specs.Shown.{CanRun, standing_of};
ghost use Rattle.ps_graph.specs.Turning.{MayFail, NodeFails, NodeTurned, origins_of, sides_of};

use crate::compute_node::ComputeNode;
use crate::graph::{Graph, GraphNode};
use crate::key::GraphNodeKey;
use crate::marks::Marks;
use crate::origins::error_at;
use crate::turns::{Ends, given_to_node, tell_node};
use keyed_slots::{Key, SlotMap};
use ps_frame::refusal::PolarsResult;
use pu_base::Steps;
use std::alloc::Global;
use std::sync::ledger::Ledger;

impl<N: ComputeNode> GraphNode<N> {
    /// Updates the node; tells whether its stage changed.
    fn update(&mut self, alloc: Global, ends: &mut Ends) -> PolarsResult<bool>
        requires ports { N.HasPorts self.old.compute (length ends.old.recv.items) (length ends.old.send.items) }
        ensures updated { OnOk result (N.Update self.old.compute (sides_of ends.old) self.new.compute (sides_of ends.new)) }
        ensures rest { OnOk result (self.new ≡ record self.old { compute = self.new.compute }) }
        ensures stays { IfOk result (λ changed. changed ≡ false → N.stages self.old.compute ≡ N.stages self.new.compute) }
        ensures changes { IfOk result (λ changed. changed ≡ true → N.stages self.old.compute ≢ N.stages self.new.compute) }
        ensures fault { IfErr result (λ e. NodeFails N.Faults self.old (sides_of ends.old) e) }
    {
        let before = self.compute.stages_behind();
        match self
            .compute
            .update_state(alloc, ends.recv.as_mut_slice(), ends.send.as_mut_slice())
        {
            Ok(()) => Ok(self.compute.stages_behind() != before),
            Err(error) => Err(error_at(error, self.origin)),
        }
    }
}

/// Updates one of the nodes; tells whether its stage changed.
fn update_one<N: ComputeNode>(
    nodes: &mut SlotMap<GraphNodeKey, GraphNode<N>>,
    alloc: Global,
    key: GraphNodeKey,
    ends: &mut Ends,
) -> PolarsResult<bool>
    requires there { IsSome (value_at nodes.old.slots key.0) }
    requires ports { IfSome (value_at nodes.old.slots key.0) (λ n. N.HasPorts n.compute (length ends.old.recv.items) (length ends.old.send.items)) }
    ensures updated { IfOk result (λ changed. IfSome (value_at nodes.old.slots key.0) (λ n. NodeTurned N.stages N.Update n key.0 nodes.old.slots nodes.new.slots (sides_of ends.old) (sides_of ends.new) changed)) }
    ensures fault { IfErr result (λ e. IfSome (value_at nodes.old.slots key.0) (λ n. NodeFails N.Faults n (sides_of ends.old) e)) }
{
    match nodes.get_mut(key) {
        Some(node) => node.update(alloc, ends),
        None => Ok(false),
    }
}

/// Marks the number if the flag is set.
fn mark_if(flag: bool, number: usize, marks: &mut Marks) -> PolarsResult<()>
    ensures marked { OnOk result (MarksIf flag number (is_marked marks.old) (is_marked marks.new)) }
    ensures memory { IfErr result (λ e. e ≡ PolarsError.OutOfMemory) }
{
    if flag {
        marks.mark(number)?;
    }
    Ok(())
}

impl<N: ComputeNode> Graph<N> {
    /// Updates a node, writes its answer back to its pipes, and marks the readers and the senders to which it says something else. Tells whether its stage changed.
    fn turn(
        &mut self,
        alloc: Global,
        number: usize,
        readers: &mut Marks,
        senders: &mut Marks,
    ) -> PolarsResult<bool>
        requires can { CanRun N.HasPorts self.old }
        requires inside { number < length self.old.nodes.slots }
        ensures turned { IfOk result (λ changed. Turned N.stages N.Update (standing_of self.old) (standing_of self.new) number (is_marked readers.old) (is_marked readers.new) (is_marked senders.old) (is_marked senders.new) changed) }
        ensures can { OnOk result (CanRun N.HasPorts self.new) }
        ensures origins { OnOk result (origins_of self.new.nodes.slots ≡ origins_of self.old.nodes.slots) }
        ensures fault { IfErr result (λ e. MayFail N.stages N.Update N.Faults (standing_of self.old) (origins_of self.old.nodes.slots) e) }
    {
        let key = GraphNodeKey::from_number(number as u32);
        let Some(node) = self.nodes.get(key) else {
            return Ok(false);
        };
        let mut ends = given_to_node(
            alloc,
            &self.pipes,
            number,
            node.inputs.as_slice(),
            node.outputs.as_slice(),
        )?;
        // A match and no `?`, here and below: so what is said of the error is said of the answer.
        let changed = match update_one(&mut self.nodes, alloc, key, &mut ends) {
            Ok(changed) => changed,
            Err(error) => return Err(error),
        };
        let Some(node) = self.nodes.get(key) else {
            return Ok(false);
        };
        tell_node(
            &mut self.pipes,
            number,
            node.inputs.as_slice(),
            node.outputs.as_slice(),
            &ends,
            readers,
            senders,
        )?;
        Ok(changed)
    }

    /// Updates the nodes that are marked here, from the first to the last: readers that are told something come on the way, senders are marked for later.
    fn sweep_up<L: Ledger>(
        &mut self,
        alloc: Global,
        here: &mut Marks,
        later: &mut Marks,
        steps: &mut Steps<L>,
    ) -> PolarsResult<()>
        requires can { CanRun N.HasPorts self.old }
        requires inside { (n : ℕ) → IsTrue (is_marked here.old n) → n < length self.old.nodes.slots }
        requires fresh { (n : ℕ) → is_marked later.old n ≡ false }
        requires others { OthersLeft N.stages N.Update (λ n. IsTrue (is_marked here.old n)) (standing_of self.old) }
        ensures swept { OnOk result ((t : ℕ) × (steps.new ≡ steps.old + t) × SweptUp N.stages N.Update (standing_of self.old) (standing_of self.new) (is_marked here.new) (is_marked later.new) t) }
        ensures over { OnOk result ((n : ℕ) → is_marked here.new n ≡ false) }
        ensures can { OnOk result (CanRun N.HasPorts self.new) }
        ensures origins { OnOk result (origins_of self.new.nodes.slots ≡ origins_of self.old.nodes.slots) }
        ensures cost { steps.new ≤ steps.old + length self.old.nodes.slots }
        ensures fault { IfErr result (λ e. MayFail N.stages N.Update N.Faults (standing_of self.old) (origins_of self.old.nodes.slots) e) }
    {
        while let Some(number) = here.take_first() {
            steps.tick();
            let changed = match self.turn(alloc, number, here, later) {
                Ok(changed) => changed,
                Err(error) => return Err(error),
            };
            mark_if(changed, number, later)?;
        }
        Ok(())
    }

    /// Updates the nodes that are marked here, from the last to the first: senders that are told something come on the way, readers are marked for later.
    fn sweep_down<L: Ledger>(
        &mut self,
        alloc: Global,
        here: &mut Marks,
        later: &mut Marks,
        steps: &mut Steps<L>,
    ) -> PolarsResult<()>
        requires can { CanRun N.HasPorts self.old }
        requires inside { (n : ℕ) → IsTrue (is_marked here.old n) → n < length self.old.nodes.slots }
        requires fresh { (n : ℕ) → is_marked later.old n ≡ false }
        requires others { OthersLeft N.stages N.Update (λ n. IsTrue (is_marked here.old n)) (standing_of self.old) }
        ensures swept { OnOk result ((t : ℕ) × (steps.new ≡ steps.old + t) × SweptDown N.stages N.Update (standing_of self.old) (standing_of self.new) (is_marked here.new) (is_marked later.new) t) }
        ensures over { OnOk result ((n : ℕ) → is_marked here.new n ≡ false) }
        ensures can { OnOk result (CanRun N.HasPorts self.new) }
        ensures origins { OnOk result (origins_of self.new.nodes.slots ≡ origins_of self.old.nodes.slots) }
        ensures cost { steps.new ≤ steps.old + length self.old.nodes.slots }
        ensures fault { IfErr result (λ e. MayFail N.stages N.Update N.Faults (standing_of self.old) (origins_of self.old.nodes.slots) e) }
    {
        while let Some(number) = here.take_last() {
            steps.tick();
            let changed = match self.turn(alloc, number, later, here) {
                Ok(changed) => changed,
                Err(error) => return Err(error),
            };
            mark_if(changed, number, later)?;
        }
        Ok(())
    }

    /// Updates nodes one by one, and writes each answer back to the node's pipes, until every node's update leaves the states of its ports, and its stage.
    /// A step is one update; there are at most 2 × nodes × (2 × pipes + 2 × nodes + 2). The work goes with the updates, and with the logarithm of the nodes.
    ///
    /// It fails by a fault of an update, at the origin of its node, or for want of memory. The graph may then only be dropped.
    pub fn update_all_states<L: Ledger>(
        &mut self,
        alloc: Global,
        steps: &mut Steps<L>,
    ) -> PolarsResult<()>
        requires can { CanRun N.HasPorts self.old }
        ensures reached { OnOk result (Updates N.stages N.Update (standing_of self.old) (standing_of self.new)) }
        ensures settled { OnOk result (IsSettled N.stages N.Update (standing_of self.new)) }
        ensures can { OnOk result (CanRun N.HasPorts self.new) }
        ensures origins { OnOk result (origins_of self.new.nodes.slots ≡ origins_of self.old.nodes.slots) }
        ensures limit { steps.new ≤ steps.old + update_limit (length self.old.nodes.slots) (length self.old.pipes.slots) }
        ensures fault { IfErr result (λ e. MayFail N.stages N.Update N.Faults (standing_of self.old) (origins_of self.old.nodes.slots) e) }
    {
        let mut upward = Marks::below(alloc, self.count())?;
        let mut downward = Marks::new(alloc);
        loop {
            match self.sweep_up(alloc, &mut upward, &mut downward, steps) {
                Ok(()) => {}
                Err(error) => return Err(error),
            }
            if downward.is_empty() {
                return Ok(());
            }
            match self.sweep_down(alloc, &mut downward, &mut upward, steps) {
                Ok(()) => {}
                Err(error) => return Err(error),
            }
            if upward.is_empty() {
                return Ok(());
            }
        }
    }
}

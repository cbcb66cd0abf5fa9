//! Which part of a graph may run next: blockers, and all that feeds them.
//!
//! A blocker takes all of its input before it gives anything. Of those that keep it in memory at most one runs at a time.
ghost use Rattle.std.specs.Prelude.{◌≡◌, ◌<◌, ◌^◌, ◌||◌, ◌&&◌, false, IfErr, IfOk, IsTrue, count_by, get_or, length, not};
ghost use Rattle.std.specs.List.{list_all, list_any, filter as kept};
ghost use Rattle.ps_frame.specs.Zip.{below};
ghost use Rattle.ps_frame.specs.declared.refusal.PolarsError.{PolarsError};
ghost use Rattle.ps_ports.specs.Phases.{is_blocker, is_one_of, ready_readers};
ghost use Rattle.ps_ports.specs.Ports.{is_blocked, is_ready};
ghost use Rattle.ps_ports.specs.Wires.{both_ready, wires_out};
ghost use Rattle.ps_graph.specs.Running.{are_intensive, chosen_below, feeds_flagged, flag_of, is_named, node_numbers, passes, phase_blockers, runnable_nodes, runnable_pipes};
ghost use Rattle.ps_graph.specs.Shown.{IsLinked, are_there, numbers, places_from, values, wire_of, wires_of};

use crate::compute_node::ComputeNode;
use crate::graph::{Graph, GraphNode, LogicalPipe};
use crate::key::{GraphNodeKey, LogicalPipeKey};
use keyed_slots::{Key, SlotMap};
use ps_frame::refusal::PolarsResult;
use ps_ports::port_state::PortState;
use std::alloc::Global;

/// Whether both ends of a pipe are ready.
fn is_open(pipes: &SlotMap<LogicalPipeKey, LogicalPipe>, key: LogicalPipeKey) -> bool
    ensures { result ≡ passes both_ready pipes.now.slots key.0 }
{
    match pipes.get(key) {
        Some(pipe) => matches!(
            (pipe.send_state, pipe.recv_state),
            (PortState::Ready, PortState::Ready)
        ),
        None => false,
    }
}

/// Whether the sender of a pipe says that it is blocked.
fn is_sender_blocked(pipes: &SlotMap<LogicalPipeKey, LogicalPipe>, key: LogicalPipeKey) -> bool
    ensures { result ≡ passes (λ p. is_blocked p.send_state) pipes.now.slots key.0 }
{
    match pipes.get(key) {
        Some(pipe) => matches!(pipe.send_state, PortState::Blocked),
        None => false,
    }
}

/// Whether the reader of a pipe says that it is ready.
fn is_reader_ready(pipes: &SlotMap<LogicalPipeKey, LogicalPipe>, key: LogicalPipeKey) -> bool
    ensures { result ≡ passes (λ p. is_ready p.receive_state) pipes.now.slots key.0 }
{
    match pipes.get(key) {
        Some(pipe) => matches!(pipe.recv_state, PortState::Ready),
        None => false,
    }
}

/// Whether a number is flagged.
fn is_flagged(flags: &[bool], number: usize) -> bool
    ensures { result ≡ get_or flags.now number false }
{
    number < flags.len() && flags[number]
}

/// Whether a number is the one that is named, if one is.
fn is_named(named: Option<usize>, number: usize) -> bool
    ensures { result ≡ is_named named number }
{
    match named {
        Some(other) => number == other,
        None => false,
    }
}

/// Whether a pipe is ready on both ends and leads to a flagged node.
fn feeds(pipes: &SlotMap<LogicalPipeKey, LogicalPipe>, key: LogicalPipeKey, flags: &[bool]) -> bool
    ensures { result ≡ passes (feeds_flagged flags.now) pipes.now.slots key.0 }
{
    match pipes.get(key) {
        Some(pipe) => { is_open(pipes, key) && is_flagged(flags, pipe.receiver.number() as usize) }
        None => false,
    }
}

impl<N> GraphNode<N> {
    /// Whether all of its outputs are blocked.
    fn sends_nothing(&self, pipes: &SlotMap<LogicalPipeKey, LogicalPipe>) -> bool
        ensures { result ≡ list_all (λ key. passes (λ p. is_blocked p.send_state) pipes.now.slots key.0) self.now.outputs.items }
    {
        self.outputs
            .iter()
            .all(|key| is_sender_blocked(pipes, *key))
    }

    /// Whether an input is ready on both ends.
    fn has_open_input(&self, pipes: &SlotMap<LogicalPipeKey, LogicalPipe>) -> bool
        ensures { result ≡ list_any (λ key. passes both_ready pipes.now.slots key.0) self.now.inputs.items }
    {
        self.inputs.iter().any(|key| is_open(pipes, *key))
    }

    /// Whether the node takes and doesn't give: all of its outputs are blocked, and an input is ready on both ends.
    fn is_blocker(&self, pipes: &SlotMap<LogicalPipeKey, LogicalPipe>) -> bool
        ensures { result ≡ (list_all (λ key. passes (λ p. is_blocked p.send_state) pipes.now.slots key.0) self.now.outputs.items && list_any (λ key. passes both_ready pipes.now.slots key.0) self.now.inputs.items) }
    {
        self.sends_nothing(pipes) && self.has_open_input(pipes)
    }

    /// How many of its outputs have a reader that is ready.
    fn ready_readers(&self, pipes: &SlotMap<LogicalPipeKey, LogicalPipe>) -> usize
        ensures { result ≡ count_by (λ key. passes (λ p. is_ready p.receive_state) pipes.now.slots key.0) self.now.outputs.items }
    {
        self.outputs
            .iter()
            .filter(|key| is_reader_ready(pipes, **key))
            .count()
    }

    /// Whether an output is ready on both ends and leads to a flagged node.
    fn feeds(&self, pipes: &SlotMap<LogicalPipeKey, LogicalPipe>, flags: &[bool]) -> bool
        ensures { result ≡ list_any (λ key. passes (feeds_flagged flags.now) pipes.now.slots key.0) self.now.outputs.items }
    {
        self.outputs.iter().any(|key| feeds(pipes, *key, flags))
    }
}

/// The keys of the nodes that are flagged.
fn flagged_nodes(alloc: Global, flags: &[bool]) -> PolarsResult<Vec<GraphNodeKey>>
    requires { length flags.now < 2 ^ 32 }
    ensures keys { IfOk result (λ keys. node_numbers keys.items ≡ kept (λ n. get_or flags.now n false) (below (length flags.now))) }
    ensures memory { IfErr result (λ e. e ≡ PolarsError.OutOfMemory) }
{
    let mut keys = Vec::new(alloc);
    for (number, flag) in flags.iter().enumerate() {
        if *flag {
            keys.push(GraphNodeKey::from_number(number as u32))?;
        }
    }
    Ok(keys)
}

/// The keys of the pipes that are ready on both ends and lead to a flagged node.
fn feeding_pipes(
    alloc: Global,
    pipes: &SlotMap<LogicalPipeKey, LogicalPipe>,
    flags: &[bool],
) -> PolarsResult<Vec<LogicalPipeKey>>
    requires there { IsTrue (are_there pipes.now.slots) }
    requires few { length pipes.now.slots < 2 ^ 32 }
    ensures keys { IfOk result (λ keys. numbers keys.items ≡ places_from 0 (λ p. feeds_flagged flags.now (wire_of p)) (values pipes.now.slots)) }
    ensures memory { IfErr result (λ e. e ≡ PolarsError.OutOfMemory) }
{
    let mut keys = Vec::new(alloc);
    for number in 0..pipes.len() {
        let key = LogicalPipeKey::from_number(number as u32);
        if feeds(pipes, key, flags) {
            keys.push(key)?;
        }
    }
    Ok(keys)
}

impl<N: ComputeNode> Graph<N> {
    /// Whether a node is a blocker.
    fn is_blocker(&self, number: usize) -> bool
        requires linked { IsLinked self.now }
        requires inside { number < length self.now.nodes.slots }
        ensures { result ≡ is_blocker (wires_of self.now.pipes.slots) number }
    {
        match self.nodes.get(GraphNodeKey::from_number(number as u32)) {
            Some(node) => node.is_blocker(&self.pipes),
            None => false,
        }
    }

    /// Whether a node is memory intensive.
    fn is_intensive(&self, number: usize) -> bool
        requires linked { IsLinked self.now }
        requires inside { number < length self.now.nodes.slots }
        ensures { result ≡ are_intensive N.intensive self.now number }
    {
        match self.nodes.get(GraphNodeKey::from_number(number as u32)) {
            Some(node) => node.compute.is_memory_intensive_pipeline_blocker(),
            None => false,
        }
    }

    /// How many outputs of a node have a reader that is ready.
    fn ready_readers(&self, number: usize) -> usize
        requires linked { IsLinked self.now }
        requires inside { number < length self.now.nodes.slots }
        ensures { result ≡ ready_readers (wires_of self.now.pipes.slots) number }
    {
        match self.nodes.get(GraphNodeKey::from_number(number as u32)) {
            Some(node) => node.ready_readers(&self.pipes),
            None => 0,
        }
    }

    /// Whether a node feeds one that is flagged.
    fn feeds(&self, number: usize, flags: &[bool]) -> bool
        requires linked { IsLinked self.now }
        requires inside { number < length self.now.nodes.slots }
        ensures { result ≡ list_any (feeds_flagged flags.now) (wires_out number (wires_of self.now.pipes.slots)) }
    {
        match self.nodes.get(GraphNodeKey::from_number(number as u32)) {
            Some(node) => node.feeds(&self.pipes, flags),
            None => false,
        }
    }

    /// Whether a node is a blocker that is memory intensive.
    fn is_intensive_blocker(&self, number: usize) -> bool
        requires linked { IsLinked self.now }
        requires inside { number < length self.now.nodes.slots }
        ensures { result ≡ (is_blocker (wires_of self.now.pipes.slots) number && are_intensive N.intensive self.now number) }
    {
        self.is_blocker(number) && self.is_intensive(number)
    }

    /// Whether a node is a blocker that isn't memory intensive.
    fn is_light_blocker(&self, number: usize) -> bool
        requires linked { IsLinked self.now }
        requires inside { number < length self.now.nodes.slots }
        ensures { result ≡ (is_blocker (wires_of self.now.pipes.slots) number && not (are_intensive N.intensive self.now number)) }
    {
        self.is_blocker(number) && !self.is_intensive(number)
    }

    /// Of the memory intensive blockers the one that runs: that with the most outputs whose reader is ready, and on a tie the one
    /// that was added last.
    fn intensive_blocker(&self) -> Option<usize>
        requires { IsLinked self.now }
        ensures { result ≡ chosen_below (wires_of self.now.pipes.slots) (are_intensive N.intensive self.now) (length self.now.nodes.slots) }
    {
        let mut chosen = None;
        let mut most = 0;
        for number in 0..self.count() {
            if self.is_intensive_blocker(number) {
                let readers = self.ready_readers(number);
                if readers >= most {
                    chosen = Some(number);
                    most = readers;
                }
            }
        }
        chosen
    }

    /// Whether a node is one of the blockers of the phase, among which this memory intensive one is.
    fn is_phase_blocker(&self, number: usize, chosen: Option<usize>) -> bool
        requires linked { IsLinked self.now }
        requires inside { number < length self.now.nodes.slots }
        requires chosen { chosen ≡ chosen_below (wires_of self.now.pipes.slots) (are_intensive N.intensive self.now) (length self.now.nodes.slots) }
        ensures { result ≡ is_one_of number (phase_blockers N.intensive self.now) }
    {
        self.is_light_blocker(number) || is_named(chosen, number)
    }

    /// Whether a node is one of the blockers of the phase or feeds one that is flagged.
    fn is_running(&self, number: usize, chosen: Option<usize>, flags: &[bool]) -> bool
        requires linked { IsLinked self.now }
        requires inside { number < length self.now.nodes.slots }
        requires chosen { chosen ≡ chosen_below (wires_of self.now.pipes.slots) (are_intensive N.intensive self.now) (length self.now.nodes.slots) }
        ensures { result ≡ flag_of (wires_of self.now.pipes.slots) (phase_blockers N.intensive self.now) flags.now number }
    {
        self.is_phase_blocker(number, chosen) || self.feeds(number, flags)
    }

    /// A flag for each node: whether it is in the next phase. One scan finds them, from the last node to the first, since a node
    /// comes before all that it feeds.
    fn flags(&self, alloc: Global) -> PolarsResult<Vec<bool>>
        requires { IsLinked self.now }
        ensures long { IfOk result (λ flags. length flags.items ≡ length self.now.nodes.slots) }
        ensures flagged { IfOk result (λ flags. kept (λ n. get_or flags.items n false) (below (length self.now.nodes.slots)) ≡ runnable_nodes N.intensive self.now) }
        ensures memory { IfErr result (λ e. e ≡ PolarsError.OutOfMemory) }
    {
        let count = self.count();
        let chosen = self.intensive_blocker();
        let mut flags = vec![in alloc; false; count]?;
        for number in (0..count).rev() {
            let flag = self.is_running(number, chosen, flags.as_slice());
            flags[number] = flag;
        }
        Ok(flags)
    }

    /// The nodes and the pipes of the next phase, each in the order in which they were added.
    ///
    /// A blocker is a node all of whose outputs are blocked and that has an input pipe that is ready on both ends. In the phase
    /// are all blockers that aren't memory intensive and at most one that is: the one with the most outputs whose reader is
    /// ready, and on a tie the one that was added last. With them are all nodes that feed them over pipes that are ready on both
    /// ends, and these pipes. It takes time for each node and each pipe once, and fails only for want of memory.
    pub fn find_runnable_subgraph(
        &self,
        alloc: Global,
    ) -> PolarsResult<(Vec<GraphNodeKey>, Vec<LogicalPipeKey>)>
        requires { IsLinked self.now }
        ensures nodes { IfOk result (λ r. node_numbers r.0.items ≡ runnable_nodes N.intensive self.now) }
        ensures pipes { IfOk result (λ r. numbers r.1.items ≡ runnable_pipes N.intensive self.now) }
        ensures memory { IfErr result (λ e. e ≡ PolarsError.OutOfMemory) }
    {
        let flags = self.flags(alloc)?;
        let nodes = flagged_nodes(alloc, flags.as_slice())?;
        let pipes = feeding_pipes(alloc, &self.pipes, flags.as_slice())?;
        Ok((nodes, pipes))
    }
}

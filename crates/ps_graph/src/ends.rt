//! The two ends of a pipe, what is read off one for a node at the other, and what a node's answer writes to its own.
ghost use Rattle.std.specs.Prelude.{◌≡◌, ◌<◌, ℕ, Some, Err, IfOk, IfSome, IsSome, IsTrue, OnErr, OnOk, length, slice_get, slice_set};
ghost use Rattle.keyed_slots.specs.Slots.{value_at};
ghost use Rattle.ps_frame.specs.declared.refusal.PolarsError.{PolarsError};
ghost use Rattle.ps_ports.specs.Phases.{is_one_of};
ghost use Rattle.ps_ports.specs.Ports.{kept_state};
ghost use Rattle.ps_graph.specs.Ends.{AreAt, TellsOne, Told, other_node, other_state, own_state, place_at, says, with_own};
ghost use Rattle.ps_graph.specs.Marking.{is_marked};
ghost use Rattle.ps_graph.specs.Shown.{numbers};

use crate::end::End;
use crate::graph::LogicalPipe;
use crate::key::LogicalPipeKey;
use crate::marks::Marks;
use keyed_slots::{Key, SlotMap};
use ps_frame::refusal::PolarsResult;
use ps_ports::port_state::PortState;
use std::alloc::Global;

/// What the node at an end of a pipe says of it.
fn said_at(end: End, pipe: &LogicalPipe) -> PortState
    ensures { result ≡ own_state end pipe.now }
{
    match end {
        End::Sender => pipe.send_state,
        End::Receiver => pipe.recv_state,
    }
}

/// What the node at the other end says of it.
fn said_opposite(end: End, pipe: &LogicalPipe) -> PortState
    ensures { result ≡ other_state end pipe.now }
{
    match end {
        End::Sender => pipe.recv_state,
        End::Receiver => pipe.send_state,
    }
}

/// Which of the ports of the node at an end it is.
fn port_at(end: End, pipe: &LogicalPipe) -> usize
    ensures { result ≡ place_at end pipe.now }
{
    match end {
        End::Sender => pipe.send_port,
        End::Receiver => pipe.recv_port,
    }
}

/// The number of the node at the other end.
fn node_opposite(end: End, pipe: &LogicalPipe) -> usize
    ensures { result ≡ other_node end pipe.now }
{
    match end {
        End::Sender => pipe.receiver.number() as usize,
        End::Receiver => pipe.sender.number() as usize,
    }
}

/// The new state, but what is done stays done.
fn kept(old: PortState, new: PortState) -> PortState
    ensures { result ≡ kept_state old new }
{
    match old {
        PortState::Done => PortState::Done,
        _ => new,
    }
}

/// Sets what the node at an end of a pipe says.
fn say(
    pipes: &mut SlotMap<LogicalPipeKey, LogicalPipe>,
    end: End,
    key: LogicalPipeKey,
    state: PortState,
)
    ensures { IfSome (value_at pipes.old.slots key.0) (λ p. pipes.new.slots ≡ slice_set pipes.old.slots key.0 (Some (with_own end state p))) }
{
    if let Some(pipe) = pipes.get_mut(key) {
        match end {
            End::Sender => pipe.send_state = state,
            End::Receiver => pipe.recv_state = state,
        }
    }
}

/// Writes a node's answer to one of its pipes, and marks the node at the other end if that says something else to it.
fn tell_one(
    pipes: &mut SlotMap<LogicalPipeKey, LogicalPipe>,
    end: End,
    key: LogicalPipeKey,
    pipe: LogicalPipe,
    states: &[PortState],
    marks: &mut Marks,
) -> PolarsResult<()>
    requires there { value_at pipes.old.slots key.0 ≡ Some pipe }
    requires inside { place_at end pipe < length states.now }
    ensures written { OnOk result (pipes.new.slots ≡ slice_set pipes.old.slots key.0 (Some (says end states.now pipe))) }
    ensures told { OnOk result (TellsOne end states.now pipe (is_marked marks.old) (is_marked marks.new)) }
    ensures memory { OnErr result (result ≡ Err PolarsError.OutOfMemory) }
{
    let old = said_at(end, &pipe);
    let new = kept(old, states[port_at(end, &pipe)]);
    say(pipes, end, key, new);
    if new != old {
        marks.mark(node_opposite(end, &pipe))?;
    }
    Ok(())
}

/// Writes a node's answer to its pipes on one side, and marks the nodes to which that says something else.
pub fn tell(
    pipes: &mut SlotMap<LogicalPipeKey, LogicalPipe>,
    end: End,
    keys: &[LogicalPipeKey],
    states: &[PortState],
    marks: &mut Marks,
) -> PolarsResult<()>
    requires there { AreAt end (length states.now) (numbers keys.now) pipes.old.slots }
    ensures told { OnOk result (Told end states.now (numbers keys.now) pipes.old.slots pipes.new.slots (is_marked marks.old) (is_marked marks.new)) }
    ensures memory { OnErr result (result ≡ Err PolarsError.OutOfMemory) }
{
    for key in keys {
        if let Some(pipe) = pipes.get(*key).copied() {
            tell_one(pipes, end, *key, pipe, states, marks)?;
        }
    }
    Ok(())
}

/// What the nodes at the other ends of a node's pipes on one side say, by its ports.
pub fn given(
    alloc: Global,
    pipes: &SlotMap<LogicalPipeKey, LogicalPipe>,
    end: End,
    keys: &[LogicalPipeKey],
) -> PolarsResult<Vec<PortState>>
    requires there { AreAt end (length keys.now) (numbers keys.now) pipes.now.slots }
    requires alike { (j k : ℕ) (p q : LogicalPipe) → IsTrue (is_one_of j (numbers keys.now)) → IsTrue (is_one_of k (numbers keys.now)) → value_at pipes.now.slots j ≡ Some p → value_at pipes.now.slots k ≡ Some q → place_at end p ≡ place_at end q → other_state end p ≡ other_state end q }
    ensures long { IfOk result (λ v. length v.items ≡ length keys.now) }
    ensures states { IfOk result (λ v. (k : ℕ) (p : LogicalPipe) → IsTrue (is_one_of k (numbers keys.now)) → value_at pipes.now.slots k ≡ Some p → slice_get v.items (place_at end p) ≡ Some (other_state end p)) }
    ensures memory { OnErr result (result ≡ Err PolarsError.OutOfMemory) }
{
    let mut states = Vec::new(alloc);
    for _ in keys {
        states.push(PortState::Blocked)?;
    }
    for key in keys {
        if let Some(pipe) = pipes.get(*key) {
            states[port_at(end, pipe)] = said_opposite(end, pipe);
        }
    }
    Ok(states)
}

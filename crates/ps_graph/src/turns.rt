//! What a node is given, read off its pipes, and its answer, written to them.
ghost use Rattle.std.specs.Prelude.{◌≡◌, ℕ, Err, IfOk, OnErr, OnOk, length};
ghost use Rattle.ps_frame.specs.declared.refusal.PolarsError.{PolarsError};
ghost use Rattle.ps_ports.specs.Wires.{given_to, written};
ghost use Rattle.ps_settle.specs.Sweeps.{TellsReaders, TellsSenders};
ghost use Rattle.ps_graph.specs.Linked.{AreKeysOf, JoinAlike};
ghost use Rattle.ps_graph.specs.Marking.{is_marked};
ghost use Rattle.ps_graph.specs.Shown.{wires_of};
ghost use Rattle.ps_graph.specs.Turning.{sides_of};

use crate::end::End;
use crate::ends;
use crate::graph::LogicalPipe;
use crate::key::LogicalPipeKey;
use crate::marks::Marks;
use keyed_slots::SlotMap;
use ps_frame::refusal::PolarsResult;
use ps_ports::port_state::PortState;
use std::alloc::Global;

/// The states of a node's inputs and of its outputs.
#[derive(Drop)]
pub struct Ends {
    pub recv: Vec<PortState>,
    pub send: Vec<PortState>,
}

/// What a node is given by its pipes.
pub fn given_to_node(
    alloc: Global,
    pipes: &SlotMap<LogicalPipeKey, LogicalPipe>,
    _number: usize,
    inputs: &[LogicalPipeKey],
    outputs: &[LogicalPipeKey],
) -> PolarsResult<Ends>
    requires keys { AreKeysOf _number inputs.now outputs.now pipes.now.slots }
    ensures given { IfOk result (λ e. sides_of e ≡ given_to _number (wires_of pipes.now.slots)) }
    ensures memory { OnErr result (result ≡ Err PolarsError.OutOfMemory) }
{
    let recv = ends::given(alloc, pipes, End::Receiver, inputs)?;
    let send = ends::given(alloc, pipes, End::Sender, outputs)?;
    Ok(Ends { recv, send })
}

/// Writes what a node answers to its pipes: first to those out of it, then to those into it. Marks the readers and the
/// senders to which it says something else.
pub fn tell_node(
    pipes: &mut SlotMap<LogicalPipeKey, LogicalPipe>,
    _number: usize,
    inputs: &[LogicalPipeKey],
    outputs: &[LogicalPipeKey],
    answer: &Ends,
    readers: &mut Marks,
    senders: &mut Marks,
) -> PolarsResult<()>
    requires keys { AreKeysOf _number inputs.now outputs.now pipes.old.slots }
    requires inputs { length answer.now.recv.items ≡ length inputs.now }
    requires outputs { length answer.now.send.items ≡ length outputs.now }
    ensures written { OnOk result (wires_of pipes.new.slots ≡ written _number (sides_of answer.now) (wires_of pipes.old.slots)) }
    ensures readers { OnOk result (TellsReaders _number (sides_of answer.now) (wires_of pipes.old.slots) (is_marked readers.old) (is_marked readers.new)) }
    ensures senders { OnOk result (TellsSenders _number (sides_of answer.now) (wires_of pipes.old.slots) (is_marked senders.old) (is_marked senders.new)) }
    ensures joins { OnOk result (JoinAlike pipes.old.slots pipes.new.slots) }
    ensures memory { OnErr result (result ≡ Err PolarsError.OutOfMemory) }
{
    ends::tell(pipes, End::Sender, outputs, answer.send.as_slice(), readers)?;
    ends::tell(
        pipes,
        End::Receiver,
        inputs,
        answer.recv.as_slice(),
        senders,
    )?;
    Ok(())
}

//! A multiplexer: it gives its input to each of its readers, through pipes that keep what wasn't read yet.
ghost use Rattle.std.specs.Prelude.{◌≡◌, ◌||◌, cond, length};
ghost use Rattle.ps_ports.specs.declared.port_state.PortState.TheVariants as port;
ghost use Rattle.ps_ports.specs.Ports.{is_done, kept_done, kept_state};
ghost use Rattle.ps_turns.specs.Updates.{port_answers, undone_empty};
ghost use Rattle.node_states.specs.Pipes.{is_empty_at};
ghost use Rattle.node_states.specs.Views.{NodeView, answer_to, sides_of};
ghost use Rattle.node_states.specs.States.{IsMultiplexer};

use crate::ports;
use ps_ports::port_state::PortState;

/// Whether nothing is to be read at an output: it is done, or its pipe is empty.
fn is_drained(output: PortState, is_empty: bool) -> bool
    ensures { result ≡ (is_done output || is_empty) }
{
    ports::is_done(output) || is_empty
}

/// Whether the pipe of an output is empty: one of which nothing is said is.
fn is_empty_at(empties: &[bool], port: usize) -> bool
    ensures { result ≡ is_empty_at empties.now port }
{
    match empties.get(port) {
        Some(is_empty) => *is_empty,
        None => true,
    }
}

/// Whether the pipes of all outputs that aren't done are empty.
fn are_drained(empties: &[bool], send: &[PortState]) -> bool
    ensures { result ≡ undone_empty empties.now send.now }
{
    for (i, output) in send.iter().enumerate() {
        if !is_drained(*output, is_empty_at(empties, i)) {
            return false;
        }
    }
    true
}

/// What is answered at an output: the input's state where its pipe is empty, else ready.
fn answered(given: PortState, is_empty: bool, input: PortState) -> PortState
    ensures { result ≡ kept_state given (cond is_empty input port.Ready) }
{
    if is_empty {
        ports::kept(given, input)
    } else {
        ports::kept(given, PortState::Ready)
    }
}

/// Answers the input's state at each output whose pipe is empty, and ready at the others.
fn offer(empties: &[bool], send: &mut [PortState], input: PortState)
    ensures { send.new ≡ kept_done send.old (port_answers input empties.now send.old) }
{
    for (i, output) in send.iter_mut().enumerate() {
        *output = answered(*output, is_empty_at(empties, i), input);
    }
}

/// Answers done on all sides once all outputs are done, or the input is and nothing waits in the pipe of one that isn't.
/// Before, an output whose pipe is empty gets the input's state, and one whose pipe isn't empty gets ready; the input is
/// blocked where all outputs are, and else ready.
///
/// `empties` says of the outputs whether their pipes are empty; those behind its end are.
pub fn answer(empties: &[bool], recv: &mut [PortState], send: &mut [PortState])
    requires { length recv.old ≡ 1 }
    ensures { (n : NodeView) → IsMultiplexer empties.now n → sides_of recv.new send.new ≡ answer_to (sides_of recv.old send.old) n }
{
    if ports::all_done(send) || ports::all_done(recv) && are_drained(empties, send) {
        ports::set_one(recv, PortState::Done);
        ports::set_all(send, PortState::Done);
    } else {
        let input = ports::first(recv);
        let is_stopped = ports::all_blocked(send);
        ports::set_one(recv, ports::blocked_if(is_stopped));
        offer(empties, send, input);
    }
}

//! A union: it passes its inputs one after another.
ghost use Rattle.std.specs.Prelude.{◌≡◌, ◌||◌, cond, length, not};
ghost use Rattle.ps_ports.specs.declared.port_state.PortState.TheVariants as port;
ghost use Rattle.ps_ports.specs.Ports.{is_done, kept_done, kept_state};
ghost use Rattle.ps_turns.specs.Updates.{union_inputs, union_output};
ghost use Rattle.node_states.specs.Views.{NodeView, answer_to, sides_of};
ghost use Rattle.node_states.specs.States.{IsUnion};

use crate::ports;
use ps_ports::port_state::PortState;

/// The state of the first input that isn't done; done where all are.
fn passed(recv: &[PortState]) -> PortState
    ensures { result ≡ union_output recv.now }
{
    for input in recv {
        if !ports::is_done(*input) {
            return *input;
        }
    }
    PortState::Done
}

/// What is answered at an input: the output's state, or blocked behind one that isn't done.
fn answered(given: PortState, is_behind: bool, output: PortState) -> PortState
    ensures { result ≡ kept_state given (cond is_behind port.Blocked output) }
{
    if is_behind {
        ports::kept(given, PortState::Blocked)
    } else {
        ports::kept(given, output)
    }
}

/// Whether the next input stands behind one that isn't done.
fn behind(is_behind: bool, given: PortState) -> bool
    ensures { result ≡ (is_behind || not (is_done given)) }
{
    is_behind || !ports::is_done(given)
}

/// Answers the output's state at the first input that isn't done, and blocked at those behind it.
fn pass_first(recv: &mut [PortState], output: PortState)
    ensures { recv.new ≡ kept_done recv.old (union_inputs output recv.old) }
{
    let mut is_behind = false;
    for input in recv.iter_mut() {
        let given = *input;
        *input = answered(given, is_behind, output);
        is_behind = behind(is_behind, given);
    }
}

/// Answers that it passes its first input that isn't done; later ones are blocked, and without such an input the output
/// is done.
pub fn answer(recv: &mut [PortState], send: &mut [PortState])
    requires output { length send.old ≡ 1 }
    ensures { (n : NodeView) → IsUnion n → sides_of recv.new send.new ≡ answer_to (sides_of recv.old send.old) n }
{
    let input = passed(recv);
    let output = ports::first(send);
    pass_first(recv, output);
    ports::set_one(send, input);
}

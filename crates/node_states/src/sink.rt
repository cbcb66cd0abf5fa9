//! A sink: it takes all of its input.
ghost use Rattle.std.specs.Prelude.{◌≡◌, []};
ghost use Rattle.node_states.specs.Views.{NodeView, answer_to, sides_of};
ghost use Rattle.node_states.specs.States.{IsSink};

use crate::ports;
use ps_ports::port_state::PortState;

/// Answers that its inputs are done where all are given as done, and else ready.
pub fn answer(recv: &mut [PortState])
    ensures { (n : NodeView) → IsSink n → sides_of recv.new [] ≡ answer_to (sides_of recv.old []) n }
{
    let is_over = ports::all_done(recv);
    ports::set_all(recv, ports::done_if(is_over));
}

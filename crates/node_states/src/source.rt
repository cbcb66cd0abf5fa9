//! A source, and an input independent select: they give rows of their own from the start.
ghost use Rattle.std.specs.Prelude.{◌≡◌, [], length};
ghost use Rattle.node_states.specs.Views.{NodeView, answer_to, sides_of};
ghost use Rattle.node_states.specs.States.{IsSource};

use crate::ports;
use ps_ports::port_state::PortState;

/// Answers that its output is done once that is given as done or all was given, and else ready.
pub fn answer(gave_all: bool, send: &mut [PortState])
    requires output { length send.old ≡ 1 }
    ensures { (n : NodeView) → IsSource gave_all n → sides_of [] send.new ≡ answer_to (sides_of [] send.old) n }
{
    ports::set_one(send, ports::done_if(gave_all));
}

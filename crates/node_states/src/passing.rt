//! Filters, selects, projections, row indexes and maps of streamable functions: each morsel is given on as it comes.
ghost use Rattle.std.specs.Prelude.{◌≡◌, length};
ghost use Rattle.ps_ports.specs.Ports.{keeping_done};
ghost use Rattle.ps_turns.specs.Updates.{done_on_both, passing_answer};
ghost use Rattle.node_states.specs.Views.{NodeView, answer_to, sides_of};
ghost use Rattle.node_states.specs.States.{IsPassing};

use crate::ports;
use ps_ports::port_state::PortState;

/// Gives the input the output's state, and the output the input's.
pub fn pass(recv: &mut [PortState], send: &mut [PortState])
    requires input { length recv.old ≡ 1 }
    requires output { length send.old ≡ 1 }
    ensures { sides_of recv.new send.new ≡ keeping_done (sides_of recv.old send.old) (passing_answer (sides_of recv.old send.old)) }
{
    let input = ports::first(recv);
    let output = ports::first(send);
    ports::set_one(recv, output);
    ports::set_one(send, input);
}

/// Answers that all ports are done.
pub fn finish(recv: &mut [PortState], send: &mut [PortState])
    ensures { sides_of recv.new send.new ≡ keeping_done (sides_of recv.old send.old) (done_on_both (sides_of recv.old send.old)) }
{
    ports::set_all(recv, PortState::Done);
    ports::set_all(send, PortState::Done);
}

/// Answers by passing.
pub fn answer(recv: &mut [PortState], send: &mut [PortState])
    requires input { length recv.old ≡ 1 }
    requires output { length send.old ≡ 1 }
    ensures { (n : NodeView) → IsPassing n → sides_of recv.new send.new ≡ answer_to (sides_of recv.old send.old) n }
{
    pass(recv, send);
}

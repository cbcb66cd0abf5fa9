//! A slice from an offset on: it passes until it has booked its rows.
ghost use Rattle.std.specs.Prelude.{◌≡◌, length};
ghost use Rattle.ps_turns.specs.Updates.{slice_is_over};

use crate::passing;
use ps_ports::port_state::PortState;

/// Where a slice begins, how many rows it gives at most, and how many rows it has booked: those that it passed by or
/// claimed.
#[derive(Clone, Copy, Debug, PartialEq, Eq)]
pub struct SliceState {
    pub offset: usize,
    pub length: usize,
    pub booked: usize,
}

impl SliceState {
    ghost use Rattle.node_states.specs.Views.{NodeView, answer_to, sides_of};
    ghost use Rattle.node_states.specs.States.{IsSlice};

    /// Whether it gives no row more.
    pub fn is_over(&self) -> bool
        ensures { result ≡ slice_is_over self.now.offset self.now.length self.now.booked }
    {
        self.length == 0 || self.offset.saturating_add(self.length) <= self.booked
    }

    /// Answers done on both sides once it is over, and passes before.
    pub fn answer(&self, recv: &mut [PortState], send: &mut [PortState])
        requires input { length recv.old ≡ 1 }
        requires output { length send.old ≡ 1 }
        ensures { (n : NodeView) → IsSlice self.now n → sides_of recv.new send.new ≡ answer_to (sides_of recv.old send.old) n }
    {
        if self.is_over() {
            passing::finish(recv, send);
        } else {
            passing::pass(recv, send);
        }
    }
}

//! The slice from an offset on.
ghost use Rattle.std.specs.Prelude.{◌≡◌, ◌+◌, ◌<◌, ◌^◌, length};
ghost use Rattle.node_states.specs.Views.{sides_of};
ghost use Rattle.ps_meaning.specs.Shape.{streaming_slice};
ghost use Rattle.plain_nodes.specs.Seen.{IsNew, Updates};
ghost use Rattle.plain_nodes.specs.Plain as plain;

use node_states::streaming_slice::SliceState;
use ps_ports::port_state::PortState;

/// Gives so many rows of its input from an offset on.
#[derive(Clone, Copy, Debug, PartialEq, Eq)]
pub struct StreamingSliceNode {
    pub(crate) state: SliceState,
}

impl StreamingSliceNode {
    /// The slice of so many rows from this offset on.
    pub fn new(start_offset: usize, length: usize) -> StreamingSliceNode
        ensures { IsNew (streaming_slice start_offset length) (plain.streaming_slice result) }
    {
        StreamingSliceNode {
            state: SliceState {
                offset: start_offset,
                length,
                booked: 0,
            },
        }
    }

    /// Which rows it gives, and how many of its input were claimed.
    pub fn state(&self) -> SliceState
        ensures { result ≡ self.now.state }
    {
        self.state
    }

    /// So many rows more are claimed.
    pub fn book(&mut self, rows: usize)
        requires { self.old.state.booked + rows < 2 ^ 64 }
        ensures { self.new ≡ record self.old { state = record self.old.state { booked = self.old.state.booked + rows } } }
    {
        self.state.booked += rows;
    }

    /// Done on both sides once it has booked its rows; passes before.
    pub fn update(&self, recv: &mut [PortState], send: &mut [PortState])
        requires input { length recv.old ≡ 1 }
        requires output { length send.old ≡ 1 }
        ensures { Updates (plain.streaming_slice self.now) (sides_of recv.old send.old) (plain.streaming_slice self.now) (sides_of recv.new send.new) }
    {
        self.state.answer(recv, send);
    }
}

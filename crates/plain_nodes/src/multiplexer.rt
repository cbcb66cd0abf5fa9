//! The multiplexer.
ghost use Rattle.std.specs.Prelude.{◌≡◌, ◌≤◌, Some, length};
ghost use Rattle.node_states.specs.Views.{sides_of};
ghost use Rattle.ps_meaning.specs.Shape.{multiplexer};
ghost use Rattle.plain_nodes.specs.Seen.{IsNew, Updates, told_empties};
ghost use Rattle.plain_nodes.specs.Plain as plain;

use node_states::multiplexer;
use ps_ports::port_state::PortState;

/// Gives its input to each of its readers.
#[derive(Drop)]
pub struct MultiplexerNode {
    pub(crate) empties: Option<Vec<bool>>,
}

impl MultiplexerNode {
    /// The multiplexer, all of whose pipes are empty.
    pub fn new() -> MultiplexerNode
        ensures { IsNew multiplexer (plain.multiplexer result) }
    {
        MultiplexerNode { empties: None }
    }

    /// Tells it which of the pipes that leave it are empty, by its ports; those behind the end of the list are.
    pub fn see_pipes(&mut self, empties: Vec<bool>)
        ensures { self.new.empties ≡ Some empties }
    {
        self.empties = Some(empties);
    }

    /// What it was told of its pipes.
    fn told(&self) -> &[bool]
        ensures { result.now ≡ told_empties self.now.empties }
    {
        match &self.empties {
            Some(empties) => empties.as_slice(),
            None => &[],
        }
    }

    /// Offers its input to its readers.
    pub fn update(&self, recv: &mut [PortState], send: &mut [PortState])
        requires input { length recv.old ≡ 1 }
        requires outputs { 1 ≤ length send.old }
        ensures { Updates (plain.multiplexer self.now) (sides_of recv.old send.old) (plain.multiplexer self.now) (sides_of recv.new send.new) }
    {
        multiplexer::answer(self.told(), recv, send);
    }
}

//! The union.
ghost use Rattle.std.specs.Prelude.{◌≡◌, ◌≤◌, length};
ghost use Rattle.node_states.specs.Views.{sides_of};
ghost use Rattle.ps_meaning.specs.Shape.{ordered_union};
ghost use Rattle.plain_nodes.specs.Seen.{IsNew, Updates};
ghost use Rattle.plain_nodes.specs.Plain as plain;

use node_states::union_node;
use ps_ports::port_state::PortState;

/// Gives the rows of its inputs, one input after another.
#[derive(Clone, Copy, Debug, PartialEq, Eq)]
pub struct OrderedUnionNode {}

impl OrderedUnionNode {
    /// The union.
    pub fn new() -> OrderedUnionNode
        ensures { IsNew ordered_union (plain.ordered_union result) }
    {
        OrderedUnionNode {}
    }

    /// Passes its first input that isn't done.
    pub fn update(&self, recv: &mut [PortState], send: &mut [PortState])
        requires inputs { 1 ≤ length recv.old }
        requires output { length send.old ≡ 1 }
        ensures { Updates (plain.ordered_union self.now) (sides_of recv.old send.old) (plain.ordered_union self.now) (sides_of recv.new send.new) }
    {
        union_node::answer(recv, send);
    }
}

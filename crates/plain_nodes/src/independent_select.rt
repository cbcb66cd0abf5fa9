//! The select that reads no input.
ghost use Rattle.std.specs.Prelude.{◌≡◌, ◌+◌, ◌<◌, ◌^◌, [], length, map};
ghost use Rattle.node_states.specs.Views.{sides_of};
ghost use Rattle.ps_meaning.specs.Shape.{independent_select};
ghost use Rattle.plain_nodes.specs.Exprs.{expr_shown};
ghost use Rattle.plain_nodes.specs.Seen.{IsNew, Updates};
ghost use Rattle.plain_nodes.specs.Plain as plain;

use crate::stream_expr::StreamExpr;
use node_states::source;
use ps_ports::port_state::PortState;

/// Gives one morsel of the columns of expressions that read no input.
#[derive(Drop)]
pub struct InputIndependentSelectNode {
    pub(crate) selectors: Vec<StreamExpr>,
    pub(crate) sent: usize,
}

impl InputIndependentSelectNode {
    /// The select of these expressions.
    pub fn new(selectors: Vec<StreamExpr>) -> InputIndependentSelectNode
        ensures { IsNew (independent_select (map expr_shown selectors.items)) (plain.independent_select result) }
    {
        InputIndependentSelectNode { selectors, sent: 0 }
    }

    /// The expressions of its columns.
    pub fn selectors(&self) -> &[StreamExpr]
        ensures { result.now ≡ self.now.selectors.items }
    {
        self.selectors.as_slice()
    }

    /// How many of its morsels were claimed.
    pub fn sent(&self) -> usize
        ensures { result ≡ self.now.sent }
    {
        self.sent
    }

    /// Its morsel is claimed.
    pub fn claim(&mut self)
        requires { self.old.sent + 1 < 2 ^ 64 }
        ensures { self.new ≡ record self.old { sent = self.old.sent + 1 } }
    {
        self.sent += 1;
    }

    /// Done once its output is, or its morsel was claimed.
    pub fn update(&self, send: &mut [PortState])
        requires { length send.old ≡ 1 }
        ensures { Updates (plain.independent_select self.now) (sides_of [] send.old) (plain.independent_select self.now) (sides_of [] send.new) }
    {
        source::answer(self.sent > 0, send);
    }
}

//! The reduce.
ghost use Rattle.std.specs.Prelude.{◌≡◌, ◌+◌, ◌<◌, ◌^◌, length, map};
ghost use Rattle.node_states.specs.Views.{sides_of};
ghost use Rattle.ps_meaning.specs.Schemas.{names_of};
ghost use Rattle.ps_meaning.specs.Shape.{reduce};
ghost use Rattle.plain_nodes.specs.Reductions.{reduced};
ghost use Rattle.plain_nodes.specs.Exprs.{expr_shown};
ghost use Rattle.plain_nodes.specs.Seen.{IsNew, Updates};
ghost use Rattle.plain_nodes.specs.Plain as plain;

use crate::reduction::Reduction;
use crate::stream_expr::StreamExpr;
use node_states::keeper::{self, KeeperState};
use node_states::stage::Stage;
use ps_frame::schema::Schema;
use ps_ports::port_state::PortState;

/// Gives one row: the reductions of columns over all of its input.
#[derive(Drop)]
pub struct ReduceNode {
    pub(crate) selectors: Vec<StreamExpr>,
    pub(crate) reductions: Vec<Reduction>,
    pub(crate) output_schema: Schema,
    pub(crate) stage: Stage,
    pub(crate) sent: usize,
}

impl ReduceNode {
    /// The reductions of these expressions, one for each, whose row has this schema.
    pub fn new(
        selectors: Vec<StreamExpr>,
        reductions: Vec<Reduction>,
        output_schema: Schema,
    ) -> ReduceNode
        ensures new { IsNew (reduce (reduced (names_of output_schema) (map expr_shown selectors.items) reductions.items)) (plain.reduce result) }
        ensures output_schema { result.output_schema ≡ output_schema }
    {
        ReduceNode {
            selectors,
            reductions,
            output_schema,
            stage: Stage::Taking,
            sent: 0,
        }
    }

    /// Its stage.
    pub fn stage(&self) -> Stage
        ensures { result ≡ self.now.stage }
    {
        self.stage
    }

    /// Its row is claimed.
    pub fn claim(&mut self)
        requires { self.old.sent + 1 < 2 ^ 64 }
        ensures { self.new ≡ record self.old { sent = self.old.sent + 1 } }
    {
        self.sent += 1;
    }

    /// Takes its input until it is done, and then gives its row.
    pub fn update(&mut self, recv: &mut [PortState], send: &mut [PortState])
        requires input { length recv.old ≡ 1 }
        requires output { length send.old ≡ 1 }
        ensures { Updates (plain.reduce self.old) (sides_of recv.old send.old) (plain.reduce self.new) (sides_of recv.new send.new) }
    {
        let state = KeeperState {
            stage: self.stage,
            gave_all: self.sent > 0,
            is_filled: true,
        };
        let stage = state.next_stage(recv, send);
        keeper::answer(stage, recv, send);
        self.stage = stage;
    }
}

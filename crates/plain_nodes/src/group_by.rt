//! The group-by.
ghost use Rattle.std.specs.Prelude.{◌≡◌, ◌&&◌, ◌+◌, ◌<◌, ◌^◌, cond, drop, length, map, not};
ghost use Rattle.node_states.specs.Stages.{stage_of};
ghost use Rattle.node_states.specs.Views.{sides_of};
ghost use Rattle.ps_meaning.specs.Schemas.{names_of};
ghost use Rattle.ps_meaning.specs.Shape.{group_by_node};
ghost use Rattle.plain_nodes.specs.Cutting.{IsFirstCut};
ghost use Rattle.plain_nodes.specs.Exprs.{expr_shown};
ghost use Rattle.plain_nodes.specs.Reductions.{reduced};
ghost use Rattle.plain_nodes.specs.Seen.{IsNew, Updates};
ghost use Rattle.plain_nodes.specs.Plain as plain;
ghost use Rattle.ps_turns.specs.Progress.{is_giving};

use crate::cutting::first_options;
use crate::reduction::Reduction;
use crate::starting::begins;
use crate::stream_expr::StreamExpr;
use node_states::keeper::{self, KeeperState};
use node_states::stage::Stage;
use ps_frame::schema::Schema;
use ps_options::options::Options;
use ps_ports::port_state::PortState;

/// Gives a row for each distinct value of its keys, with the reductions of columns over the rows that have these keys. It
/// splits the distinct keys into lists, one for each of its partitions, and gives one morsel for each list.
#[derive(Drop)]
pub struct GroupByNode {
    pub(crate) keys: Vec<StreamExpr>,
    pub(crate) selectors: Vec<StreamExpr>,
    pub(crate) reductions: Vec<Reduction>,
    pub(crate) output_schema: Schema,
    pub(crate) options: Options,
    pub(crate) lists: usize,
    pub(crate) stage: Stage,
    pub(crate) sent: usize,
}

impl GroupByNode {
    /// The reductions of these expressions, one for each, over the rows of each key. The schema names the keys first, and
    /// then the reductions.
    pub fn new(
        keys: Vec<StreamExpr>,
        selectors: Vec<StreamExpr>,
        reductions: Vec<Reduction>,
        output_schema: Schema,
    ) -> GroupByNode
        ensures new { IsNew (group_by_node (map expr_shown keys.items) (reduced (drop (length keys.items) (names_of output_schema)) (map expr_shown selectors.items) reductions.items)) (plain.group_by result) }
        ensures output_schema { result.output_schema ≡ output_schema }
        ensures cut { IsFirstCut result.options }
    {
        GroupByNode {
            keys,
            selectors,
            reductions,
            output_schema,
            options: first_options(),
            lists: 0,
            stage: Stage::Taking,
            sent: 0,
        }
    }

    /// Its stage.
    pub fn stage(&self) -> Stage
        ensures { result ≡ self.now.stage }
    {
        self.stage
    }

    /// Its keys are split by these options from now on.
    pub fn cut_by(&mut self, options: Options)
        ensures { self.new ≡ record self.old { options = options } }
    {
        self.options = options;
    }

    /// The rows of one list of keys more are claimed.
    pub fn claim(&mut self)
        requires { self.old.sent + 1 < 2 ^ 64 }
        ensures { self.new ≡ record self.old { sent = self.old.sent + 1 } }
    {
        self.sent += 1;
    }

    /// How many lists of keys it has in a stage: as many as it has partitions once it begins to give.
    fn lists_in(&self, stage: Stage) -> usize
        ensures { result ≡ cond (not (is_giving (stage_of self.now.stage)) && is_giving (stage_of stage)) self.now.options.partitions self.now.lists }
    {
        if begins(self.stage, stage) {
            self.options.partitions()
        } else {
            self.lists
        }
    }

    /// Takes its input until it is done, and then gives the rows of each list of keys.
    pub fn update(&mut self, recv: &mut [PortState], send: &mut [PortState])
        requires input { length recv.old ≡ 1 }
        requires output { length send.old ≡ 1 }
        ensures { Updates (plain.group_by self.old) (sides_of recv.old send.old) (plain.group_by self.new) (sides_of recv.new send.new) }
    {
        let state = KeeperState {
            stage: self.stage,
            gave_all: self.lists <= self.sent,
            is_filled: true,
        };
        let stage = state.next_stage(recv, send);
        self.lists = self.lists_in(stage);
        self.stage = stage;
        keeper::answer(stage, recv, send);
    }
}

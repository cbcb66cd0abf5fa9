//! The join over whole tables.
ghost use Rattle.std.specs.Prelude.{◌≡◌, ◌≢◌, ◌&&◌, ◌+◌, ◌∷◌, ◌<◌, ◌≤◌, ◌⊎◌, ◌^◌, [], Err, IfErr, IfOk, IsTrue, OnErr, OnOk, length, not};
ghost use Rattle.made_tables.specs.Joinable.{CanJoin};
ghost use Rattle.bare_nodes.specs.Bare.{bare_node};
ghost use Rattle.made_tables.specs.Made.{MayBreak};
ghost use Rattle.bare_nodes.specs.Uncalled.{no_functions};
ghost use Rattle.node_states.specs.Stages.{stage_of};
ghost use Rattle.node_states.specs.Views.{sides_of};
ghost use Rattle.ps_frame.specs.Aggregates.{max_rows};
ghost use Rattle.ps_frame.specs.Lawful.{empty_frame, stacked};
ghost use Rattle.ps_frame.specs.Tables.{whole};
ghost use Rattle.ps_frame.specs.declared.error.FrameError.{FrameError};
ghost use Rattle.ps_frame.specs.declared.refusal.PolarsError.{PolarsError};
ghost use Rattle.ps_meaning.specs.Shape.{in_memory_join};
ghost use Rattle.plain_nodes.specs.Cutting.{IsCutFor, IsFirstCut};
ghost use Rattle.plain_nodes.specs.Exprs.{join_shown};
ghost use Rattle.ps_nodes.specs.Seen.{Faults, HasInputsOf, IsNewJoin, Updates, progress_of};
ghost use Rattle.ps_nodes.specs.declared.flow.FlowNode.TheVariants as flow;
ghost use Rattle.ps_ports.specs.Ports.{Sides};
ghost use Rattle.ps_turns.specs.Progress.{is_giving};
ghost use Rattle.ps_turns.specs.Pulls.{after_store};
ghost use Rattle.ps_turns.specs.Results.{IsMade};
ghost use Rattle.ps_turns.specs.Updates.{Turns, stage_after, stored_tables};

use crate::key_copies::copied_sides;
use kept_tables::stored_rows::StoredRows;
use made_tables::join_tables::joined;
use node_states::keeper::{self, KeeperState};
use node_states::stage::Stage;
use plain_nodes::made::MadeTable;
use plain_nodes::starting::begins;
use plain_nodes::stream_expr::StreamExpr;
use ps_frame::error::FrameError;
use ps_frame::frame::DataFrame;
use ps_frame::refusal::PolarsResult;
use ps_frame::schema::Schema;
use ps_meaning::options::JoinArgs;
use ps_options::options::Options;
use ps_ports::port_state::PortState;
use std::alloc::Global;

/// Takes both of its inputs whole first, and then gives what their join has of the columns that it is asked for.
#[derive(Drop)]
pub struct InMemoryJoinNode {
    pub(crate) left: StoredRows,
    pub(crate) right: StoredRows,
    pub(crate) left_on: Vec<StreamExpr>,
    pub(crate) right_on: Vec<StreamExpr>,
    pub(crate) args: JoinArgs,
    pub(crate) output_schema: Schema,
    pub(crate) made: MadeTable,
    pub(crate) stage: Stage,
}

impl InMemoryJoinNode {
    /// The join of inputs with these schemas on these keys. It gives the columns of the output schema.
    pub fn new(
        left: Schema,
        right: Schema,
        left_on: Vec<StreamExpr>,
        right_on: Vec<StreamExpr>,
        args: JoinArgs,
        output_schema: Schema,
    ) -> InMemoryJoinNode
        ensures new { IsNewJoin (join_shown left_on.items right_on.items args) left right output_schema (flow.InMemoryJoin result) }
        ensures cut { IsFirstCut result.made.options }
    {
        InMemoryJoinNode {
            left: StoredRows::new(left),
            right: StoredRows::new(right),
            left_on,
            right_on,
            args,
            output_schema,
            made: MadeTable::new(),
            stage: Stage::Taking,
        }
    }

    /// Its rows are cut by these options from now on.
    pub fn cut_by(&mut self, options: Options)
        ensures { self.new ≡ record self.old { made = record self.old.made { options = options } } }
    {
        self.made.options = options;
    }

    /// It is cut for so many workers from now on, if options may have so many.
    pub(crate) fn cut_for(&mut self, workers: usize)
        ensures cut { IsCutFor workers self.old.made.options self.new.made.options }
        ensures others { self.new ≡ record self.old { made = record self.old.made { options = self.new.made.options } } }
    {
        self.made.cut_for(workers);
    }

    /// Takes a table of its left input. Where that fails it keeps none of that input.
    ///
    /// Fails where the table has another schema, where there are more rows than `u32::MAX`, or for want of memory.
    pub fn store_left(&mut self, alloc: Global, table: &DataFrame) -> Result<(), FrameError>
        ensures kept { OnOk result (self.new ≡ record self.old { left = stacked self.old.left table.now }) }
        ensures stored { OnOk result (stored_tables (progress_of (flow.InMemoryJoin self.new)) ≡ stored_tables (after_store (in_memory_join (join_shown self.old.left_on.items self.old.right_on.items self.old.args)) 0 table.now.rows (progress_of (flow.InMemoryJoin self.old)))) }
        ensures kind { result ≡ Err FrameError.Kind → self.old.left.schema ≢ table.now.schema }
        ensures too_many { result ≡ Err FrameError.Rows → max_rows < length self.old.left.rows + length table.now.rows }
        ensures memory { OnErr result (self.old.left.schema ≡ table.now.schema → length self.old.left.rows + length table.now.rows ≤ max_rows → result ≡ Err FrameError.OutOfMemory) }
        ensures dropped { OnErr result (self.new ≡ record self.old { left = empty_frame self.old.left.schema }) }
    {
        self.left.store(alloc, table)
    }

    /// Takes a table of its right input. Where that fails it keeps none of that input.
    ///
    /// Fails where the table has another schema, where there are more rows than `u32::MAX`, or for want of memory.
    pub fn store_right(&mut self, alloc: Global, table: &DataFrame) -> Result<(), FrameError>
        ensures kept { OnOk result (self.new ≡ record self.old { right = stacked self.old.right table.now }) }
        ensures stored { OnOk result (stored_tables (progress_of (flow.InMemoryJoin self.new)) ≡ stored_tables (after_store (in_memory_join (join_shown self.old.left_on.items self.old.right_on.items self.old.args)) 1 table.now.rows (progress_of (flow.InMemoryJoin self.old)))) }
        ensures kind { result ≡ Err FrameError.Kind → self.old.right.schema ≢ table.now.schema }
        ensures too_many { result ≡ Err FrameError.Rows → max_rows < length self.old.right.rows + length table.now.rows }
        ensures memory { OnErr result (self.old.right.schema ≡ table.now.schema → length self.old.right.rows + length table.now.rows ≤ max_rows → result ≡ Err FrameError.OutOfMemory) }
        ensures dropped { OnErr result (self.new ≡ record self.old { right = empty_frame self.old.right.schema }) }
    {
        self.right.store(alloc, table)
    }

    /// One morsel of its own is claimed.
    pub fn claim(&mut self)
        requires { self.old.made.sent + 1 < 2 ^ 64 }
        ensures { self.new ≡ record self.old { made = record self.old.made { sent = self.old.made.sent + 1 } } }
    {
        self.made.claim();
    }

    /// What it makes of two tables.
    ///
    /// Fails, at no node in particular, by a fault of its keys, by `Rows` where a column of these or what the join gives has
    /// too many rows, or for want of memory.
    fn table_of(
        &self,
        alloc: Global,
        left: &DataFrame,
        right: &DataFrame,
    ) -> PolarsResult<DataFrame>
        requires fit { CanJoin (join_shown self.now.left_on.items self.now.right_on.items self.now.args) left.now.schema right.now.schema self.now.output_schema }
        ensures table { IfOk result (λ f. IsMade no_functions (bare_node (in_memory_join (join_shown self.now.left_on.items self.now.right_on.items self.now.args)) self.now.output_schema) (whole left.now ∷ whole right.now ∷ []) f.rows) }
        ensures fault { IfErr result (λ e. MayBreak no_functions (bare_node (in_memory_join (join_shown self.now.left_on.items self.now.right_on.items self.now.args)) self.now.output_schema) (whole left.now ∷ whole right.now ∷ []) e) }
    {
        // Matches and no `?`, here and below: so what is said of an error is said of the answer.
        let keys = match copied_sides(alloc, self.left_on.as_slice(), self.right_on.as_slice()) {
            Ok(keys) => keys,
            Err(error) => return Err(error),
        };
        joined(
            alloc,
            left,
            right,
            keys.left_on.as_slice(),
            keys.right_on.as_slice(),
            &self.args,
            &keys.exprs,
            &self.output_schema,
        )
    }

    /// Turns into a stage. Where it begins to give, it makes its table first.
    ///
    /// Fails, at no node in particular, by a fault of its keys, by `Rows` where a column of these or what the join gives has
    /// too many rows, or for want of memory.
    fn turn(&mut self, alloc: Global, stage: Stage) -> PolarsResult<()>
        requires fit { CanJoin (join_shown self.old.left_on.items self.old.right_on.items self.old.args) self.old.left.schema self.old.right.schema self.old.output_schema }
        ensures turned { OnOk result ((given : Sides) → stage_of stage ≡ stage_after self.old.made.options (in_memory_join (join_shown self.old.left_on.items self.old.right_on.items self.old.args)) (progress_of (flow.InMemoryJoin self.old)) given → Turns no_functions self.old.made.options (bare_node (in_memory_join (join_shown self.old.left_on.items self.old.right_on.items self.old.args)) self.old.output_schema) (self.old.left.schema ∷ self.old.right.schema ∷ []) given (progress_of (flow.InMemoryJoin self.old)) (progress_of (flow.InMemoryJoin self.new))) }
        ensures others { OnOk result (self.new ≡ record self.old { stage = stage; made = record self.old.made { table = self.new.made.table } }) }
        ensures fault { IfErr result (λ e. MayBreak no_functions (bare_node (in_memory_join (join_shown self.old.left_on.items self.old.right_on.items self.old.args)) self.old.output_schema) (whole self.old.left ∷ whole self.old.right ∷ []) e) }
        ensures begins { OnErr result (IsTrue (not (is_giving (stage_of self.old.stage)) && is_giving (stage_of stage))) }
    {
        if !begins(self.stage, stage) {
            self.stage = stage;
            return Ok(());
        }
        let left = match self.left.table(alloc) {
            Ok(left) => left,
            Err(error) => return Err(error),
        };
        let right = match self.right.table(alloc) {
            Ok(right) => right,
            Err(error) => return Err(error),
        };
        match self.table_of(alloc, &left, &right) {
            Ok(table) => {
                self.made.table = Some(table);
                self.stage = stage;
                Ok(())
            }
            Err(error) => Err(error),
        }
    }

    /// Takes its inputs until both are done, and then gives its table. Where its output is done before, it makes none.
    ///
    /// Fails, at no node in particular, by a fault of its keys, by `Rows` where a column of these or what the join gives has
    /// too many rows, or for want of memory.
    pub fn update(
        &mut self,
        alloc: Global,
        recv: &mut [PortState],
        send: &mut [PortState],
    ) -> PolarsResult<()>
        requires inputs { HasInputsOf (flow.InMemoryJoin self.old) (length recv.old) }
        requires output { length send.old ≡ 1 }
        ensures updated { OnOk result (Updates (flow.InMemoryJoin self.old) (sides_of recv.old send.old) (flow.InMemoryJoin self.new) (sides_of recv.new send.new)) }
        ensures fault { IfErr result (λ e. (e ≡ PolarsError.OutOfMemory) ⊎ Faults (flow.InMemoryJoin self.old) (sides_of recv.old send.old) e) }
    {
        let state = KeeperState {
            stage: self.stage,
            gave_all: self.made.gave_all(),
            is_filled: true,
        };
        let stage = state.next_stage(recv, send);
        match self.turn(alloc, stage) {
            Ok(()) => (),
            Err(error) => return Err(error),
        }
        keeper::answer(stage, recv, send);
        Ok(())
    }
}

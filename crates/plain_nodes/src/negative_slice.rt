//! The slice from so many rows before the end on.
ghost use Rattle.std.specs.Prelude.{◌≡◌, ◌≢◌, ◌+◌, ◌++◌, ◌∷◌, ◌<◌, ◌^◌, [], Contains, Err, OnErr, OnOk, length};
ghost use Rattle.bare_nodes.specs.Bare.{bare_node};
ghost use Rattle.bare_nodes.specs.Uncalled.{no_functions};
ghost use Rattle.node_states.specs.Stages.{stage_of};
ghost use Rattle.node_states.specs.Views.{sides_of};
ghost use Rattle.ps_frame.specs.Aggregates.{max_rows};
ghost use Rattle.ps_frame.specs.Tables.{Frame};
ghost use Rattle.ps_frame.specs.declared.error.FrameError.{FrameError};
ghost use Rattle.ps_frame.specs.declared.refusal.PolarsError.{PolarsError};
ghost use Rattle.ps_meaning.specs.Shape.{negative_slice};
ghost use Rattle.plain_nodes.specs.Cutting.{IsCutFor, IsFirstCut};
ghost use Rattle.kept_tables.specs.Kept.{rows_of_each};
ghost use Rattle.plain_nodes.specs.Seen.{IsNewKeeper, Updates, progress_of};
ghost use Rattle.plain_nodes.specs.Plain as plain;
ghost use Rattle.ps_ports.specs.Ports.{Sides};
ghost use Rattle.ps_turns.specs.Ends.{last_kept};
ghost use Rattle.ps_turns.specs.Heads.{stored_rows};
ghost use Rattle.ps_turns.specs.Pulls.{after_store};
ghost use Rattle.ps_turns.specs.Updates.{Turns, stage_after};

use crate::made::MadeTable;
use crate::starting::begins;
use kept_tables::last_tables::LastTables;
use node_states::keeper::{self, KeeperState};
use node_states::stage::Stage;
use ps_frame::error::FrameError;
use ps_frame::frame::DataFrame;
use ps_frame::refusal::PolarsResult;
use ps_options::options::Options;
use ps_ports::port_state::PortState;
use std::alloc::Global;

/// Gives so many rows of its input from so many before the end on. It keeps the last tables of its input, and counts its
/// rows.
#[derive(Drop)]
pub struct NegativeSliceNode {
    pub(crate) back: u64,
    pub(crate) length: usize,
    pub(crate) input: LastTables,
    pub(crate) booked: u64,
    pub(crate) made: MadeTable,
    pub(crate) stage: Stage,
}

impl NegativeSliceNode {
    /// The slice of so many rows, from so many before the end on.
    pub fn new(back: u64, length: usize) -> NegativeSliceNode
        ensures new { IsNewKeeper (negative_slice back length) [] ([] ∷ []) (plain.negative_slice result) }
        ensures counted { result.booked ≡ 0 }
        ensures cut { IsFirstCut result.made.options }
    {
        NegativeSliceNode {
            back,
            length,
            input: LastTables::new(),
            booked: 0,
            made: MadeTable::new(),
            stage: Stage::Taking,
        }
    }

    /// Its stage.
    pub fn stage(&self) -> Stage
        ensures { result ≡ self.now.stage }
    {
        self.stage
    }

    /// Its rows are cut by these options from now on.
    pub fn cut_by(&mut self, options: Options)
        ensures { self.new ≡ record self.old { made = record self.old.made { options = options } } }
    {
        self.made.options = options;
    }

    /// It is cut for so many workers from now on, if options may have so many.
    pub fn cut_for(&mut self, workers: usize)
        ensures cut { IsCutFor workers self.old.made.options self.new.made.options }
        ensures others { self.new ≡ record self.old { made = record self.old.made { options = self.new.made.options } } }
    {
        self.made.cut_for(workers);
    }

    /// Takes a table of its input, and lets go of those that can't have rows of the slice any more. Where that fails it
    /// keeps none.
    ///
    /// Fails where the table has another schema than those that it keeps, where it would keep more than `u32::MAX` rows,
    /// or for want of memory.
    pub fn store(&mut self, alloc: Global, table: DataFrame) -> Result<(), FrameError>
        requires { self.old.booked + length table.rows < 2 ^ 64 }
        ensures stored { OnOk result (progress_of (plain.negative_slice self.new) ≡ after_store (negative_slice self.old.back self.old.length) 0 table.rows (progress_of (plain.negative_slice self.old))) }
        ensures counted { OnOk result (self.new.booked ≡ self.old.booked + length table.rows) }
        ensures kind { result ≡ Err FrameError.Kind → (f : Frame) × Contains self.old.input f × (f.schema ≢ table.schema) }
        ensures too_many { result ≡ Err FrameError.Rows → max_rows < length (stored_rows (last_kept self.old.back (rows_of_each self.old.input ++ table.rows ∷ []))) }
        ensures dropped { OnErr result (self.new ≡ record self.old { input = [] }) }
        ensures others { self.new ≡ record self.old { input = self.new.input; booked = self.new.booked } }
    {
        let rows = table.height() as u64;
        self.input.store(alloc, self.back, table)?;
        self.booked += rows;
        Ok(())
    }

    /// One morsel of its own is claimed.
    pub fn claim(&mut self)
        requires { self.old.made.sent + 1 < 2 ^ 64 }
        ensures { self.new ≡ record self.old { made = record self.old.made { sent = self.old.made.sent + 1 } } }
    {
        self.made.claim();
    }

    /// Turns into a stage. Where it begins to give, it makes the table of its rows first.
    fn turn(&mut self, alloc: Global, stage: Stage) -> PolarsResult<()>
        ensures turned { OnOk result ((given : Sides) → stage_of stage ≡ stage_after self.old.made.options (negative_slice self.old.back self.old.length) (progress_of (plain.negative_slice self.old)) given → Turns no_functions self.old.made.options (bare_node (negative_slice self.old.back self.old.length) []) [] given (progress_of (plain.negative_slice self.old)) (progress_of (plain.negative_slice self.new))) }
        ensures others { OnOk result (self.new ≡ record self.old { stage = stage; made = record self.old.made { table = self.new.made.table } }) }
        ensures memory { OnErr result (result ≡ Err PolarsError.OutOfMemory) }
    {
        if !begins(self.stage, stage) {
            self.stage = stage;
            return Ok(());
        }
        match self
            .input
            .rows_at_end(alloc, self.booked, self.back, self.length)
        {
            Ok(table) => {
                self.made.table = Some(table);
                self.stage = stage;
                Ok(())
            }
            Err(error) => Err(error),
        }
    }

    /// Takes its input until it is done, and then gives the rows of the slice. Where its output is done before, it makes no
    /// table.
    ///
    /// Fails only for want of memory.
    pub fn update(
        &mut self,
        alloc: Global,
        recv: &mut [PortState],
        send: &mut [PortState],
    ) -> PolarsResult<()>
        requires input { length recv.old ≡ 1 }
        requires output { length send.old ≡ 1 }
        ensures updated { OnOk result (Updates (plain.negative_slice self.old) (sides_of recv.old send.old) (plain.negative_slice self.new) (sides_of recv.new send.new)) }
        ensures memory { OnErr result (result ≡ Err PolarsError.OutOfMemory) }
    {
        let state = KeeperState {
            stage: self.stage,
            gave_all: self.made.gave_all(),
            is_filled: true,
        };
        let stage = state.next_stage(recv, send);
        // A match and no `?`: so what is said of the error is said of the answer.
        match self.turn(alloc, stage) {
            Ok(()) => (),
            Err(error) => return Err(error),
        }
        keeper::answer(stage, recv, send);
        Ok(())
    }
}

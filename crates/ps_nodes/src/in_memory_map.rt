//! The map over a whole table.
ghost use Rattle.std.specs.Prelude.{◌≡◌, ◌≢◌, ◌&&◌, ◌+◌, ◌∷◌, ◌<◌, ◌≤◌, ◌⊎◌, ◌^◌, [], Err, IfErr, IsTrue, OnErr, OnOk, false, length, not};
ghost use Rattle.bare_nodes.specs.Bare.{bare_node};
ghost use Rattle.made_tables.specs.Made.{MayBreak};
ghost use Rattle.bare_nodes.specs.Uncalled.{no_functions};
ghost use Rattle.node_states.specs.Stages.{stage_of};
ghost use Rattle.node_states.specs.Views.{sides_of};
ghost use Rattle.ps_frame.specs.Aggregates.{max_rows};
ghost use Rattle.ps_frame.specs.Lawful.{empty_frame, stacked};
ghost use Rattle.ps_frame.specs.Tables.{Fields, whole};
ghost use Rattle.ps_frame.specs.declared.error.FrameError.{FrameError};
ghost use Rattle.ps_frame.specs.declared.refusal.PolarsError.{PolarsError};
ghost use Rattle.ps_meaning.specs.Shape.{in_memory_map};
ghost use Rattle.ready_steps.specs.Ready.{IsReadyFor};
ghost use Rattle.plain_nodes.specs.Cutting.{IsCutFor, IsFirstCut};
ghost use Rattle.ps_nodes.specs.Fit.{CanMap};
ghost use Rattle.ps_nodes.specs.Seen.{Faults, HasInputsOf, IsNewKeeper, Updates, progress_of};
ghost use Rattle.ps_nodes.specs.declared.flow.FlowNode.TheVariants as flow;
ghost use Rattle.ps_owned_maps.specs.Owned.{is_function, step_of};
ghost use Rattle.ps_ports.specs.Ports.{Sides};
ghost use Rattle.ps_turns.specs.Progress.{is_giving};
ghost use Rattle.ps_turns.specs.Pulls.{after_store};
ghost use Rattle.ps_turns.specs.Updates.{Fills, Turns, is_filled, is_waiting, stage_after, stored_tables};

use kept_tables::stored_rows::StoredRows;
use made_tables::map_tables::{mapped, mapped_alone};
use node_states::keeper::{self, KeeperState};
use node_states::stage::Stage;
use plain_nodes::made::MadeTable;
use plain_nodes::starting::begins;
use ps_frame::error::FrameError;
use ps_frame::frame::DataFrame;
use ps_frame::functions::Functions;
use ps_frame::refusal::PolarsResult;
use ps_frame::schema::Schema;
use ps_options::options::Options;
use ps_owned_maps::owned::OwnedMap;
use ps_ports::port_state::PortState;
use std::alloc::Global;

/// Takes its whole input first, and then gives what a map makes of it. The table of a function that the caller handed in is
/// filled in from outside, where that is at hand.
#[derive(Drop)]
pub struct InMemoryMapNode {
    pub(crate) map: OwnedMap,
    pub(crate) input: StoredRows,
    pub(crate) made: MadeTable,
    pub(crate) stage: Stage,
    pub(crate) waits: bool,
}

impl InMemoryMapNode {
    /// The map over tables of this schema.
    pub fn new(input_schema: Schema, map: OwnedMap) -> InMemoryMapNode
        ensures new { IsNewKeeper (in_memory_map (step_of map)) (input_schema ∷ []) (([] ∷ []) ∷ []) (flow.InMemoryMap result) }
        ensures cut { IsFirstCut result.made.options }
        ensures waits { result.waits ≡ false }
    {
        InMemoryMapNode {
            map,
            input: StoredRows::new(input_schema),
            made: MadeTable::new(),
            stage: Stage::Taking,
            waits: false,
        }
    }

    /// Its rows are cut by these options from now on.
    pub fn cut_by(&mut self, options: Options)
        ensures { self.new ≡ record self.old { made = record self.old.made { options = options } } }
    {
        self.made.options = options;
    }

    /// It is cut for so many workers from now on, if options may have so many.
    pub(crate) fn cut_for(&mut self, workers: usize)
        ensures cut { IsCutFor workers self.old.made.options self.new.made.options }
        ensures others { self.new ≡ record self.old { made = record self.old.made { options = self.new.made.options } } }
    {
        self.made.cut_for(workers);
    }

    /// Takes a table of its input. Where that fails it keeps none.
    ///
    /// Fails where the table has another schema, where there are more rows than `u32::MAX`, or for want of memory.
    pub fn store(&mut self, alloc: Global, table: &DataFrame) -> Result<(), FrameError>
        ensures kept { OnOk result (self.new ≡ record self.old { input = stacked self.old.input table.now }) }
        ensures stored { OnOk result (stored_tables (progress_of (flow.InMemoryMap self.new)) ≡ stored_tables (after_store (in_memory_map (step_of self.old.map)) 0 table.now.rows (progress_of (flow.InMemoryMap self.old)))) }
        ensures kind { result ≡ Err FrameError.Kind → self.old.input.schema ≢ table.now.schema }
        ensures too_many { result ≡ Err FrameError.Rows → max_rows < length self.old.input.rows + length table.now.rows }
        ensures memory { OnErr result (self.old.input.schema ≡ table.now.schema → length self.old.input.rows + length table.now.rows ≤ max_rows → result ≡ Err FrameError.OutOfMemory) }
        ensures dropped { OnErr result (self.new ≡ record self.old { input = empty_frame self.old.input.schema }) }
    {
        self.input.store(alloc, table)
    }

    /// One morsel of its own is claimed.
    pub fn claim(&mut self)
        requires { self.old.made.sent + 1 < 2 ^ 64 }
        ensures { self.new ≡ record self.old { made = record self.old.made { sent = self.old.made.sent + 1 } } }
    {
        self.made.claim();
    }

    /// Whether its last update left it waiting for its table: it is the map of a function that the caller handed in, its
    /// input is done, and its output isn't.
    pub fn waiting(&self) -> bool
        ensures { result ≡ self.now.waits }
    {
        self.waits
    }

    /// Fills in the table of the function that the caller handed in.
    ///
    /// Fails, at no node in particular, by a fault of the function, or for want of memory.
    pub fn fill<F: Functions>(&mut self, alloc: Global, functions: &F) -> PolarsResult<()>
        requires waiting { IsTrue self.old.waits }
        requires fit { (s : Fields) × IsReadyFor (F.told functions.now) (step_of self.old.map) (self.old.input ∷ []) s }
        ensures filled { OnOk result ((given : Sides) → IsTrue (is_waiting (in_memory_map (step_of self.old.map)) (progress_of (flow.InMemoryMap self.old)) given) → Fills (F.told functions.now) (bare_node (in_memory_map (step_of self.old.map)) []) (self.old.input.schema ∷ []) given (progress_of (flow.InMemoryMap self.old)) (progress_of (flow.InMemoryMap self.new))) }
        ensures fault { IfErr result (λ e. MayBreak (F.told functions.now) (bare_node (in_memory_map (step_of self.old.map)) []) (whole self.old.input ∷ []) e) }
        ensures over { OnOk result (self.new.waits ≡ false) }
        ensures others { OnOk result (self.new ≡ record self.old { made = record self.old.made { table = self.new.made.table }; waits = false }) }
        ensures refused { OnErr result (self.new ≡ record self.old { input = self.new.input }) }
        ensures schema { self.new.input.schema ≡ self.old.input.schema }
    {
        // Matches and no `?`: so what is said of the error is said of the answer.
        let input = match self.input.table(alloc) {
            Ok(input) => input,
            Err(error) => return Err(error),
        };
        match mapped(alloc, &self.map, functions, input) {
            Ok(table) => {
                self.made.table = Some(table);
                self.waits = false;
                Ok(())
            }
            Err(error) => Err(error),
        }
    }

    /// Whether it has what it needs before it may give.
    fn is_filled(&self) -> bool
        ensures { result ≡ is_filled (in_memory_map (step_of self.now.map)) (progress_of (flow.InMemoryMap self.now)) }
    {
        !self.map.is_function() || self.made.table.is_some()
    }

    /// Whether it makes its table where it comes into a stage: it begins to give, and its table isn't filled in from outside.
    fn makes_table(&self, stage: Stage) -> bool
        ensures { result ≡ ((not (is_giving (stage_of self.now.stage)) && is_giving (stage_of stage)) && not (is_function (step_of self.now.map))) }
    {
        begins(self.stage, stage) && !self.map.is_function()
    }

    /// Turns into a stage. Where it begins to give, it makes its table first, if that wasn't filled in.
    ///
    /// Fails, at no node in particular, by a fault of its map, by `Rows` where a column has too many rows, or for want of
    /// memory.
    fn turn(&mut self, alloc: Global, stage: Stage) -> PolarsResult<()>
        requires fit { CanMap (step_of self.old.map) self.old.input.schema }
        ensures turned { OnOk result ((given : Sides) → stage_of stage ≡ stage_after self.old.made.options (in_memory_map (step_of self.old.map)) (progress_of (flow.InMemoryMap self.old)) given → Turns no_functions self.old.made.options (bare_node (in_memory_map (step_of self.old.map)) []) (self.old.input.schema ∷ []) given (progress_of (flow.InMemoryMap self.old)) (progress_of (flow.InMemoryMap self.new))) }
        ensures others { OnOk result (self.new ≡ record self.old { stage = stage; made = record self.old.made { table = self.new.made.table } }) }
        ensures fault { IfErr result (λ e. MayBreak no_functions (bare_node (in_memory_map (step_of self.old.map)) []) (whole self.old.input ∷ []) e) }
        ensures begins { OnErr result (IsTrue ((not (is_giving (stage_of self.old.stage)) && is_giving (stage_of stage)) && not (is_function (step_of self.old.map)))) }
    {
        if !self.makes_table(stage) {
            self.stage = stage;
            return Ok(());
        }
        // Matches and no `?`, here and below: so what is said of the error is said of the answer.
        let input = match self.input.table(alloc) {
            Ok(input) => input,
            Err(error) => return Err(error),
        };
        match mapped_alone(alloc, &self.map, input) {
            Ok(table) => {
                self.made.table = Some(table);
                self.stage = stage;
                Ok(())
            }
            Err(error) => Err(error),
        }
    }

    /// Takes its input until it is done, and then gives its table. Where its output is done before, it makes none.
    ///
    /// Fails, at no node in particular, by a fault of its map, by `Rows` where a column has too many rows, or for want of
    /// memory.
    pub fn update(
        &mut self,
        alloc: Global,
        recv: &mut [PortState],
        send: &mut [PortState],
    ) -> PolarsResult<()>
        requires inputs { HasInputsOf (flow.InMemoryMap self.old) (length recv.old) }
        requires output { length send.old ≡ 1 }
        ensures updated { OnOk result (Updates (flow.InMemoryMap self.old) (sides_of recv.old send.old) (flow.InMemoryMap self.new) (sides_of recv.new send.new)) }
        ensures waits { OnOk result (self.new.waits ≡ is_waiting (in_memory_map (step_of self.old.map)) (progress_of (flow.InMemoryMap self.old)) (sides_of recv.old send.old)) }
        ensures fault { IfErr result (λ e. (e ≡ PolarsError.OutOfMemory) ⊎ Faults (flow.InMemoryMap self.old) (sides_of recv.old send.old) e) }
    {
        let state = KeeperState {
            stage: self.stage,
            gave_all: self.made.gave_all(),
            is_filled: self.is_filled(),
        };
        let waits = state.is_waiting(recv, send);
        let stage = state.next_stage(recv, send);
        match self.turn(alloc, stage) {
            Ok(()) => (),
            Err(error) => return Err(error),
        }
        self.waits = waits;
        keeper::answer(stage, recv, send);
        Ok(())
    }
}

//! The last tables of an input, as many as hold the rows that a slice from the end may give.
ghost use Rattle.std.specs.Prelude.{◌≡◌, ◌≢◌, ◌++◌, ◌∷◌, [], ◌<◌, ◌⊎◌, Contains, Err, IfOk, List, OnErr, OnOk, false, length};
ghost use Rattle.ps_frame.specs.Aggregates.{max_rows};
ghost use Rattle.ps_frame.specs.Tables.{Frame};
ghost use Rattle.ps_frame.specs.declared.error.FrameError.{FrameError};
ghost use Rattle.ps_frame.specs.declared.refusal.PolarsError.{PolarsError};
ghost use Rattle.kept_tables.specs.Kept.{rows_of_each, tables_kept};
ghost use Rattle.ps_turns.specs.Ends.{last_kept, rows_at_end};
ghost use Rattle.ps_turns.specs.Heads.{stored_rows};

use ps_frame::error::FrameError;
use ps_frame::frame::DataFrame;
use ps_frame::frame_builder::FrameBuilder;
use ps_frame::refusal::{PolarsError, PolarsResult};
use ps_frame::schema::Schema;
use std::alloc::Global;
use std::collections::VecDeque;
use std::marker::Model;

/// Tables in the order in which they came, and how many rows they have together: at most `u32::MAX`.
#[derive(Drop)]
pub struct LastTables {
    tables: Option<VecDeque<DataFrame>>,
    rows: usize,
}

impl Model for LastTables {
    ghost use Rattle.std.specs.Prelude.{◌≡◌, ◌≤◌, List, length};
    ghost use Rattle.ps_frame.specs.Aggregates.{max_rows};
    ghost use Rattle.ps_frame.specs.Tables.{Frame};
    ghost use Rattle.kept_tables.specs.Kept.{rows_of_each, tables_kept};
    ghost use Rattle.ps_turns.specs.Heads.{stored_rows};

    ghost Value = { List Frame };

    ghost view = { λ a. tables_kept a.tables };

    ghost invariant = { λ a. (a.rows ≡ length (stored_rows (rows_of_each (tables_kept a.tables)))) × (a.rows ≤ max_rows) };
}

/// Whether the table has the schema of the first one that is kept, if one is.
fn fits(tables: &VecDeque<DataFrame>, table: &DataFrame) -> bool
    ensures { result ≡ false → (f : Frame) × Contains tables.now.items f × (f.schema ≢ table.now.schema) }
{
    match tables.front() {
        Some(first) => first.schema().same(table.schema()),
        None => true,
    }
}

/// The table behind those that were kept before.
///
/// Fails where it has another schema than the first of these, or for want of memory.
fn with_table(
    alloc: Global,
    kept: Option<VecDeque<DataFrame>>,
    table: DataFrame,
) -> Result<VecDeque<DataFrame>, FrameError>
    ensures kept { IfOk result (λ tables. tables.items ≡ tables_kept kept ++ table ∷ []) }
    ensures kind { result ≡ Err FrameError.Kind → (f : Frame) × Contains (tables_kept kept) f × (f.schema ≢ table.schema) }
    ensures memory { OnErr result ((result ≡ Err FrameError.Kind) ⊎ (result ≡ Err FrameError.OutOfMemory)) }
{
    let mut tables = match kept {
        Some(tables) => tables,
        None => VecDeque::new(alloc),
    };
    if !fits(&tables, &table) {
        return Err(FrameError::Kind);
    }
    let Ok(()) = tables.push_back(table) else {
        return Err(FrameError::OutOfMemory);
    };
    Ok(tables)
}

/// Lets go of the first tables while those behind them have as many rows as are looked back on. There are so many rows
/// before; it tells how many are left.
fn let_go(tables: &mut VecDeque<DataFrame>, rows: usize, back: u64) -> usize
    requires counted { rows ≡ length (stored_rows (rows_of_each tables.old.items)) }
    ensures kept { rows_of_each tables.new.items ≡ last_kept back (rows_of_each tables.old.items) }
    ensures counted { result ≡ length (stored_rows (rows_of_each tables.new.items)) }
    ensures last { (gone : List Frame) × (gone ++ tables.new.items ≡ tables.old.items) }
{
    let mut left = rows;
    while let Some(first) = tables.front() {
        let behind = left - first.height();
        if (behind as u64) < back {
            break;
        }
        tables.pop_front();
        left = behind;
    }
    left
}

/// The rows of tables of one schema, one table behind the other. Of no tables it is a table without columns.
///
/// Fails only for want of memory.
fn put_together(alloc: Global, tables: &VecDeque<DataFrame>) -> PolarsResult<DataFrame>
    ensures rows { IfOk result (λ f. f.rows ≡ stored_rows (rows_of_each tables.now.items)) }
    ensures memory { OnErr result (result ≡ Err PolarsError.OutOfMemory) }
{
    let Some(first) = tables.front() else {
        let Ok(table) = DataFrame::empty_with_schema(alloc, &Schema::new(alloc)) else {
            return Err(PolarsError::OutOfMemory);
        };
        return Ok(table);
    };
    let Ok(mut builder) = FrameBuilder::new(alloc, first.schema()) else {
        return Err(PolarsError::OutOfMemory);
    };
    for i in 0..tables.len() {
        // They have one schema and at most `u32::MAX` rows, so that memory alone can be wanting.
        builder = match builder.with_table(alloc, &tables[i]) {
            Ok(builder) => builder,
            Err(_error) => return Err(PolarsError::OutOfMemory),
        };
    }
    match builder.finish(alloc) {
        Ok(table) => Ok(table),
        Err(_error) => Err(PolarsError::OutOfMemory),
    }
}

/// The rows of a slice from so many before the end on, as many as asked, where so many rows came in all and the table has
/// the last of them.
///
/// Fails only for want of memory.
fn cut_from_end(
    alloc: Global,
    table: &DataFrame,
    count: u64,
    back: u64,
    length: usize,
) -> PolarsResult<DataFrame>
    ensures rows { IfOk result (λ f. f.rows ≡ rows_at_end back length count table.now.rows) }
    ensures memory { OnErr result (result ≡ Err PolarsError.OutOfMemory) }
{
    // How many rows came before the slice, and how many of the slice's own would stand before the first row that came.
    let before = (count.saturating_sub(back)) as usize;
    let missing = (back.saturating_sub(count)) as usize;
    // How many rows came before the table's: of these the slice gives none.
    let lost = (count as usize).saturating_sub(table.height());
    let start = before.saturating_sub(lost);
    let gone = lost.saturating_sub(before);
    let rows = length.saturating_sub(missing).saturating_sub(gone);
    match table.slice(alloc, start, rows) {
        Ok(part) => Ok(part),
        Err(_error) => Err(PolarsError::OutOfMemory),
    }
}

impl LastTables {
    /// None came yet.
    pub fn new() -> LastTables
        ensures { result ≡ [] }
    {
        LastTables {
            tables: None,
            rows: 0,
        }
    }

    /// Keeps a table behind the others, and lets go of the first ones while those behind them have as many rows as are
    /// looked back on. Where that fails it keeps none.
    ///
    /// Fails where the table has another schema than one that is kept, where more than `u32::MAX` rows would be kept, or
    /// for want of memory.
    pub fn store(&mut self, alloc: Global, back: u64, table: DataFrame) -> Result<(), FrameError>
        ensures kept { OnOk result (rows_of_each self.new ≡ last_kept back (rows_of_each self.old ++ table.rows ∷ [])) }
        ensures last { OnOk result ((gone : List Frame) × (gone ++ self.new ≡ self.old ++ table ∷ [])) }
        ensures kind { result ≡ Err FrameError.Kind → (f : Frame) × Contains self.old f × (f.schema ≢ table.schema) }
        ensures too_many { result ≡ Err FrameError.Rows → max_rows < length (stored_rows (last_kept back (rows_of_each self.old ++ table.rows ∷ []))) }
        ensures dropped { OnErr result (self.new ≡ []) }
    {
        let rows = self.rows;
        self.rows = 0;
        let kept = self.tables.take();
        let height = table.height();
        // A match and no `?`: so what is said of the error is said of the answer.
        let mut tables = match with_table(alloc, kept, table) {
            Ok(tables) => tables,
            Err(error) => return Err(error),
        };
        let rows = let_go(&mut tables, rows + height, back);
        if rows > u32::MAX as usize {
            return Err(FrameError::Rows);
        }
        self.tables = Some(tables);
        self.rows = rows;
        Ok(())
    }

    /// The rows of a slice from so many before the end on, as many as asked, where so many rows came in all.
    ///
    /// Fails only for want of memory.
    pub fn rows_at_end(
        &self,
        alloc: Global,
        count: u64,
        back: u64,
        length: usize,
    ) -> PolarsResult<DataFrame>
        ensures rows { IfOk result (λ f. f.rows ≡ rows_at_end back length count (stored_rows (rows_of_each self.now))) }
        ensures memory { OnErr result (result ≡ Err PolarsError.OutOfMemory) }
    {
        // Matches by hand: behind the conversion of `?` the clauses would lose that memory alone was wanting.
        let table = match &self.tables {
            Some(tables) => put_together(alloc, tables),
            None => put_together(alloc, &VecDeque::new(alloc)),
        };
        match table {
            Ok(table) => cut_from_end(alloc, &table, count, back, length),
            Err(error) => Err(error),
        }
    }
}

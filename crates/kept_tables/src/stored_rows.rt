//! All rows that came of an input, as one table.
ghost use Rattle.std.specs.Prelude.{◌≡◌, ◌≢◌, ◌+◌, ◌<◌, ◌≤◌, Err, IfOk, OnErr, OnOk, Some, length};
ghost use Rattle.ps_frame.specs.Aggregates.{max_rows};
ghost use Rattle.ps_frame.specs.Lawful.{empty_frame, stacked};
ghost use Rattle.ps_frame.specs.declared.error.FrameError.{FrameError};
ghost use Rattle.ps_frame.specs.declared.refusal.PolarsError.{PolarsError};
ghost use Rattle.kept_tables.specs.Stored.{IsUnder, rows_in};

use ps_frame::error::FrameError;
use ps_frame::frame::DataFrame;
use ps_frame::frame_builder::FrameBuilder;
use ps_frame::refusal::{PolarsError, PolarsResult};
use ps_frame::schema::Schema;
use std::alloc::Global;
use std::marker::Model;

/// A table in the making, or one that was made of it.
#[derive(Drop)]
pub enum Kept {
    Growing(FrameBuilder),
    Whole(DataFrame),
}

/// The schema of an input, and the rows that came of it. Contracts see the table that these are.
#[derive(Drop)]
pub struct StoredRows {
    schema: Schema,
    kept: Option<Kept>,
}

impl Model for StoredRows {
    ghost use Rattle.ps_frame.specs.Tables.{Frame};
    ghost use Rattle.kept_tables.specs.Stored.{IsUnder, rows_in};

    ghost Value = { Frame };

    ghost view = { λ a. record { schema = a.schema; rows = rows_in a.kept } };

    ghost invariant = { λ a. IsUnder a.schema a.kept };
}

/// The table in the making, with the rows that were kept.
fn growing(alloc: Global, schema: &Schema, kept: Option<Kept>) -> Result<FrameBuilder, FrameError>
    requires { IsUnder schema.now kept }
    ensures rows { IfOk result (λ b. b ≡ record { schema = schema.now; rows = rows_in kept }) }
    ensures memory { OnErr result (result ≡ Err FrameError.OutOfMemory) }
{
    match kept {
        None => FrameBuilder::new(alloc, schema),
        Some(Kept::Growing(builder)) => Ok(builder),
        Some(Kept::Whole(table)) => {
            let builder = FrameBuilder::new(alloc, schema)?;
            // The schemas are the same, and a table has few enough rows.
            match builder.with_table(alloc, &table) {
                Ok(builder) => Ok(builder),
                Err(_error) => Err(FrameError::OutOfMemory),
            }
        }
    }
}

/// The table of the rows that were kept.
fn whole(alloc: Global, schema: &Schema, kept: Option<Kept>) -> Result<DataFrame, FrameError>
    requires { IsUnder schema.now kept }
    ensures rows { IfOk result (λ t. t ≡ record { schema = schema.now; rows = rows_in kept }) }
    ensures memory { OnErr result (result ≡ Err FrameError.OutOfMemory) }
{
    match kept {
        None => DataFrame::empty_with_schema(alloc, schema),
        Some(Kept::Growing(builder)) => builder.finish(alloc),
        Some(Kept::Whole(table)) => Ok(table),
    }
}

impl StoredRows {
    /// None of an input of this schema.
    pub fn new(schema: Schema) -> StoredRows
        ensures { result ≡ empty_frame schema }
    {
        StoredRows { schema, kept: None }
    }

    /// Keeps the rows of a table behind those that it kept before. Where that fails it keeps none.
    ///
    /// Fails where the table has another schema, where there are more rows than `u32::MAX`, or for want of memory.
    pub fn store(&mut self, alloc: Global, table: &DataFrame) -> Result<(), FrameError>
        ensures kept { OnOk result (self.new ≡ stacked self.old table.now) }
        ensures kind { result ≡ Err FrameError.Kind → self.old.schema ≢ table.now.schema }
        ensures too_many { result ≡ Err FrameError.Rows → max_rows < length self.old.rows + length table.now.rows }
        ensures memory { OnErr result (self.old.schema ≡ table.now.schema → length self.old.rows + length table.now.rows ≤ max_rows → result ≡ Err FrameError.OutOfMemory) }
        ensures dropped { OnErr result (self.new ≡ empty_frame self.old.schema) }
    {
        let kept = self.kept.take();
        let builder = match growing(alloc, &self.schema, kept) {
            Ok(builder) => builder,
            Err(error) => return Err(error),
        };
        match builder.with_table(alloc, table) {
            Ok(builder) => {
                self.kept = Some(Kept::Growing(builder));
                Ok(())
            }
            Err(error) => Err(error),
        }
    }

    /// The table of the rows that it keeps; their values are not copied. Where that fails it keeps none.
    ///
    /// Fails only for want of memory.
    pub fn table(&mut self, alloc: Global) -> PolarsResult<DataFrame>
        ensures table { IfOk result (λ t. t ≡ self.old) }
        ensures kept { OnOk result (self.new ≡ self.old) }
        ensures schema { self.new.schema ≡ self.old.schema }
        ensures memory { OnErr result (result ≡ Err PolarsError.OutOfMemory) }
    {
        let kept = self.kept.take();
        // No `?`: the error of a table is another, and it stands for want of memory alone.
        let Ok(table) = whole(alloc, &self.schema, kept) else {
            return Err(PolarsError::OutOfMemory);
        };
        let Ok(shared) = table.share(alloc) else {
            return Err(PolarsError::OutOfMemory);
        };
        self.kept = Some(Kept::Whole(table));
        Ok(shared)
    }
}

// A table that is made of others, one below the other.
ghost use Rattle.std.specs.Prelude.{◌≡◌, ◌≢◌, ◌<◌, ◌≤◌, ◌+◌, ◌↔◌, Err, IfOk, OnErr, length, map};
ghost use Rattle.ps_frame.specs.Aggregates.{max_rows};
ghost use Rattle.ps_frame.specs.Frames.{all_above, empty_of};
ghost use Rattle.ps_frame.specs.Lawful.{empty_frame, stacked};
ghost use Rattle.ps_frame.specs.Series.{Series};

use crate::builder::ColumnBuilder;
use crate::column::Column;
use crate::error::FrameError;
use crate::frame::DataFrame;
use crate::schema::Schema;
use std::alloc::Global;
use std::marker::Model;

/// A schema, and a column in the making for each of its fields: a table that grows by whole tables.
///
/// However many tables are put one below the other, each of their values is copied at most twice;
/// those of long columns are shared where that is possible.
#[derive(Drop)]
pub struct FrameBuilder {
    schema: Schema,
    columns: Vec<ColumnBuilder>,
    height: usize,
}

impl Model for FrameBuilder {
    ghost use Rattle.ps_frame.specs.Tables.{Frame, rows_of};
    ghost use Rattle.ps_frame.specs.Frames.{IsFrame, column_values};

    ghost Value = { Frame };

    ghost view = { λ a. record { schema = a.schema; rows = rows_of a.height (column_values a.columns.items) } };

    ghost invariant = { λ a. IsFrame a.schema a.columns.items a.height };
}

impl FrameBuilder {
    /// A builder of a table of this schema that has no rows yet.
    ///
    /// Fails only for want of memory.
    pub fn new(alloc: Global, schema: &Schema) -> Result<FrameBuilder, FrameError>
        ensures made { IfOk result (λ builder. builder ≡ empty_frame schema.now) }
        ensures memory { OnErr result (result ≡ Err FrameError.OutOfMemory) }
    {
        let columns = empty_builders(alloc, schema)?;
        let schema = schema.try_share(alloc)?;
        Ok(FrameBuilder {
            schema,
            columns,
            height: 0,
        })
    }

    /// The names and kinds of the columns.
    pub fn schema(&self) -> &Schema
        ensures { result.now ≡ self.now.schema }
    {
        &self.schema
    }

    /// How many rows there are, at most 4,294,967,295.
    pub fn height(&self) -> usize
        ensures rows { result ≡ length self.now.rows }
        ensures counted { result ≤ max_rows }
    {
        self.height
    }

    /// Puts the rows of a table with the same schema at the end.
    ///
    /// The schemas are compared first, and then the heights together are held against the greatest
    /// number of rows, `u32::MAX`; it may also fail for want of memory.
    pub fn with_table(self, alloc: Global, table: &DataFrame) -> Result<FrameBuilder, FrameError>
        ensures added { IfOk result (λ builder. builder ≡ stacked self table.now) }
        ensures kind { (result ≡ Err FrameError.Kind) ↔ (self.schema ≢ table.now.schema) }
        ensures too_many { (result ≡ Err FrameError.Rows) ↔ ((self.schema ≡ table.now.schema) × (max_rows < length self.rows + length table.now.rows)) }
        ensures errors { OnErr result (self.schema ≡ table.now.schema → length self.rows + length table.now.rows ≤ max_rows → result ≡ Err FrameError.OutOfMemory) }
    {
        if !self.schema().same(table.schema()) {
            return Err(FrameError::Kind);
        }
        if self.height() + table.height() > u32::MAX as usize {
            return Err(FrameError::Rows);
        }
        // Not by `?`: the clauses tell want of memory from the refusals above, so it is named here.
        match self.followed_by(alloc, table) {
            Ok(builder) => Ok(builder),
            Err(_) => Err(FrameError::OutOfMemory),
        }
    }

    fn followed_by(self, alloc: Global, table: &DataFrame) -> Result<FrameBuilder, FrameError>
        requires schemas { self.schema ≡ table.now.schema }
        requires small { length self.rows + length table.now.rows ≤ max_rows }
        ensures added { IfOk result (λ builder. builder ≡ stacked self table.now) }
    {
        let FrameBuilder {
            schema,
            columns,
            height,
        } = self;
        let columns = with_columns(alloc, columns, table.get_columns())?;
        let height = height + table.height();
        Ok(FrameBuilder {
            schema,
            columns,
            height,
        })
    }

    /// The table.
    ///
    /// Fails only for want of memory.
    pub fn finish(self, alloc: Global) -> Result<DataFrame, FrameError>
        ensures made { IfOk result (λ table. table ≡ self) }
        ensures memory { OnErr result (result ≡ Err FrameError.OutOfMemory) }
    {
        let FrameBuilder {
            schema,
            columns,
            height,
        } = self;
        let columns = finish_all(alloc, columns)?;
        Ok(DataFrame::new_with_height(alloc, schema, columns, height))
    }
}

fn empty_builders(alloc: Global, schema: &Schema) -> Result<Vec<ColumnBuilder>, FrameError>
    ensures made { IfOk result (λ builders. builders.items ≡ map empty_of schema.now) }
    ensures memory { OnErr result (result ≡ Err FrameError.OutOfMemory) }
{
    let mut builders = Vec::with_capacity(alloc, schema.len())?;
    for i in 0..schema.len() {
        builders.push(ColumnBuilder::new(alloc, schema.kind(i)))?;
    }
    Ok(builders)
}

// Puts the values of each column at the end of the builder at its place.
fn with_columns(
    alloc: Global,
    builders: Vec<ColumnBuilder>,
    columns: &[Column],
) -> Result<Vec<ColumnBuilder>, FrameError>
    requires { map (λ (c : Series). c.kind) builders.items ≡ map (λ (c : Series). c.kind) columns.now }
    ensures added { IfOk result (λ added. added.items ≡ all_above builders.items columns.now) }
{
    let mut added = Vec::with_capacity(alloc, builders.len())?;
    let mut i = 0;
    for builder in builders {
        added.push(builder.with_column(alloc, &columns[i])?)?;
        i += 1;
    }
    Ok(added)
}

fn finish_all(alloc: Global, builders: Vec<ColumnBuilder>) -> Result<Vec<Column>, FrameError>
    ensures made { IfOk result (λ columns. columns.items ≡ builders.items) }
    ensures memory { OnErr result (result ≡ Err FrameError.OutOfMemory) }
{
    let mut columns = Vec::with_capacity(alloc, builders.len())?;
    for builder in builders {
        columns.push(builder.finish(alloc)?)?;
    }
    Ok(columns)
}

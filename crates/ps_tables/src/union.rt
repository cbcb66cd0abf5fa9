// The rows of tables, one table after the other.
ghost use Rattle.std.specs.Prelude.{◌≡◌, ◌≢◌, ◌<◌, ◌≤◌, [], Err, IfErr, IfOk, OnErr, Some, length, map, min, slice_get, ℕ};
ghost use Rattle.std.specs.List.{AllByRecursion};
ghost use Rattle.ps_frame.specs.Aggregates.{max_rows};
ghost use Rattle.ps_frame.specs.Frames.{HasKinds, above, column_values, kinds_of};
ghost use Rattle.ps_frame.specs.Functions.{Functions};
ghost use Rattle.ps_frame.specs.Lawful.{FitsFrame};
ghost use Rattle.ps_frame.specs.Tables.{Frame, values_at};
ghost use Rattle.ps_frame.specs.Zip.{below};
ghost use Rattle.ps_meaning.specs.Nodes.{GivesFrame, MayFault};
ghost use Rattle.ps_meaning.specs.Steps.{union as union_step};
ghost use Rattle.ps_tables.specs.Columns.{all_rows};

use crate::cut::cut;
use crate::fits::tables_fit;
use crate::framed::frame_of_height;
use crate::pass::pass;
use ps_frame::builder::ColumnBuilder;
use ps_frame::column::Column;
use ps_frame::frame::DataFrame;
use ps_frame::refusal::{Bound, PolarsError, PolarsResult};
use ps_frame::schema::Schema;
use ps_frame::value::DataType;
use pu_base::Node;
use std::alloc::Global;

/// The table of a union at the node `at`: the rows of its inputs, which have one schema, one input after the other, of
/// which the slice is taken last. Each column is built once; no value is copied where one input has all the rows.
///
/// Fails where the inputs have more rows than `u32::MAX`, before memory is taken for them, and else only for want of
/// memory.
pub fn union(
    alloc: Global,
    at: Node,
    inputs: &[DataFrame],
    schema: &Schema,
    slice: Option<(i64, usize)>,
) -> PolarsResult<DataFrame>
    requires some { inputs.now ≢ [] }
    requires alike { AllByRecursion (λ (f : Frame). f.schema ≡ schema.now) inputs.now }
    ensures table { IfOk result (λ f. (F : Functions) → GivesFrame F at.0 (union_step slice) inputs.now f) }
    ensures fault { IfErr result (λ e. (F : Functions) → MayFault F at.0 (union_step slice) inputs.now e) }
{
    let height = total_height(inputs);
    if height > u32::MAX as usize {
        return Err(PolarsError::OutOfBounds {
            node: at,
            why: Bound::Rows,
        });
    }
    let rows = one_after_another(alloc, inputs, schema, height)?;
    cut(alloc, rows, slice)
}

// How many rows the tables have together, or the greatest number of 64 bits.
fn total_height(inputs: &[DataFrame]) -> usize
    ensures { result ≡ min (length (all_rows inputs.now)) usize.MAX }
{
    let mut height = 0usize;
    for df in inputs {
        height = height.saturating_add(df.height());
    }
    height
}

// The rows of the tables, of which there are `height`.
fn one_after_another(
    alloc: Global,
    inputs: &[DataFrame],
    schema: &Schema,
    height: usize,
) -> PolarsResult<DataFrame>
    requires alike { AllByRecursion (λ (f : Frame). f.schema ≡ schema.now) inputs.now }
    requires counted { height ≡ length (all_rows inputs.now) }
    requires few { height ≤ max_rows }
    ensures schema { IfOk result (λ f. f.schema ≡ schema.now) }
    ensures rows { IfOk result (λ f. f.rows ≡ all_rows inputs.now) }
    ensures memory { OnErr result (result ≡ Err PolarsError.OutOfMemory) }
{
    for df in inputs {
        if df.height() == height {
            return pass(alloc, df);
        }
    }
    // A law: each row has a value at each place, so columns above one another are the rows after one another.
    tables_fit(inputs);
    let columns = joined_columns(alloc, inputs, schema)?;
    frame_of_height(alloc, schema, columns, height)
}

fn joined_columns(alloc: Global, inputs: &[DataFrame], schema: &Schema) -> PolarsResult<Vec<Column>>
    requires alike { AllByRecursion (λ (f : Frame). f.schema ≡ schema.now) inputs.now }
    ensures kinds { IfOk result (λ columns. HasKinds schema.now columns.items) }
    ensures values { IfOk result (λ columns. column_values columns.items ≡ map (λ i. values_at i (all_rows inputs.now)) (below (length schema.now))) }
    ensures memory { OnErr result (result ≡ Err PolarsError.OutOfMemory) }
{
    let mut columns = Vec::with_capacity(alloc, schema.len())?;
    for i in 0..schema.len() {
        columns.push(joined_column(alloc, inputs, i, schema.kind(i))?)?;
    }
    Ok(columns)
}

// The values of the tables at a place, where each has this kind.
fn joined_column(
    alloc: Global,
    inputs: &[DataFrame],
    i: usize,
    dtype: DataType,
) -> PolarsResult<Column>
    requires place { AllByRecursion (λ (f : Frame). i < length f.schema) inputs.now }
    requires kind { AllByRecursion (λ (f : Frame). slice_get (kinds_of f.schema) i ≡ Some dtype) inputs.now }
    ensures kind { IfOk result (λ c. c.kind ≡ dtype) }
    ensures values { IfOk result (λ c. c.values ≡ values_at i (all_rows inputs.now)) }
    ensures memory { OnErr result (result ≡ Err PolarsError.OutOfMemory) }
{
    let mut builder = ColumnBuilder::new(alloc, dtype);
    for df in inputs {
        builder = with_column(alloc, builder, df.column(i))?;
    }
    finished(alloc, builder)
}

fn with_column(
    alloc: Global,
    builder: ColumnBuilder,
    column: &Column,
) -> PolarsResult<ColumnBuilder>
    requires { builder.kind ≡ column.now.kind }
    ensures added { IfOk result (λ b. b ≡ above builder column.now) }
    ensures memory { OnErr result (result ≡ Err PolarsError.OutOfMemory) }
{
    match builder.with_column(alloc, column) {
        Ok(builder) => Ok(builder),
        Err(_) => Err(PolarsError::OutOfMemory),
    }
}

fn finished(alloc: Global, builder: ColumnBuilder) -> PolarsResult<Column>
    ensures made { IfOk result (λ c. c ≡ builder) }
    ensures memory { OnErr result (result ≡ Err PolarsError.OutOfMemory) }
{
    match builder.finish(alloc) {
        Ok(column) => Ok(column),
        Err(_) => Err(PolarsError::OutOfMemory),
    }
}

// Tables side by side.
ghost use Rattle.std.specs.Prelude.{◌≡◌, ◌≢◌, ◌++◌, ◌≤◌, [], Err, IfOk, OnErr, OnOk, fold, length, map, max, replicate, ℕ};
ghost use Rattle.std.specs.List.{AllByRecursion};
ghost use Rattle.ps_frame.specs.Aggregates.{max_rows};
ghost use Rattle.ps_frame.specs.Frames.{HasKinds, column_values};
ghost use Rattle.ps_frame.specs.Functions.{Functions};
ghost use Rattle.ps_frame.specs.Tables.{Frame};
ghost use Rattle.ps_frame.specs.declared.value.Value.TheVariants as val;
ghost use Rattle.ps_meaning.specs.Nodes.{GivesFrame};
ghost use Rattle.ps_meaning.specs.Schemas.{joined_schemas};
ghost use Rattle.ps_meaning.specs.Steps.{hconcat as hconcat_step};
ghost use Rattle.ps_tables.specs.Columns.{all_values, filled as filled_values, filled_to};

use crate::framed::{column_of_values, frame_of_height, shared};
use ps_frame::column::Column;
use ps_frame::frame::DataFrame;
use ps_frame::refusal::{PolarsError, PolarsResult};
use ps_frame::schema::Schema;
use ps_frame::value::{DataType, Value};
use std::alloc::Global;

/// The table of a hconcat: the columns of its inputs, each of which has some, side by side under the schema of all of
/// them, and filled with nulls to the height of the highest. The values of that one are not copied.
///
/// Fails only for want of memory.
pub fn hconcat(alloc: Global, inputs: &[DataFrame], schema: &Schema) -> PolarsResult<DataFrame>
    requires columns { AllByRecursion (λ (f : Frame). f.schema ≢ []) inputs.now }
    requires joined { schema.now ≡ joined_schemas (map (λ (f : Frame). f.schema) inputs.now) }
    ensures table { IfOk result (λ f. (F : Functions) (at : ℕ) → GivesFrame F at hconcat_step inputs.now f) }
    ensures memory { OnErr result (result ≡ Err PolarsError.OutOfMemory) }
{
    let height = greatest_height(inputs);
    let columns = side_by_side(alloc, inputs, height)?;
    frame_of_height(alloc, schema, columns, height)
}

fn greatest_height(inputs: &[DataFrame]) -> usize
    ensures greatest { result ≡ fold max 0 (map (λ (f : Frame). length f.rows) inputs.now) }
    ensures few { result ≤ max_rows }
{
    let mut height = 0usize;
    for df in inputs {
        height = height.max(df.height());
    }
    height
}

// The columns of the tables, each filled with nulls to a height.
fn side_by_side(alloc: Global, inputs: &[DataFrame], height: usize) -> PolarsResult<Vec<Column>>
    ensures kinds { IfOk result (λ columns. HasKinds (joined_schemas (map (λ (f : Frame). f.schema) inputs.now)) columns.items) }
    ensures values { IfOk result (λ columns. column_values columns.items ≡ map (filled_values height) (all_values inputs.now)) }
    ensures memory { OnErr result (result ≡ Err PolarsError.OutOfMemory) }
{
    let mut columns = Vec::new(alloc);
    for df in inputs {
        push_filled(alloc, &mut columns, df.get_columns(), height)?;
    }
    Ok(columns)
}

fn push_filled(
    alloc: Global,
    columns: &mut Vec<Column>,
    more: &[Column],
    height: usize,
) -> PolarsResult<()>
    ensures added { OnOk result (columns.new.items ≡ columns.old.items ++ map (filled_to height) more.now) }
    ensures memory { OnErr result (result ≡ Err PolarsError.OutOfMemory) }
{
    for column in more {
        columns.push(filled(alloc, column, height)?)?;
    }
    Ok(())
}

fn filled(alloc: Global, column: &Column, height: usize) -> PolarsResult<Column>
    ensures filled { IfOk result (λ c. c ≡ filled_to height column.now) }
    ensures memory { OnErr result (result ≡ Err PolarsError.OutOfMemory) }
{
    if column.len() >= height {
        return shared(alloc, column);
    }
    let nulls = nulls(alloc, column.dtype(), height - column.len())?;
    match column.append(alloc, &nulls) {
        Ok(column) => Ok(column),
        Err(_) => Err(PolarsError::OutOfMemory),
    }
}

fn nulls(alloc: Global, dtype: DataType, count: usize) -> PolarsResult<Column>
    ensures made { IfOk result (λ c. c ≡ record { kind = dtype; values = replicate count val.Null }) }
    ensures memory { OnErr result (result ≡ Err PolarsError.OutOfMemory) }
{
    let values = null_values(alloc, count)?;
    column_of_values(alloc, dtype, values)
}

fn null_values(alloc: Global, count: usize) -> PolarsResult<Vec<Value>>
    ensures values { IfOk result (λ values. values.items ≡ replicate count val.Null) }
    ensures memory { OnErr result (result ≡ Err PolarsError.OutOfMemory) }
{
    let mut values = Vec::with_capacity(alloc, count)?;
    for i in 0..count {
        values.push(Value::Null)?;
    }
    Ok(values)
}

// The rows of a table with their numbers in front.
ghost use Rattle.std.specs.Prelude.{◌≡◌, ◌∷◌, ◌+◌, ◌≤◌, [], Err, IfErr, IfOk, List, OnErr, length, ℕ};
ghost use Rattle.ps_frame.specs.Aggregates.{max_rows};
ghost use Rattle.ps_frame.specs.Functions.{Functions};
ghost use Rattle.ps_frame.specs.declared.value.DataType.TheVariants as kind;
ghost use Rattle.ps_meaning.specs.Nodes.{GivesFrame, MayFault};
ghost use Rattle.ps_meaning.specs.Steps.{row_index as row_index_step};
ghost use Rattle.ps_tables.specs.Numbers.{numbers_from};

use crate::framed::{column_of_values, frame_of_height, shared};
use ps_frame::column::Column;
use ps_frame::frame::DataFrame;
use ps_frame::refusal::{Bound, PolarsError, PolarsResult};
use ps_frame::schema::Schema;
use ps_frame::value::{DataType, Value};
use pu_base::Node;
use std::alloc::Global;

/// The table of a row index at the node `at`: the number of each row, counted from the offset, and then its values.
/// The schema is that of the table behind the name of the numbers. The values of the table are not copied.
///
/// Row i has a number where offset + i + 1 is at most `u32::MAX`. Where one has none the call fails, and else only for
/// want of memory.
pub fn row_index(
    alloc: Global,
    at: Node,
    offset: Option<u32>,
    df: &DataFrame,
    schema: &Schema,
) -> PolarsResult<DataFrame>
    requires { (name : List ℕ) × (schema.now ≡ (name, kind.IdxSize) ∷ df.now.schema) }
    ensures table { IfOk result (λ f. (F : Functions) (name : List ℕ) → schema.now ≡ (name, kind.IdxSize) ∷ df.now.schema → GivesFrame F at.0 (row_index_step name offset) (df.now ∷ []) f) }
    ensures fault { IfErr result (λ e. (F : Functions) (name : List ℕ) → MayFault F at.0 (row_index_step name offset) (df.now ∷ []) e) }
{
    let first = offset.unwrap_or(0);
    let height = df.height();
    if height > (u32::MAX - first) as usize {
        return Err(PolarsError::OutOfBounds {
            node: at,
            why: Bound::RowIndex,
        });
    }
    let numbers = numbers(alloc, first, height)?;
    let columns = in_front(alloc, numbers, df.get_columns())?;
    frame_of_height(alloc, schema, columns, height)
}

// The numbers from one on, as many as asked.
fn numbers(alloc: Global, first: u32, count: usize) -> PolarsResult<Column>
    requires { first + count ≤ max_rows }
    ensures kind { IfOk result (λ c. c.kind ≡ kind.IdxSize) }
    ensures values { IfOk result (λ c. c.values ≡ numbers_from first count) }
    ensures memory { OnErr result (result ≡ Err PolarsError.OutOfMemory) }
{
    let values = number_values(alloc, first, count)?;
    column_of_values(alloc, DataType::IdxSize, values)
}

fn number_values(alloc: Global, first: u32, count: usize) -> PolarsResult<Vec<Value>>
    requires { first + count ≤ max_rows }
    ensures values { IfOk result (λ values. values.items ≡ numbers_from first count) }
    ensures memory { OnErr result (result ≡ Err PolarsError.OutOfMemory) }
{
    let mut values = Vec::with_capacity(alloc, count)?;
    for i in 0..count {
        values.push(Value::IdxSize(first + i as u32))?;
    }
    Ok(values)
}

// A column, and the columns of a table behind it; their values are not copied.
fn in_front(alloc: Global, first: Column, others: &[Column]) -> PolarsResult<Vec<Column>>
    ensures columns { IfOk result (λ columns. columns.items ≡ first ∷ others.now) }
    ensures memory { OnErr result (result ≡ Err PolarsError.OutOfMemory) }
{
    let mut columns = Vec::with_capacity(alloc, others.len() + 1)?;
    columns.push(first)?;
    for column in others {
        columns.push(shared(alloc, column)?)?;
    }
    Ok(columns)
}

// The functions over tables that the program hands in.
ghost use Rattle.std.specs.Prelude.{◌≡◌, map, reverse as reverse_list, IfOk};
ghost use Rattle.tool_ends.specs.ToolAnswers.{negated, negated_of, negated_value, reversed, reversed_of, tool_answer};

use ps_frame::column::Column;
use ps_frame::error::FrameError;
use ps_frame::frame::DataFrame;
use ps_frame::functions::{CallError, Functions};
use ps_frame::schema::Schema;
use ps_frame::value::Value;
use std::alloc::Global;

/// Function 0 negates the whole numbers, where the least one stays itself, and may be given its rows
/// in parts. Function 1 reverses the rows. Both keep the schema, and fail only for want of memory.
#[derive(Clone, Copy, Debug)]
pub struct ToolFunctions;

impl Functions for ToolFunctions {
    ghost use Rattle.std.specs.Prelude.{Some, ◌==◌, refl};
    ghost use Rattle.tool_ends.specs.ToolAnswers.{tool_answer};
    ghost use Rattle.tool_ends.specs.ToolLaws.{answers_keep_rows, answers_keep_schema, empty_streams, parts_stream};

    ghost told = { λ _. record { count = 2; streams = λ n. n == 0; answer = λ n f. Some (tool_answer n f); declared = λ n s. Some s } };

    fn count(&self) -> usize {
        2
    }

    fn streamable(&self, n: usize) -> bool {
        n == 0
    }

    fn schema(&self, alloc: Global, _n: usize, given: &Schema) -> Result<Schema, CallError> {
        // By hand, as in `call`: a table's error is no error of a call.
        match given.try_clone(alloc) {
            Ok(schema) => Ok(schema),
            Err(_) => Err(CallError::OutOfMemory),
        }
    }

    fn call(&self, alloc: Global, n: usize, df: DataFrame) -> Result<DataFrame, CallError> {
        // By hand, since these functions have no fault: what fails is memory.
        match answer_of(alloc, n, &df) {
            Ok(table) => Ok(table),
            Err(_) => Err(CallError::OutOfMemory),
        }
    }

    ghost lawful = { λ _. record {
      keeps_schema = answers_keep_schema;
      keeps_rows = answers_keep_rows;
      streams_empty = empty_streams;
      streams_parts = parts_stream;
    } };

    ghost fixed = { λ _ _. record { streams = refl; answer = refl; declared = refl } };
}

fn answer_of(alloc: Global, n: usize, df: &DataFrame) -> Result<DataFrame, FrameError>
    ensures { IfOk result (λ f. f ≡ tool_answer n df.now) }
{
    if n == 0 {
        negate(alloc, df)
    } else {
        reverse(alloc, df)
    }
}

fn negate(alloc: Global, df: &DataFrame) -> Result<DataFrame, FrameError>
    ensures { IfOk result (λ f. f ≡ negated df.now) }
{
    let columns = df.get_columns();
    if columns.is_empty() {
        return df.share(alloc);
    }
    let done = negate_all(alloc, columns)?;
    let schema = df.schema().try_clone(alloc)?;
    DataFrame::new(alloc, schema, done)
}

fn reverse(alloc: Global, df: &DataFrame) -> Result<DataFrame, FrameError>
    ensures { IfOk result (λ f. f ≡ reversed df.now) }
{
    let columns = df.get_columns();
    if columns.is_empty() {
        return df.share(alloc);
    }
    let done = reverse_all(alloc, columns)?;
    let schema = df.schema().try_clone(alloc)?;
    DataFrame::new(alloc, schema, done)
}

fn negate_all(alloc: Global, columns: &[Column]) -> Result<Vec<Column>, FrameError>
    ensures { IfOk result (λ done. done.items ≡ map negated_of columns.now) }
{
    let mut done = Vec::with_capacity(alloc, columns.len())?;
    for column in columns {
        let run = column.run(alloc)?;
        let values = negate_values(alloc, run.as_slice())?;
        done.push(Column::new(alloc, column.dtype(), values)?)?;
    }
    Ok(done)
}

fn reverse_all(alloc: Global, columns: &[Column]) -> Result<Vec<Column>, FrameError>
    ensures { IfOk result (λ done. done.items ≡ map reversed_of columns.now) }
{
    let mut done = Vec::with_capacity(alloc, columns.len())?;
    for column in columns {
        let run = column.run(alloc)?;
        let values = reverse_values(alloc, run.as_slice())?;
        done.push(Column::new(alloc, column.dtype(), values)?)?;
    }
    Ok(done)
}

fn negate_values(alloc: Global, values: &[Value]) -> Result<Vec<Value>, FrameError>
    ensures { IfOk result (λ done. done.items ≡ map negated_value values.now) }
{
    let mut done = Vec::with_capacity(alloc, values.len())?;
    for value in values {
        done.push(negate_value(alloc, value)?)?;
    }
    Ok(done)
}

fn negate_value(alloc: Global, value: &Value) -> Result<Value, FrameError>
    ensures { IfOk result (λ v. v ≡ negated_value value.now) }
{
    match value {
        Value::Null => Ok(Value::Null),
        Value::Boolean(b) => Ok(Value::Boolean(*b)),
        Value::Int64(z) => Ok(Value::Int64(z.wrapping_neg())),
        Value::IdxSize(n) => Ok(Value::IdxSize(*n)),
        Value::String(_) => value.try_clone(alloc),
    }
}

fn reverse_values(alloc: Global, values: &[Value]) -> Result<Vec<Value>, FrameError>
    ensures { IfOk result (λ done. done.items ≡ reverse_list values.now) }
{
    let mut done = Vec::with_capacity(alloc, values.len())?;
    for value in values {
        done.push(value.try_clone(alloc)?)?;
    }
    done.reverse();
    Ok(done)
}

// Tables of whole numbers that look as if drawn by lot.
ghost use Rattle.std.specs.Prelude.{◌≡◌, IfOk};
ghost use Rattle.node_bench.specs.Works.{bench_schema};

use ps_frame::column::Column;
use ps_frame::error::FrameError;
use ps_frame::frame::DataFrame;
use ps_frame::schema::Schema;
use ps_frame::value::{DataType, Value};
use pu_base::PlSmallStr;
use std::alloc::Global;

/// How many keys the table has that others are joined with.
pub const KEYS: u32 = 10_000;

/// What is told of a table or of a column: how many rows it has, and a number that another value at most places would
/// change.
#[derive(Clone, Copy, Debug)]
pub struct Summary {
    pub rows: usize,
    pub checksum: u64,
}

fn name(alloc: Global, text: &str) -> Result<PlSmallStr, FrameError>
    ensures { IfOk result (λ name. name ≡ text.now) }
{
    match PlSmallStr::from_str(alloc, text) {
        Ok(name) => Ok(name),
        Err(_error) => Err(FrameError::OutOfMemory),
    }
}

// A number below a bound, or 0. Of so many rows as the bound, each has another one, unless 7919 divides the bound.
fn spread(row: u32, bound: u32) -> i64 {
    let number = (u64::from(row) * 7919)
        .checked_rem(u64::from(bound))
        .unwrap_or(0);
    i64::try_from(number).unwrap_or(0)
}

// The numbers of so many rows.
fn numbers(alloc: Global, rows: u32, bound: u32) -> Result<Column, FrameError> {
    let mut values = Vec::with_capacity(alloc, rows as usize)?;
    for row in 0..rows {
        values.push(Value::Int64(spread(row, bound)))?;
    }
    Column::new(alloc, DataType::Int64, values)
}

// Numbers of 32 bits.
fn drawn(alloc: Global, rows: u32) -> Result<Column, FrameError> {
    let mut values = Vec::with_capacity(alloc, rows as usize)?;
    for row in 0..rows {
        values.push(Value::Int64(i64::from(row.wrapping_mul(2_654_435_761))))?;
    }
    Column::new(alloc, DataType::Int64, values)
}

// The decimals of numbers.
fn texts(alloc: Global, rows: u32) -> Result<Column, FrameError> {
    let mut values = Vec::with_capacity(alloc, rows as usize)?;
    for row in 0..rows {
        let text = format!(in alloc; "{}", row.wrapping_mul(2_654_435_761))?;
        values.push(Value::of_text(alloc, text.as_str())?)?;
    }
    Column::new(alloc, DataType::String, values)
}

fn schema(alloc: Global) -> Result<Schema, FrameError>
    ensures { IfOk result (λ schema. schema ≡ bench_schema) }
{
    let mut schema = Schema::new(alloc);
    schema.push(alloc, name(alloc, "few")?, DataType::Int64)?;
    schema.push(alloc, name(alloc, "many")?, DataType::Int64)?;
    schema.push(alloc, name(alloc, "key")?, DataType::Int64)?;
    schema.push(alloc, name(alloc, "value")?, DataType::Int64)?;
    schema.push(alloc, name(alloc, "text")?, DataType::String)?;
    Ok(schema)
}

fn columns(alloc: Global, rows: u32) -> Result<Vec<Column>, FrameError> {
    let mut columns = Vec::new(alloc);
    columns.push(numbers(alloc, rows, 7)?)?;
    columns.push(numbers(alloc, rows, 100_000)?)?;
    columns.push(numbers(alloc, rows, KEYS)?)?;
    columns.push(drawn(alloc, rows)?)?;
    columns.push(texts(alloc, rows)?)?;
    Ok(columns)
}

/// The table of so many rows: 7 values in `few`, 100,000 in `many`, 10,000 in `key`, others in each row of `value`, whose
/// decimals are in `text`. It fails only for want of memory.
pub fn make(alloc: Global, rows: u32) -> Result<DataFrame, FrameError>
    ensures { IfOk result (λ table. table.schema ≡ bench_schema) }
{
    DataFrame::new(alloc, schema(alloc)?, columns(alloc, rows)?)
}

/// A table of 10,000 keys, each in one row. It fails only for want of memory.
pub fn keyed(alloc: Global) -> Result<DataFrame, FrameError> {
    let mut schema = Schema::new(alloc);
    schema.push(alloc, name(alloc, "key")?, DataType::Int64)?;
    schema.push(alloc, name(alloc, "other")?, DataType::Int64)?;
    let mut columns = Vec::new(alloc);
    columns.push(numbers(alloc, KEYS, KEYS)?)?;
    columns.push(drawn(alloc, KEYS)?)?;
    DataFrame::new(alloc, schema, columns)
}

/// A number that another value would mostly change.
pub fn weight(value: &Value) -> u64 {
    match value {
        Value::Null => 1,
        Value::Boolean(holds) => u64::from(*holds),
        Value::Int64(number) => number.unsigned_abs(),
        Value::IdxSize(id) => u64::from(*id),
        Value::String(text) => text.as_bytes().iter().fold(
            0,
            |sum: u64, byte| sum.wrapping_mul(31).wrapping_add(u64::from(*byte)),
        ),
    }
}

/// What is told of a table.
pub fn summarize(df: &DataFrame) -> Summary {
    let mut checksum: u64 = 0;
    for column in df.get_columns() {
        for i in 0..column.len() {
            checksum = checksum
                .wrapping_mul(31)
                .wrapping_add(weight(column.value(i)));
        }
    }
    Summary {
        rows: df.height(),
        checksum,
    }
}

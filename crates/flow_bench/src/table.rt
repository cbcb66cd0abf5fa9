// Tables of two columns of whole numbers: ids from 0 on, and their rest by 7.
use ps_frame::column::Column;
use ps_frame::error::FrameError;
use ps_frame::frame::DataFrame;
use ps_frame::schema::Schema;
use ps_frame::value::{DataType, Value};
use pu_base::PlSmallStr;
use std::alloc::Global;

/// What is told of a table: how many rows it has, and a number that another value at most places would change.
#[derive(Clone, Copy, Debug)]
pub struct Summary {
    pub rows: usize,
    pub checksum: u64,
}

fn name(alloc: Global, text: &str) -> Result<PlSmallStr, FrameError> {
    match PlSmallStr::from_str(alloc, text) {
        Ok(name) => Ok(name),
        Err(_error) => Err(FrameError::OutOfMemory),
    }
}

// The ids of so many rows.
fn ids(alloc: Global, rows: u32) -> Result<Column, FrameError> {
    let mut values = Vec::with_capacity(alloc, rows as usize)?;
    for row in 0..rows {
        values.push(Value::Int64(i64::from(row)))?;
    }
    Column::new(alloc, DataType::Int64, values)
}

// What is left of the ids of so many rows, divided by 7.
fn rests(alloc: Global, rows: u32) -> Result<Column, FrameError> {
    let mut values = Vec::with_capacity(alloc, rows as usize)?;
    for row in 0..rows {
        values.push(Value::Int64(i64::from(row % 7)))?;
    }
    Column::new(alloc, DataType::Int64, values)
}

/// The table of so many rows. It fails only for want of memory.
pub fn make(alloc: Global, rows: u32) -> Result<DataFrame, FrameError> {
    let mut schema = Schema::new(alloc);
    schema.push(alloc, name(alloc, "id")?, DataType::Int64)?;
    schema.push(alloc, name(alloc, "k")?, DataType::Int64)?;
    let mut columns = Vec::new(alloc);
    columns.push(ids(alloc, rows)?)?;
    columns.push(rests(alloc, rows)?)?;
    DataFrame::new(alloc, schema, columns)
}

fn weight(value: &Value) -> u64 {
    match value {
        Value::Int64(number) => number.unsigned_abs(),
        _ => 1,
    }
}

/// What is told of a table.
pub fn summarize(df: &DataFrame) -> Summary {
    let mut checksum: u64 = 0;
    for column in df.get_columns() {
        for i in 0..column.len() {
            checksum = checksum
                .wrapping_mul(31)
                .wrapping_add(weight(column.value(i)));
        }
    }
    Summary {
        rows: df.height(),
        checksum,
    }
}

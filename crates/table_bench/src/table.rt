// Tables of three columns: whole numbers, ids, and texts of 8 letters.
ghost use Rattle.std.specs.Prelude.{◌≡◌, length, IfOk};
ghost use Rattle.ps_frame.specs.declared.value.DataType.TheVariants as kind;

use ps_frame::column::Column;
use ps_frame::error::FrameError;
use ps_frame::frame::DataFrame;
use ps_frame::schema::Schema;
use ps_frame::value::{DataType, Value};
use pu_base::PlSmallStr;
use std::alloc::Global;

const LETTERS: usize = 8;

fn name(alloc: Global, text: &str) -> Result<PlSmallStr, FrameError> {
    match PlSmallStr::from_str(alloc, text) {
        Ok(name) => Ok(name),
        // A text's own error doesn't convert by `?`; it is want of memory alone.
        Err(_) => Err(FrameError::OutOfMemory),
    }
}

// A whole number that looks as if drawn by lot.
fn number(row: u32) -> i64 {
    i64::from(row.wrapping_mul(2_654_435_761)) - 2_147_483_648
}

// A text of 8 letters that looks as if drawn by lot.
fn letters(alloc: Global, row: u32) -> Result<String, FrameError> {
    let mut text = String::with_capacity(alloc, LETTERS)?;
    let mut rest = u64::from(row).wrapping_mul(0x9E37_79B9_7F4A_7C15);
    for _ in 0..LETTERS {
        text.push(char::from(b'a' + (rest % 26) as u8))?;
        rest /= 26;
    }
    Ok(text)
}

fn numbers(alloc: Global, rows: u32) -> Result<Column, FrameError> {
    let mut values = Vec::with_capacity(alloc, rows as usize)?;
    for row in 0..rows {
        values.push(Value::Int64(number(row)))?;
    }
    Column::new(alloc, DataType::Int64, values)
}

fn ids(alloc: Global, rows: u32) -> Result<Column, FrameError> {
    let mut values = Vec::with_capacity(alloc, rows as usize)?;
    for row in 0..rows {
        values.push(Value::IdxSize(row))?;
    }
    Column::new(alloc, DataType::IdxSize, values)
}

fn texts(alloc: Global, rows: u32) -> Result<Column, FrameError> {
    let mut values = Vec::with_capacity(alloc, rows as usize)?;
    for row in 0..rows {
        let text = letters(alloc, row)?;
        values.push(Value::of_text(alloc, text.as_str())?)?;
    }
    Column::new(alloc, DataType::String, values)
}

/// The table of so many rows. It fails only for want of memory.
pub fn make(alloc: Global, rows: u32) -> Result<DataFrame, FrameError> {
    let mut schema = Schema::new(alloc);
    schema.push(alloc, name(alloc, "number")?, DataType::Int64)?;
    schema.push(alloc, name(alloc, "id")?, DataType::IdxSize)?;
    schema.push(alloc, name(alloc, "text")?, DataType::String)?;
    let mut columns = Vec::new(alloc);
    columns.push(numbers(alloc, rows)?)?;
    columns.push(ids(alloc, rows)?)?;
    columns.push(texts(alloc, rows)?)?;
    DataFrame::new(alloc, schema, columns)
}

/// A mask of so many truth values, that is true at each row, or at every second one.
pub fn mask(alloc: Global, rows: usize, each: bool) -> Result<Column, FrameError>
    ensures kind { IfOk result (λ c. c.kind ≡ kind.Boolean) }
    ensures rows { IfOk result (λ c. length c.values ≡ rows) }
{
    let mut values = Vec::with_capacity(alloc, rows)?;
    for row in 0..rows {
        values.push(Value::Boolean(each || row % 2 == 0))?;
    }
    Column::new(alloc, DataType::Boolean, values)
}

fn weight(value: &Value) -> u64 {
    match value {
        Value::Null => 1,
        Value::Boolean(holds) => u64::from(*holds),
        Value::Int64(number) => number.unsigned_abs(),
        Value::IdxSize(id) => u64::from(*id),
        Value::String(text) => text.as_bytes().iter().fold(
            0,
            |sum: u64, byte| sum.wrapping_mul(31).wrapping_add(u64::from(*byte)),
        ),
    }
}

/// A number that another value at most places would change.
pub fn checksum(df: &DataFrame) -> u64 {
    let mut sum: u64 = 0;
    for column in df.get_columns() {
        for i in 0..column.len() {
            sum = sum.wrapping_mul(31).wrapping_add(weight(column.value(i)));
        }
    }
    sum
}

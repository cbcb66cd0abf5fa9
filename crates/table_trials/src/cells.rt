// Columns of cells that a few words tell, as `cells 2000 among 7 nulls 5`, and what stands in them.
use ps_frame::builder::ColumnBuilder;
use ps_frame::column::Column;
use ps_frame::error::FrameError;
use ps_frame::value::{DataType, Value};
use std::alloc::{AllocError, Global};

/// What stands in the cells of a column.
#[derive(Clone, Copy)]
pub struct Cells {
    /// How many cells there are beside nulls.
    count: u32,
    /// The first number.
    first: u32,
    /// How often each comes in a row.
    each: u32,
    /// After how many numbers the first comes again.
    among: u32,
    /// Each so manieth cell has the first number.
    zeros: u32,
    /// Behind each so many cells comes a null.
    nulls: u32,
    /// Whether the whole numbers are chosen so that their hashes are near each other.
    chosen: bool,
}

/// The number behind a word, where it stands in a text.
pub fn number_behind(text: &str, word: &str) -> Option<u32> {
    let (_, rest) = text.split_once(word)?;
    match rest.split_once(" ") {
        Some((number, _)) => number.parse::<u32>().ok(),
        None => rest.parse::<u32>().ok(),
    }
}

impl Cells {
    /// The cells of a text, which names what isn't usual.
    pub fn of_text(text: &str) -> Cells {
        Cells {
            count: number_behind(text, "cells ").unwrap_or(0),
            first: number_behind(text, "from ").unwrap_or(0),
            each: number_behind(text, "each ").unwrap_or(1),
            among: number_behind(text, "among ").unwrap_or(u32::MAX),
            zeros: number_behind(text, "zeros ").unwrap_or(u32::MAX),
            nulls: number_behind(text, "nulls ").unwrap_or(u32::MAX),
            chosen: text.split_once("chosen").is_some(),
        }
    }

    fn number_at(&self, i: u32) -> u32 {
        if is_last_of(i, self.zeros) {
            return self.first;
        }
        let turn = i.checked_div(self.each).unwrap_or(0);
        self.first
            .saturating_add(turn.checked_rem(self.among).unwrap_or(0))
    }

    // Chosen, or else every other one below 0.
    fn int(&self, number: u32) -> i64 {
        let int = i64::from(number);
        if self.chosen {
            int.wrapping_mul(-1018231460777725123)
        } else if number % 2 == 0 {
            int
        } else {
            -int
        }
    }
}

fn is_last_of(i: u32, each: u32) -> bool {
    i.checked_rem(each) == each.checked_sub(1)
}

// Every other text is longer than eight bytes.
fn word_of(alloc: Global, number: u32) -> Result<String, AllocError> {
    if number % 2 == 0 {
        format!(in alloc; "{number}")
    } else {
        format!(in alloc; "customer number {number}")
    }
}

// The i-th value.
fn value(alloc: Global, dtype: DataType, cells: Cells, i: u32) -> Result<Value, FrameError> {
    let number = cells.number_at(i);
    match dtype {
        DataType::Int64 => Ok(Value::Int64(cells.int(number))),
        DataType::String => {
            let word = word_of(alloc, number)?;
            Value::of_text(alloc, word.as_str())
        }
        DataType::IdxSize => Ok(Value::IdxSize(number)),
        DataType::Boolean => Ok(Value::Boolean(number % 2 == 1)),
    }
}

fn by_values(alloc: Global, dtype: DataType, cells: Cells) -> Result<Column, FrameError> {
    let mut values = Vec::new(alloc);
    for i in 0..cells.count {
        values.push(value(alloc, dtype, cells, i)?)?;
        if is_last_of(i, cells.nulls) {
            values.push(Value::Null)?;
        }
    }
    Column::new(alloc, dtype, values)
}

/// Pushes a value.
pub fn push(alloc: Global, builder: &mut ColumnBuilder, value: Value) -> Result<(), FrameError> {
    builder.push(alloc, value)
}

/// The cells as a column, each pushed as a value.
pub fn by_pushes(alloc: Global, dtype: DataType, cells: Cells) -> Result<Column, FrameError> {
    let mut builder = ColumnBuilder::new(alloc, dtype);
    for i in 0..cells.count {
        push(alloc, &mut builder, value(alloc, dtype, cells, i)?)?;
        if is_last_of(i, cells.nulls) {
            push(alloc, &mut builder, Value::Null)?;
        }
    }
    builder.finish(alloc)
}

fn push_as(
    alloc: Global,
    builder: &mut ColumnBuilder,
    dtype: DataType,
    cells: Cells,
    i: u32,
) -> Result<(), FrameError> {
    let number = cells.number_at(i);
    match dtype {
        DataType::String => builder.push_text(alloc, word_of(alloc, number)?.as_str()),
        _ => builder.push_number(alloc, cells.int(number)),
    }
}

// Each pushed as the number or the text that it is.
fn by_kind(alloc: Global, dtype: DataType, cells: Cells) -> Result<Column, FrameError> {
    let mut builder = ColumnBuilder::new(alloc, dtype);
    for i in 0..cells.count {
        push_as(alloc, &mut builder, dtype, cells, i)?;
        if is_last_of(i, cells.nulls) {
            push(alloc, &mut builder, Value::Null)?;
        }
    }
    builder.finish(alloc)
}

fn kind(text: &str) -> DataType {
    match text.split_once(" ") {
        Some(("int", _)) => DataType::Int64,
        Some(("str", _)) => DataType::String,
        Some(("bool", _)) => DataType::Boolean,
        _ => DataType::IdxSize,
    }
}

/// The column of a text, as `int cells 3 among 2`, made in one of three ways.
pub fn column(alloc: Global, way: &str, text: &str) -> Result<Column, FrameError> {
    let (dtype, cells) = (kind(text), Cells::of_text(text));
    match way {
        "values" => by_values(alloc, dtype, cells),
        "typed" => by_kind(alloc, dtype, cells),
        _ => by_pushes(alloc, dtype, cells),
    }
}

/// The number that a text is, or else 0.
pub fn number(text: &str) -> usize {
    text.parse::<usize>().unwrap_or(0)
}

/// One number, or two with a space between them.
pub fn numbers(text: &str) -> (usize, usize) {
    let (a, b) = text.split_once(" ").unwrap_or((text, ""));
    (number(a), number(b))
}

/// Writes a value, and a space before it.
pub fn push_value(text: &mut String, value: &Value) -> Result<(), AllocError> {
    match value {
        Value::Null => text.push_str(" null"),
        Value::Boolean(b) => write!(text, " {b}"),
        Value::Int64(z) => write!(text, " {z}"),
        Value::IdxSize(n) => write!(text, " {n}"),
        Value::String(s) => write!(text, " {}", s.as_str()),
    }
}

/// Writes the value at a place, where there is one.
pub fn push_cell(text: &mut String, column: &Column, i: usize) -> Result<(), AllocError> {
    if i < column.len() {
        push_value(text, column.value(i))
    } else {
        text.push_str(" no cell")
    }
}

/// The name of an error.
pub fn name_of(error: &FrameError) -> &'static str {
    match error {
        FrameError::Duplicate { .. } => "Duplicate",
        FrameError::Kind => "Kind",
        FrameError::Height => "Height",
        FrameError::Rows => "Rows",
        FrameError::OutOfMemory => "OutOfMemory",
    }
}

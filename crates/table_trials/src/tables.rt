// Tables that are made, cut and put together by lines of steps, and what is told of them.
//
// Steps put a table down, or take some up and put down what they make of them; others tell something of the last one.
use crate::cells::{Cells, by_pushes, name_of, number, numbers, push_cell};
use crate::schemas::{counted_names, schema_of};
use ps_frame::column::Column;
use ps_frame::error::FrameError;
use ps_frame::frame::DataFrame;
use ps_frame::frame_builder::FrameBuilder;
use ps_frame::schema::Schema;
use ps_frame::value::{DataType, Value};
use std::alloc::{AllocError, Global};
use std::test::Fail;

fn counted(alloc: Global, cells: &str) -> Result<Column, FrameError> {
    by_pushes(alloc, DataType::IdxSize, Cells::of_text(cells))
}

// One column of a name and of cells, as `a cells 3`.
fn table(alloc: Global, text: &str) -> Result<DataFrame, FrameError> {
    let (name, cells) = text.split_once(" ").unwrap_or((text, ""));
    let columns = vec![in alloc; counted(alloc, cells)?]?;
    DataFrame::new(alloc, schema_of(alloc, name)?, columns)
}

// The names c0 and c1, and columns of so many numbers.
fn two_columns(alloc: Global, text: &str) -> Result<(Schema, Vec<Column>), FrameError> {
    let (a, b) = text.split_once(" and ").unwrap_or((text, ""));
    let columns = vec![in alloc; counted(alloc, a)?, counted(alloc, b)?]?;
    Ok((counted_names(alloc, "c", 2)?, columns))
}

fn two(alloc: Global, text: &str) -> Result<DataFrame, FrameError> {
    let (schema, columns) = two_columns(alloc, text)?;
    DataFrame::new(alloc, schema, columns)
}

fn broadcast(alloc: Global, text: &str) -> Result<DataFrame, FrameError> {
    let (schema, columns) = two_columns(alloc, text)?;
    DataFrame::new_with_broadcast(alloc, schema, columns)
}

// So many columns without rows.
fn wide(alloc: Global, count: usize) -> Result<DataFrame, FrameError> {
    let mut columns = Vec::new(alloc);
    for _ in 0..count {
        columns.push(Column::empty(alloc, DataType::IdxSize)?)?;
    }
    DataFrame::new(alloc, counted_names(alloc, "c", count)?, columns)
}

// The i-th of tables of so many numbers, which are counted through.
fn piece(alloc: Global, i: usize, each: usize) -> Result<DataFrame, FrameError> {
    let from = i.saturating_mul(each);
    let text = format!(in alloc; "n cells {each} from {from}")?;
    table(alloc, text.as_str())
}

fn below(alloc: Global, upper: &DataFrame, lower: &DataFrame) -> Result<DataFrame, FrameError> {
    upper.vstack(alloc, lower)
}

// That many such tables below each other.
fn stacked(alloc: Global, count: usize, each: usize) -> Result<DataFrame, FrameError> {
    let mut all = piece(alloc, 0, 0)?;
    for i in 0..count {
        all = below(alloc, &all, &piece(alloc, i, each)?)?;
    }
    Ok(all)
}

fn with_table(
    alloc: Global,
    builder: FrameBuilder,
    df: &DataFrame,
) -> Result<FrameBuilder, FrameError> {
    builder.with_table(alloc, df)
}

// The same in one pass.
fn built(alloc: Global, count: usize, each: usize) -> Result<DataFrame, FrameError> {
    let mut builder = FrameBuilder::new(alloc, piece(alloc, 0, 0)?.schema())?;
    for i in 0..count {
        builder = with_table(alloc, builder, &piece(alloc, i, each)?)?;
    }
    builder.finish(alloc)
}

// The tables that steps put down by themselves.
fn made(alloc: Global, word: &str, rest: &str) -> Result<DataFrame, FrameError> {
    let (a, b) = numbers(rest);
    match word {
        "two" => two(alloc, rest),
        "broadcast" => broadcast(alloc, rest),
        "wide" => wide(alloc, a),
        "stacked" => stacked(alloc, a, b),
        "built" => built(alloc, a, b),
        _ => table(alloc, rest),
    }
}

// A column of truth values, by the letters t, f and n for null.
fn mask(alloc: Global, letters: &str) -> Result<Column, FrameError> {
    let mut values = Vec::new(alloc);
    for letter in letters.chars() {
        values.push(match letter {
            't' => Value::Boolean(true),
            'f' => Value::Boolean(false),
            _ => Value::Null,
        })?;
    }
    Column::new(alloc, DataType::Boolean, values)
}

fn filtered(alloc: Global, df: &DataFrame, letters: &str) -> Result<DataFrame, FrameError> {
    let mask = mask(alloc, letters)?;
    if mask.dtype() != DataType::Boolean || mask.len() != df.height() {
        return Err(FrameError::Height);
    }
    df.filter(alloc, &mask)
}

// Two rows, of which both are there.
fn picked(alloc: Global, df: &DataFrame, a: usize, b: usize) -> Result<DataFrame, FrameError> {
    if a >= df.height() || b >= df.height() {
        return Err(FrameError::Height);
    }
    df.gather(alloc, &[a, b])
}

fn slice(
    alloc: Global,
    df: &DataFrame,
    offset: usize,
    len: usize,
) -> Result<DataFrame, FrameError> {
    df.slice(alloc, offset, len)
}

// What one table is made into.
fn changed(alloc: Global, word: &str, rest: &str, df: &DataFrame) -> Result<DataFrame, FrameError> {
    let (a, b) = numbers(rest);
    match word {
        "slice" => slice(alloc, df, a, b),
        "pick" => picked(alloc, df, a, b),
        "filter" => filtered(alloc, df, rest),
        _ => DataFrame::empty_with_schema(alloc, df.schema()),
    }
}

fn beside(alloc: Global, left: &DataFrame, right: &DataFrame) -> Result<DataFrame, FrameError> {
    left.hstack(alloc, right)
}

// One table below another, in one pass.
fn appended(alloc: Global, first: &DataFrame, second: &DataFrame) -> Result<DataFrame, FrameError> {
    let builder = FrameBuilder::new(alloc, first.schema())?;
    let builder = with_table(alloc, builder, first)?;
    with_table(alloc, builder, second)?.finish(alloc)
}

// What two tables are made into.
fn combined(
    alloc: Global,
    word: &str,
    first: &DataFrame,
    second: &DataFrame,
) -> Result<DataFrame, FrameError> {
    match word {
        "hstack" => beside(alloc, first, second),
        "vstack" => below(alloc, first, second),
        _ => appended(alloc, first, second),
    }
}

// Whether the first column counts the rows.
fn is_counted(df: &DataFrame) -> bool {
    let Some(column) = df.get_columns().first() else {
        return false;
    };
    for i in 0..column.len() {
        match column.value(i) {
            Value::IdxSize(found) if *found as usize == i => {}
            _ => return false,
        }
    }
    column.len() == df.height()
}

fn push_row(text: &mut String, df: &DataFrame, row: usize) -> Result<(), AllocError> {
    for column in df.get_columns() {
        push_cell(text, column, row)?;
    }
    Ok(())
}

fn push_names(text: &mut String, schema: &Schema) -> Result<(), AllocError> {
    for i in 0..schema.len() {
        write!(text, " {}", schema.name(i).as_str())?;
    }
    Ok(())
}

fn tell(text: &mut String, word: &str, rest: &str, df: &DataFrame) -> Result<(), AllocError> {
    match word {
        "height" => write!(text, " {}", df.height()),
        "width" => write!(text, " {}", df.get_columns().len()),
        "names" => push_names(text, df.schema()),
        "place" => write!(text, " {:?}", df.schema().index_of(rest)),
        "counted" => write!(text, " {}", is_counted(df)),
        "row" => push_row(text, df, number(rest)),
        _ => text.push_str(" no step"),
    }
}

// The table that was put down last.
fn take(tables: &mut Vec<DataFrame>) -> Result<DataFrame, FrameError> {
    match tables.pop() {
        Some(df) => Ok(df),
        None => Err(FrameError::Height),
    }
}

// Takes up two tables, and puts down what they make.
fn combine(alloc: Global, tables: &mut Vec<DataFrame>, word: &str) -> Result<(), FrameError> {
    let second = take(tables)?;
    let first = take(tables)?;
    tables.push(combined(alloc, word, &first, &second)?)?;
    Ok(())
}

// Puts the last table down once more.
fn copy(alloc: Global, tables: &mut Vec<DataFrame>) -> Result<(), FrameError> {
    let df = take(tables)?;
    tables.push(df.share(alloc)?)?;
    tables.push(df)?;
    Ok(())
}

// Takes up the last table, and puts down what it is made into.
fn change(
    alloc: Global,
    tables: &mut Vec<DataFrame>,
    word: &str,
    rest: &str,
) -> Result<(), FrameError> {
    let df = take(tables)?;
    tables.push(changed(alloc, word, rest, &df)?)?;
    Ok(())
}

// Tells something of the last table.
fn tell_last(
    tables: &mut Vec<DataFrame>,
    text: &mut String,
    word: &str,
    rest: &str,
) -> Result<(), FrameError> {
    let df = take(tables)?;
    tell(text, word, rest, &df)?;
    tables.push(df)?;
    Ok(())
}

// Puts a table down that is made of a text.
fn put(
    alloc: Global,
    tables: &mut Vec<DataFrame>,
    word: &str,
    rest: &str,
) -> Result<(), FrameError> {
    tables.push(made(alloc, word, rest)?)?;
    Ok(())
}

// One step over the tables that are put down.
fn step(
    alloc: Global,
    tables: &mut Vec<DataFrame>,
    text: &mut String,
    step: &str,
) -> Result<(), FrameError> {
    let (word, rest) = step.split_once(" ").unwrap_or((step, ""));
    match word {
        "table" | "two" | "broadcast" | "wide" | "stacked" | "built" => {
            put(alloc, tables, word, rest)
        }
        "hstack" | "vstack" | "append" => combine(alloc, tables, word),
        "copy" => copy(alloc, tables),
        "slice" | "pick" | "filter" | "none" => change(alloc, tables, word, rest),
        _ => tell_last(tables, text, word, rest),
    }
}

// What is told by steps with `, ` between them, which end at the first that fails.
fn told(alloc: Global, steps: &str) -> Result<String, Fail> {
    let mut tables = Vec::new(alloc);
    let mut text = String::new(alloc);
    for one in steps.split(", ") {
        if let Err(error) = step(alloc, &mut tables, &mut text, one) {
            write!(text, " {}", name_of(&error))?;
            return Ok(text);
        }
    }
    Ok(text)
}

const TABLES: &str = "
two cells 3 and cells 3 from 7, height, names, row 2 -> 3 c0 c1 2 9
two cells 2 and cells 3 -> Height
broadcast cells 1 and cells 3, height, width, row 2 -> 3 2 0 2
broadcast cells 2 and cells 3 -> Height
table a cells 2, table b cells 2, vstack -> Kind
table a cells 2, copy, vstack, height, row 3 -> 4 1
table a cells 2, table b cells 2, hstack, names, row 1 -> a b 1 1
table a cells 2, copy, hstack -> Duplicate
table a cells 2, table a cells 1, hstack -> Height
table a cells 3, filter nft, height, row 0 -> 1 2
table a cells 3, pick 2 0, pick 1 0, row 0, row 1 -> 0 2
table a cells 3, copy, slice 1 9, height, row 0 -> 2 1
table a cells 3, slice 7 1, height -> 0
table a cells 3, none, height, names -> 0 a
table a cells 3, table a cells 2 from 7, append, height, row 3 -> 5 7
table a cells 0, table b cells 2, append -> Kind
table a cells 0, wide 16, hstack, width, place c15, place c16 -> 17 Some(16) None
wide 16, table a cells 0, wide 16, hstack, hstack -> Duplicate
table a cells 0, wide 20, hstack, width, place c19, place a -> 21 Some(20) Some(0)
wide 20, table a cells 0, wide 20, hstack, hstack -> Duplicate
stacked 17 4097, height, counted -> 69649 true
built 17 4097, height, counted -> 69649 true
built 0 5, height, counted -> 0 true
built 1 5, height, counted -> 5 true
built 3000 1, height, counted -> 3000 true
built 70 1000, height, counted -> 70000 true
built 17 4096, height, counted -> 69632 true
";

#[test]
fn tables_are_made_and_put_together(rt: HostRuntime) -> Result<(), Fail> {
    for line in TABLES.trim().lines() {
        let Some((steps, wanted)) = line.split_once(" ->") else {
            return Err(Fail::from("a line without an end"));
        };
        let told = told(rt.alloc(), steps)?;
        assert_eq!(rt; told.as_str(), wanted, "at {steps}");
    }
    Ok(())
}

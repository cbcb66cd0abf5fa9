// Columns that are made, cut and put together by lines of steps, and what is told of them.
//
// Steps put a column down, or take some up and put down what they make of them; others tell something of the last one.
use crate::cells::{column, name_of, number, numbers, push, push_cell, push_value};
use ps_frame::builder::ColumnBuilder;
use ps_frame::column::Column;
use ps_frame::error::FrameError;
use ps_frame::value::{DataType, Value};
use ps_frame::view::ColumnView;
use std::alloc::Global;
use std::test::Fail;

fn above(alloc: Global, upper: &Column, lower: &Column) -> Result<Column, FrameError> {
    if upper.dtype() != lower.dtype() {
        return Err(FrameError::Kind);
    }
    upper.append(alloc, lower)
}

// The values at two places.
fn picked(alloc: Global, column: &Column, a: usize, b: usize) -> Result<Column, FrameError> {
    if a >= column.len() || b >= column.len() {
        return Err(FrameError::Height);
    }
    column.gather(alloc, &[a, b])
}

// The value at a place, and null below it.
fn with_null(alloc: Global, column: &Column, i: usize) -> Result<Column, FrameError> {
    if i >= column.len() {
        return Err(FrameError::Height);
    }
    column.gather_or_null(alloc, &[Some(i), None])
}

fn with_column(
    alloc: Global,
    builder: ColumnBuilder,
    column: &Column,
) -> Result<ColumnBuilder, FrameError> {
    builder.with_column(alloc, column)
}

// A column as its builder makes it of so many slices.
fn built(alloc: Global, whole: &Column, count: usize) -> Result<Column, FrameError> {
    let each = whole.len().checked_div(count).unwrap_or(0);
    let mut builder = ColumnBuilder::new(alloc, whole.dtype());
    for i in 0..count {
        let part = slice(alloc, whole, i.saturating_mul(each), each)?;
        builder = with_column(alloc, builder, &part)?;
    }
    builder.finish(alloc)
}

// A number, a column, a null and that column again.
fn framed(alloc: Global, column: &Column) -> Result<Column, FrameError> {
    let mut builder = ColumnBuilder::new(alloc, DataType::IdxSize);
    push(alloc, &mut builder, Value::IdxSize(9))?;
    let mut builder = with_column(alloc, builder, column)?;
    push(alloc, &mut builder, Value::Null)?;
    with_column(alloc, builder, column)?.finish(alloc)
}

// One value, repeated.
fn repeated(alloc: Global, column: &Column, height: usize) -> Result<Column, FrameError> {
    if column.len() != 1 {
        return Err(FrameError::Height);
    }
    column.broadcast(alloc, height)
}

fn slice(alloc: Global, column: &Column, offset: usize, len: usize) -> Result<Column, FrameError> {
    column.slice(alloc, offset, len)
}

// What one column is made into.
fn changed(alloc: Global, word: &str, rest: &str, column: &Column) -> Result<Column, FrameError> {
    let (a, b) = numbers(rest);
    match word {
        "slice" => slice(alloc, column, a, b),
        "pick" => picked(alloc, column, a, b),
        "with_null" => with_null(alloc, column, a),
        "built" => built(alloc, column, a),
        "framed" => framed(alloc, column),
        _ => repeated(alloc, column, a),
    }
}

fn same_cells(a: &Column, b: &Column) -> bool {
    if a.len() != b.len() {
        return false;
    }
    for i in 0..a.len() {
        if !a.value(i).same(b.value(i)) {
            return false;
        }
    }
    true
}

fn shows(view: &ColumnView<'_>, column: &Column) -> bool {
    if view.len() != column.len() {
        return false;
    }
    for i in 0..column.len() {
        if !view.value(i).same(column.value(i)) {
            return false;
        }
    }
    true
}

// Whether a column has a view, and that shows its cells.
fn view(column: &Column) -> &'static str {
    match column.view() {
        Some(view) if shows(&view, column) => " shown",
        Some(_wrong) => " wrong",
        None => " hidden",
    }
}

// The values of a column in one run.
fn push_run(alloc: Global, text: &mut String, column: &Column) -> Result<(), FrameError> {
    for value in column.run(alloc)?.as_slice() {
        push_value(text, value)?;
    }
    Ok(())
}

fn tell(
    alloc: Global,
    text: &mut String,
    word: &str,
    rest: &str,
    column: &Column,
) -> Result<(), FrameError> {
    match word {
        "run" => push_run(alloc, text, column)?,
        "len" => write!(text, " {}", column.len())?,
        "runs" => write!(text, " {}", column.n_chunks())?,
        "at" => push_cell(text, column, number(rest))?,
        "view" => text.push_str(view(column))?,
        "few" => write!(text, " {}", column.picks().is_some())?,
        _ => text.push_str(" no step")?,
    }
    Ok(())
}

// The column that was put down last.
fn take(columns: &mut Vec<Column>) -> Result<Column, FrameError> {
    match columns.pop() {
        Some(column) => Ok(column),
        None => Err(FrameError::Height),
    }
}

// Takes up two columns, and puts down the one above the other.
fn put_above(alloc: Global, columns: &mut Vec<Column>) -> Result<(), FrameError> {
    let lower = take(columns)?;
    let upper = take(columns)?;
    columns.push(above(alloc, &upper, &lower)?)?;
    Ok(())
}

// Takes up two columns, and puts them down the other way round.
fn turn(columns: &mut Vec<Column>) -> Result<(), FrameError> {
    let last = take(columns)?;
    let before = take(columns)?;
    columns.push(last)?;
    columns.push(before)?;
    Ok(())
}

// Takes up two columns, and tells whether they are the same.
fn compare(columns: &mut Vec<Column>, text: &mut String) -> Result<(), FrameError> {
    let (a, b) = (take(columns)?, take(columns)?);
    write!(text, " {}", same_cells(&a, &b))?;
    Ok(())
}

// Puts the last column down once more.
fn copy(alloc: Global, columns: &mut Vec<Column>) -> Result<(), FrameError> {
    let last = take(columns)?;
    columns.push(last.share(alloc)?)?;
    columns.push(last)?;
    Ok(())
}

// Takes up the last column, and puts down what it is made into.
fn change(
    alloc: Global,
    columns: &mut Vec<Column>,
    word: &str,
    rest: &str,
) -> Result<(), FrameError> {
    let last = take(columns)?;
    columns.push(changed(alloc, word, rest, &last)?)?;
    Ok(())
}

// Tells something of the last column.
fn tell_last(
    alloc: Global,
    columns: &mut Vec<Column>,
    text: &mut String,
    word: &str,
    rest: &str,
) -> Result<(), FrameError> {
    let last = take(columns)?;
    tell(alloc, text, word, rest, &last)?;
    columns.push(last)?;
    Ok(())
}

// Puts a column down that is made of a text.
fn put(alloc: Global, columns: &mut Vec<Column>, word: &str, rest: &str) -> Result<(), FrameError> {
    columns.push(match word {
        "empty" => Column::empty(alloc, DataType::String)?,
        _ => column(alloc, word, rest)?,
    })?;
    Ok(())
}

// One step over the columns that are put down.
fn step(
    alloc: Global,
    columns: &mut Vec<Column>,
    text: &mut String,
    step: &str,
) -> Result<(), FrameError> {
    let (word, rest) = step.split_once(" ").unwrap_or((step, ""));
    match word {
        "values" | "typed" | "pushes" | "empty" => put(alloc, columns, word, rest),
        "above" => put_above(alloc, columns),
        "turn" => turn(columns),
        "same" => compare(columns, text),
        "copy" => copy(alloc, columns),
        "slice" | "pick" | "with_null" | "built" | "framed" | "repeat" => {
            change(alloc, columns, word, rest)
        }
        _ => tell_last(alloc, columns, text, word, rest),
    }
}

// What is told by steps with `, ` between them, which end at the first that fails.
fn told(alloc: Global, steps: &str) -> Result<String, Fail> {
    let mut columns = Vec::new(alloc);
    let mut text = String::new(alloc);
    for one in steps.split(", ") {
        if let Err(error) = step(alloc, &mut columns, &mut text, one) {
            write!(text, " {}", name_of(&error))?;
            return Ok(text);
        }
    }
    Ok(text)
}

const COLUMNS: &str = "
pushes idx cells 2000 among 7 nulls 5, few, view, len, at 0, at 5, at 6, at 2398 -> true shown 2400 0 null 5 4
pushes idx cells 2000 among 7 nulls 5, copy, above, len, at 2405, at 4798 -> 4800 null 4
pushes idx cells 2000 among 7 nulls 5, copy, above, with_null 4798, at 0, at 1 -> 4 null
pushes idx cells 2000 among 7, slice 1990 20, len, view, at 0 -> 10 shown 2
pushes idx cells 10000 among 6000 nulls 5, len, at 1, at 5999, at 7198, at 7200, at 11998 -> 12000 1 null 5999 0 3999
pushes idx cells 12000 each 2, few, runs, len, at 1, at 11999 -> true 1 12000 0 5999
typed int cells 6000 zeros 16, few -> false
typed str cells 6000 zeros 16, few -> true
pushes idx cells 65538, len, at 0, at 65535, at 65536, at 65537 -> 65538 0 65535 65536 65537
values idx cells 65538 among 3, at 0, at 65535, at 65536, at 65537 -> 0 0 1 2
values idx cells 65538 among 3, copy, above, len, at 131075 -> 131076 2
pushes idx cells 5000, view, copy, slice 4990 20, len, view -> shown 10 shown
pushes idx cells 5000, pick 4999 7, view, at 0, at 1 -> shown 4999 7
pushes idx cells 3, with_null 2, run -> 2 null
empty, view, len -> shown 0
values bool cells 3, at 0, at 1, at 2 -> false true false
pushes int cells 1 from 3, repeat 4, len, at 3 -> 4 -3
pushes idx cells 5000, pushes idx cells 6000 from 70000, above, runs, len, view, at 4999, at 5000 -> 2 11000 hidden 4999 70000
pushes idx cells 5000, pushes idx cells 6000 from 70000, above, pick 5000 4999, at 0, at 1 -> 70000 4999
pushes idx cells 5000, pushes idx cells 6000 from 70000, above, slice 4999 2, runs, at 0, at 1 -> 2 4999 70000
pushes idx cells 5000, pushes idx cells 6000 from 70000, above, slice 5000 6000, len, view -> 6000 shown
pushes idx cells 5000, pushes idx cells 6000 from 70000, above, slice 10000 5000, runs, len, at 999 -> 1 1000 75999
pushes idx cells 5000, pick 4999 7, pushes idx cells 6000 from 70000, above, len, at 0, at 1, at 2, at 6001 -> 6002 4999 7 70000 75999
pushes idx cells 6000 from 70000, pushes idx cells 5000, pick 4999 7, above, runs, at 0, at 5999, at 6000, at 6001 -> 2 70000 75999 4999 7
pushes idx cells 12000, copy, slice 1000 5000, turn, slice 6000 5000, above, runs, len, at 0, at 9999 -> 1 10000 1000 10999
pushes idx cells 12000, copy, slice 6000 5000, turn, slice 1000 5000, above, runs, at 4999, at 5000 -> 2 10999 1000
pushes idx cells 100000, built 20, runs, len, at 0, at 99999 -> 1 100000 0 99999
pushes idx cells 5000, framed, runs, len, at 0, at 1, at 5001, at 10001 -> 4 10002 9 0 null 4999
pushes int cells 3, framed -> Kind
";

#[test]
fn columns_are_made_and_put_together(rt: HostRuntime) -> Result<(), Fail> {
    for line in COLUMNS.trim().lines() {
        let Some((steps, wanted)) = line.split_once(" ->") else {
            return Err(Fail::from("a line without an end"));
        };
        let told = told(rt.alloc(), steps)?;
        assert_eq!(rt; told.as_str(), wanted, "at {steps}");
    }
    Ok(())
}

// Cells that are pushed as the numbers and texts that they are, beside the same as values: few cells, few values, more than
// are few however seldom they repeat (with repeats and without), and more than are ever held each once. Behind each is how
// many cells there are with nulls.
const PUSHED: &str = "
cells 3 among 2 nulls 100 -> 3
cells 2000 among 7 nulls 100 -> 2020
cells 20000 each 2 among 5000 nulls 100 -> 20200
cells 9000 among 4500 nulls 100 -> 9090
cells 66000 nulls 100 -> 66660
cells 68000 among 66000 nulls 100 -> 68680
";

// Numbers that are chosen for their hashes.
const CHOSEN: &str = "chosen cells 20000 each 2 among 5000 nulls 100 -> 20200";

// Whether cells that are pushed as what they are make as long a column as is wanted, and that of their values.
fn are_as_values(alloc: Global, kind: &str, line: &str) -> Result<bool, Fail> {
    let Some((cells, count)) = line.split_once(" -> ") else {
        return Err(Fail::from("a line without an end"));
    };
    let steps = format!(in alloc; "values {kind} {cells}, typed {kind} {cells}, len, same")?;
    let wanted = format!(in alloc; " {count} true")?;
    Ok(told(alloc, steps.as_str())?.as_str() == wanted.as_str())
}

#[test]
fn numbers_are_pushed_as_their_values_are(rt: HostRuntime) -> Result<(), Fail> {
    for line in PUSHED.trim().lines() {
        assert!(rt; are_as_values(rt.alloc(), "int", line)?, "{line}");
    }
    assert!(rt; are_as_values(rt.alloc(), "int", CHOSEN)?);
    Ok(())
}

#[test]
fn texts_are_pushed_as_their_values_are(rt: HostRuntime) -> Result<(), Fail> {
    for line in PUSHED.trim().lines() {
        assert!(rt; are_as_values(rt.alloc(), "str", line)?, "{line}");
    }
    Ok(())
}

fn outcome(pushed: Result<(), FrameError>) -> &'static str {
    match pushed {
        Ok(()) => " ok",
        Err(error) => name_of(&error),
    }
}

// What a builder of a kind answers to a text, a number, a truth value and another text, and the cells that it then has.
fn answers(alloc: Global, dtype: DataType) -> Result<String, FrameError> {
    let mut builder = ColumnBuilder::new(alloc, dtype);
    let mut text = String::new(alloc);
    text.push_str(outcome(builder.push_text(alloc, "few")))?;
    text.push_str(outcome(builder.push_number(alloc, i64::MIN)))?;
    text.push_str(outcome(builder.push(alloc, Value::Boolean(true))))?;
    text.push_str(outcome(builder.push_text(alloc, "")))?;
    let column = builder.finish(alloc)?;
    for i in 0..column.len() {
        push_cell(&mut text, &column, i)?;
    }
    Ok(text)
}

#[test]
fn a_builder_refuses_another_kind(rt: HostRuntime) -> Result<(), Fail> {
    for (dtype, wanted) in [
        (DataType::String, " okKindKind ok few "),
        (DataType::Int64, "Kind okKindKind -9223372036854775808"),
        (DataType::Boolean, "KindKind okKind true"),
    ] {
        assert_eq!(rt; answers(rt.alloc(), dtype)?.as_str(), wanted);
    }
    Ok(())
}

#[test]
fn a_view_of_a_slice_shows_its_values(rt: HostRuntime) -> Result<(), Fail> {
    let values = [Value::Int64(4), Value::Null];
    let view = ColumnView::of_slice(&values);
    assert!(rt; view.len() == 2 && !view.is_empty());
    if view.len() != 2 {
        return Err(Fail::from("no view"));
    }
    assert!(rt;
        matches!(
            (view.value(0), view.value(1)),
            (Value::Int64(4), Value::Null)
        )
    );
    Ok(())
}

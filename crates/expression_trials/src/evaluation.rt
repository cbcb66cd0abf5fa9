// Evaluation of expressions in an arena, as a caller makes them.
ghost use Rattle.std.specs.Prelude.{◌≡◌, ◌<◌, IfOk};
ghost use Rattle.expression_trials.specs.Tested.{tested_entries, tested_schema};

use crate::words::push_value;
use ps_expr_eval::evaluate::evaluate;
use ps_frame::column::Column;
use ps_frame::error::FrameError;
use ps_frame::expr::{AExpr, FunctionExpr, IRAggExpr, LiteralValue, Operator};
use ps_frame::frame::DataFrame;
use ps_frame::schema::Schema;
use ps_frame::value::{Cell, DataType, Evaluated, Value};
use pu_base::{Arena, Node, PlSmallStr, PolarsUtilsError};
use std::alloc::{AllocError, Global};
use std::test::Fail;

fn name(alloc: Global, text: &str) -> Result<PlSmallStr, FrameError>
    ensures { IfOk result (λ name. name ≡ text.now) }
{
    match PlSmallStr::from_str(alloc, text) {
        Ok(name) => Ok(name),
        Err(_) => Err(FrameError::OutOfMemory),
    }
}

fn schema(alloc: Global) -> Result<Schema, FrameError>
    ensures { IfOk result (λ schema. schema ≡ tested_schema) }
{
    let mut schema = Schema::new(alloc);
    schema.push(alloc, name(alloc, "a")?, DataType::Int64)?;
    Ok(schema)
}

// Column a of 1, null and 3.
fn numbers(alloc: Global) -> Result<Column, FrameError> {
    let mut values = Vec::new(alloc);
    values.push(Value::Int64(1))?;
    values.push(Value::Null)?;
    values.push(Value::Int64(3))?;
    Column::new(alloc, DataType::Int64, values)
}

fn table(alloc: Global) -> Result<DataFrame, FrameError>
    ensures { IfOk result (λ table. table.schema ≡ tested_schema) }
{
    let schema = schema(alloc)?;
    let mut columns = Vec::new(alloc);
    columns.push(numbers(alloc)?)?;
    DataFrame::new(alloc, schema, columns)
}

fn no_rows(alloc: Global) -> Result<DataFrame, FrameError>
    ensures { IfOk result (λ table. table.schema ≡ tested_schema) }
{
    let schema = schema(alloc)?;
    DataFrame::empty_with_schema(alloc, &schema)
}

fn expressions(alloc: Global) -> Result<Arena<AExpr>, PolarsUtilsError>
    ensures { IfOk result (λ arena. arena.items ≡ tested_entries) }
{
    let mut arena = Arena::new(alloc);
    let a = arena.add(AExpr::Column(PlSmallStr::from_str(alloc, "a")?))?;
    arena.add(AExpr::Agg(IRAggExpr::Sum(a)))?;
    arena.add(AExpr::Agg(IRAggExpr::NUnique(a)))?;
    arena.add(AExpr::Agg(IRAggExpr::Count(a, false)))?;
    arena.add(AExpr::Agg(IRAggExpr::Count(a, true)))?;
    arena.add(AExpr::Function {
        input: a,
        function: FunctionExpr::Reverse,
    })?;
    let text = arena.add(AExpr::Literal(LiteralValue::String(PlSmallStr::from_str(alloc, "x")?)))?;
    arena.add(AExpr::Cast {
        expr: text,
        dtype: DataType::Int64,
        strict: true,
    })?;
    arena.add(AExpr::Agg(IRAggExpr::Min(a)))?;
    let zero = arena.add(AExpr::Literal(LiteralValue::Int64(0)))?;
    arena.add(AExpr::BinaryExpr {
        left: a,
        op: Operator::FloorDivide,
        right: zero,
    })?;
    Ok(arena)
}

// The kind and the cells of the expression of a number, and how many faults it ends with.
fn told_in(
    alloc: Global,
    number: usize,
    arena: &Arena<AExpr>,
    df: &DataFrame,
) -> Result<String, Fail>
    requires entries { arena.now.items ≡ tested_entries }
    requires schema { df.now.schema ≡ tested_schema }
    requires number { number < 11 }
{
    let column = evaluate(alloc, Node(number), arena, df)?;
    Ok(told(alloc, &column)?)
}

fn told(alloc: Global, column: &Evaluated) -> Result<String, AllocError> {
    let mut text = format!(in alloc; "{:?}", column.dtype)?;
    for cell in &column.cells {
        match cell {
            Cell::Val(value) => push_value(&mut text, value)?,
            Cell::Bad(fault) => write!(text, " {fault:?}")?,
        }
    }
    write!(text, ", {} faults", column.broken.len())?;
    Ok(text)
}

// Of each expression of the arena.
const OVER_THREE_ROWS: &str = "Int64 1 null 3, 0 faults
Int64 4, 0 faults
IdxSize 3i, 0 faults
IdxSize 2i, 0 faults
IdxSize 3i, 0 faults
Int64 3 null 1, 0 faults
String 'x, 0 faults
Int64 StrictCast, 0 faults
Int64 1, 0 faults
Int64 0, 0 faults
Int64 null null null, 0 faults";

const OVER_NO_ROWS: &str = "Int64, 0 faults
Int64 0, 0 faults
IdxSize 0i, 0 faults
IdxSize 0i, 0 faults
IdxSize 0i, 0 faults
Int64, 0 faults
String 'x, 0 faults
Int64 StrictCast, 0 faults
Int64 null, 0 faults
Int64 0, 0 faults
Int64, 0 faults";

// What is told of all expressions, a line for each.
fn all_told(alloc: Global, df: &DataFrame) -> Result<String, Fail>
    requires { df.now.schema ≡ tested_schema }
{
    let arena = expressions(alloc)?;
    let mut text = String::new(alloc);
    for number in 0..11 {
        if number > 0 {
            text.push('\n')?;
        }
        text.push_str(told_in(alloc, number, &arena, df)?.as_str())?;
    }
    Ok(text)
}

#[test]
fn expressions_are_evaluated(rt: HostRuntime) -> Result<(), Fail> {
    let three = table(rt.alloc())?;
    assert_eq!(rt; all_told(rt.alloc(), &three)?.as_str(), OVER_THREE_ROWS);
    let none = no_rows(rt.alloc())?;
    assert_eq!(rt; all_told(rt.alloc(), &none)?.as_str(), OVER_NO_ROWS);
    Ok(())
}

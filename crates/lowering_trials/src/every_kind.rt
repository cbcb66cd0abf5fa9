// A select of every kind of expression over a scan, put together entry by entry.
use ps_frame::column::Column;
use ps_frame::expr::{AExpr, FunctionExpr, IRAggExpr, LiteralValue, Operator};
use ps_frame::frame::DataFrame;
use ps_frame::items::Items;
use ps_frame::schema::Schema;
use ps_frame::value::{DataType, Value};
use ps_meaning::options::{ExprIR, OutputName, SinkType};
use ps_plan::ir::IR;
use pu_base::{Arena, Node, PlSmallStr};
use std::alloc::Global;
use std::test::Fail;

fn numbers(alloc: Global, first: i64) -> Result<Column, Fail> {
    let values = vec![in alloc; Value::Int64(first), Value::Int64(2)]?;
    Ok(Column::new(alloc, DataType::Int64, values)?)
}

// Two rows of a and b.
fn table(alloc: Global) -> Result<DataFrame, Fail> {
    let mut schema = Schema::new(alloc);
    schema.push(alloc, PlSmallStr::from_str(alloc, "a")?, DataType::Int64)?;
    schema.push(alloc, PlSmallStr::from_str(alloc, "b")?, DataType::Int64)?;
    let columns = vec![in alloc; numbers(alloc, 1)?, numbers(alloc, 3)?]?;
    Ok(DataFrame::new(alloc, schema, columns)?)
}

// 0 a, 1 b, 2 and 3 the numbers 1 and 2, 4 the sum of a, 5 the height, 6 whether a is above 1.
fn first_exprs(alloc: Global, exprs: &mut Arena<AExpr>) -> Result<(), Fail> {
    exprs.add(AExpr::Column(PlSmallStr::from_str(alloc, "a")?))?;
    exprs.add(AExpr::Column(PlSmallStr::from_str(alloc, "b")?))?;
    exprs.add(AExpr::Literal(LiteralValue::Int64(1)))?;
    exprs.add(AExpr::Literal(LiteralValue::Int64(2)))?;
    exprs.add(AExpr::Agg(IRAggExpr::Sum(Node(0))))?;
    exprs.add(AExpr::Len)?;
    exprs.add(AExpr::BinaryExpr {
        left: Node(0),
        op: Operator::Gt,
        right: Node(2),
    })?;
    Ok(())
}

// 7 b and the sum, 8 the sum as a text, 9 the sum where a is above 1, else b, 10 b turned round, 11 how many values a has.
fn operators(exprs: &mut Arena<AExpr>) -> Result<(), Fail> {
    exprs.add(AExpr::BinaryExpr {
        left: Node(1),
        op: Operator::Plus,
        right: Node(4),
    })?;
    exprs.add(AExpr::Cast {
        expr: Node(4),
        dtype: DataType::String,
        strict: true,
    })?;
    exprs.add(AExpr::Ternary {
        predicate: Node(6),
        truthy: Node(4),
        falsy: Node(1),
    })?;
    exprs.add(AExpr::Function {
        input: Node(1),
        function: FunctionExpr::Reverse,
    })?;
    exprs.add(AExpr::Agg(IRAggExpr::NUnique(Node(0))))?;
    Ok(())
}

// 12 b in order, 13 b in the order of a, 14 b where a is above 1, 15 the second b, 16 a part of b.
fn other_lengths(alloc: Global, exprs: &mut Arena<AExpr>) -> Result<(), Fail> {
    exprs.add(AExpr::Sort {
        expr: Node(1),
        descending: true,
        nulls_last: false,
    })?;
    exprs.add(AExpr::SortBy {
        expr: Node(1),
        by: Items::new(vec![in alloc; Node(0)]?),
        descending: Items::new(vec![in alloc; true]?),
        nulls_last: Items::new(vec![in alloc; false]?),
    })?;
    exprs.add(AExpr::Filter {
        input: Node(1),
        by: Node(6),
    })?;
    exprs.add(AExpr::Gather {
        expr: Node(1),
        idx: Node(2),
        returns_scalar: true,
    })?;
    exprs.add(AExpr::Slice {
        input: Node(1),
        offset: Node(2),
        length: Node(3),
    })?;
    Ok(())
}

/// Columns, literals, operators, casts, sorts, filters, aggregates and all other kinds, where they aren't elementwise.
pub fn expressions(alloc: Global) -> Result<Arena<AExpr>, Fail> {
    let mut exprs = Arena::new(alloc);
    first_exprs(alloc, &mut exprs)?;
    operators(&mut exprs)?;
    other_lengths(alloc, &mut exprs)?;
    Ok(exprs)
}

// Each under a name of its own, in an order in which no two of one kind follow each other.
fn asked(alloc: Global) -> Result<Items<ExprIR>, Fail> {
    let mut asked = Vec::new(alloc);
    for (i, node) in [0, 2, 7, 8, 12, 13, 15, 14, 4, 9, 10, 16, 5, 11]
        .iter()
        .enumerate()
    {
        let name = format!(in alloc; "x{i}")?;
        let output_name = OutputName::Alias(PlSmallStr::from_str(alloc, name.as_str())?);
        asked.push(ExprIR {
            node: Node(*node),
            output_name,
        })?;
    }
    Ok(Items::new(asked))
}

/// The scan of the table, the select, and the sink at the root.
pub fn nodes(alloc: Global) -> Result<Arena<IR>, Fail> {
    let mut nodes = Arena::new(alloc);
    nodes.add(IR::DataFrameScan {
        df: table(alloc)?,
        projection: None,
    })?;
    nodes.add(IR::Select {
        input: Node(0),
        expr: asked(alloc)?,
    })?;
    nodes.add(IR::Sink {
        input: Node(1),
        payload: SinkType::Memory,
    })?;
    Ok(nodes)
}

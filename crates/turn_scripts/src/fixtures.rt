//! What nodes are made of: a schema, an expression, tables, options.
ghost use Rattle.std.specs.Prelude.{◌≡◌, ◌∷◌, [], IfOk, codes};
ghost use Rattle.ps_frame.specs.declared.value.DataType.TheVariants as data_type;

use plain_nodes::stream_expr::StreamExpr;
use ps_frame::column::Column;
use ps_frame::expr::AExpr;
use ps_frame::frame::DataFrame;
use ps_frame::schema::Schema;
use ps_frame::value::{DataType, Value};
use ps_meaning::options::{ExprIR, OutputName};
use ps_options::options::Options;
use pu_base::{Arena, PlSmallStr};
use std::alloc::Global;
use std::test::Fail;

/// One column of numbers of this name.
pub fn schema_named(alloc: Global, name: &str) -> Result<Schema, Fail>
    ensures { IfOk result (λ s. s ≡ (name.now, data_type.Int64) ∷ []) }
{
    let mut schema = Schema::new(alloc);
    let name = PlSmallStr::from_str(alloc, name)?;
    schema.push(alloc, name, DataType::Int64)?;
    Ok(schema)
}

/// One column of numbers.
pub fn schema(alloc: Global) -> Result<Schema, Fail>
    ensures { IfOk result (λ s. s ≡ (codes "a", data_type.Int64) ∷ []) }
{
    schema_named(alloc, "a")
}

/// The expression that is the column of this name.
pub fn column_named(alloc: Global, name: &str) -> Result<StreamExpr, Fail> {
    let mut exprs = Arena::new(alloc);
    let output_name = OutputName::Alias(PlSmallStr::from_str(alloc, name)?);
    let name = PlSmallStr::from_str(alloc, name)?;
    let node = exprs.add(AExpr::Column(name))?;
    let column = StreamExpr::new(alloc, &ExprIR { node, output_name }, &exprs)?;
    Ok(column)
}

/// The expression that is this column.
pub fn column(alloc: Global) -> Result<StreamExpr, Fail> {
    column_named(alloc, "a")
}

/// So many rows of the column of this name.
pub fn table_named(alloc: Global, name: &str, count: usize) -> Result<DataFrame, Fail> {
    let schema = schema_named(alloc, name)?;
    let mut values = Vec::new(alloc);
    for _ in 0..count {
        values.push(Value::Int64(7))?;
    }
    let columns = vec![in alloc; Column::new(alloc, DataType::Int64, values)?]?;
    Ok(DataFrame::new(alloc, schema, columns)?)
}

/// So many rows of the column.
pub fn table(alloc: Global, count: usize) -> Result<DataFrame, Fail> {
    table_named(alloc, "a", count)
}

/// How a query is run that has so many workers and so many rows a morsel at most.
pub fn options(workers: usize, morsel_rows: usize) -> Result<Options, Fail> {
    match Options::new(workers, morsel_rows, 1, 0) {
        Some(options) => Ok(options),
        None => Err(Fail::from("no options")),
    }
}

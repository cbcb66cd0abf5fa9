//! Rows of texts, and the numbers that are read off them: one that is none is a fault.
ghost use Rattle.std.specs.Prelude.{◌≡◌, IfOk};
ghost use Rattle.flow_trials.specs.Tested.{number_entries, number_named, number_read, texts};
ghost use Rattle.plain_nodes.specs.Exprs.{expr_shown};

use ps_frame::column::Column;
use ps_frame::expr::AExpr;
use ps_frame::frame::DataFrame;
use ps_frame::schema::Schema;
use ps_frame::text::CellText;
use ps_frame::value::{DataType, Value};
use ps_meaning::options::{ExprIR, OutputName};
use ps_nodes::stream_expr::StreamExpr;
use pu_base::{Arena, Node, PlSmallStr};
use std::alloc::Global;
use std::test::Fail;

/// One column of texts.
pub fn schema(alloc: Global) -> Result<Schema, Fail>
    ensures { IfOk result (λ s. s ≡ texts) }
{
    let mut schema = Schema::new(alloc);
    let name = PlSmallStr::from_static(alloc, "a")?;
    schema.push(alloc, name, DataType::String)?;
    Ok(schema)
}

/// So many rows with this text.
pub fn table(alloc: Global, text: &str, count: usize) -> Result<DataFrame, Fail> {
    let mut values = Vec::new(alloc);
    for _ in 0..count {
        values.push(Value::String(CellText::from_str(alloc, text)?))?;
    }
    let columns = vec![in alloc; Column::new(alloc, DataType::String, values)?]?;
    Ok(DataFrame::new(alloc, schema(alloc)?, columns)?)
}

/// The column, and the number that is read off it.
pub fn exprs(alloc: Global) -> Result<Arena<AExpr>, Fail>
    ensures { IfOk result (λ arena. arena.items ≡ number_entries) }
{
    let mut exprs = Arena::new(alloc);
    exprs.add(AExpr::Column(PlSmallStr::from_static(alloc, "a")?))?;
    exprs.add(AExpr::Cast {
        expr: Node(0),
        dtype: DataType::Int64,
        strict: true,
    })?;
    Ok(exprs)
}

/// The number in that arena, under the name of the column.
pub fn number(alloc: Global) -> Result<ExprIR, Fail>
    ensures { IfOk result (λ e. e ≡ number_named) }
{
    let name = PlSmallStr::from_static(alloc, "a")?;
    Ok(ExprIR {
        node: Node(1),
        output_name: OutputName::Alias(name),
    })
}

/// The number as a key.
#[tactic(auto, using(crate::proofs::Numbers::whole, crate::proofs::Numbers::read))]
pub fn key(alloc: Global) -> Result<StreamExpr, Fail>
    ensures { IfOk result (λ e. expr_shown e ≡ number_read) }
{
    let key = StreamExpr::new(alloc, &number(alloc)?, &exprs(alloc)?)?;
    Ok(key)
}

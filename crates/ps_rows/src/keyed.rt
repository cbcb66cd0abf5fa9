// A table with the columns of expressions over it.
ghost use Rattle.std.specs.Prelude.{◌≡◌, ◌≤◌, Err, IfErr, IfOk, OnErr, drop, length, take};
ghost use Rattle.ps_frame.specs.Frames.{IsFrame, column_values};
ghost use Rattle.ps_frame.specs.Tables.{rows_of, whole};
ghost use Rattle.ps_frame.specs.Trees.{tree_at};
ghost use Rattle.ps_meaning.specs.Cases.{keyed as keyed_zip};
ghost use Rattle.ps_meaning.specs.Steps.{key_trees};
ghost use Rattle.ps_rows.specs.Keyed.{IsTableWithKeys};
ghost use Rattle.ps_zip.specs.Zips.{AreTypedOver, IsZipError, expr_kinds};

use ps_frame::column::Column;
use ps_frame::expr::AExpr;
use ps_frame::frame::DataFrame;
use ps_frame::refusal::{PolarsError, PolarsResult};
use ps_frame::schema::Schema;
use ps_meaning::options::ExprIR;
use ps_tables::framed::frame_of_height;
use ps_zip::zips::{Zip, zip_keyed};
use pu_base::{Arena, Node};
use std::alloc::Global;

/// A table, and columns of its height.
#[derive(Drop)]
pub struct KeyedTable {
    pub table: DataFrame,
    pub keys: Vec<Column>,
}

/// The zip of a table and expressions: its rows as a table, and the columns of the expressions beside it.
///
/// Fails as the zip does.
pub fn keyed_table(
    alloc: Global,
    at: Node,
    exprs: &[ExprIR],
    arena: &Arena<AExpr>,
    df: &DataFrame,
) -> PolarsResult<KeyedTable>
    requires { AreTypedOver df.now.schema (key_trees (tree_at arena.now.items) exprs.now) }
    ensures table { IfOk result (λ k. IsTableWithKeys (keyed_zip at.0 (key_trees (tree_at arena.now.items) exprs.now) (whole df.now)) df.now.schema (expr_kinds df.now.schema (key_trees (tree_at arena.now.items) exprs.now)) k.table k.keys.items) }
    ensures error { IfErr result (IsZipError at.0 (key_trees (tree_at arena.now.items) exprs.now) (whole df.now) (keyed_zip at.0 (key_trees (tree_at arena.now.items) exprs.now) (whole df.now))) }
{
    // By hand: behind the conversion of `?` the proof would lose that this is the very error of the zip.
    match zip_keyed(alloc, at, exprs, arena, df) {
        Ok(zip) => parted(alloc, df.schema(), zip),
        Err(error) => Err(error),
    }
}

// The first columns of a zip as a table of the schema, and the others beside it.
fn parted(alloc: Global, schema: &Schema, zip: Zip) -> PolarsResult<KeyedTable>
    requires width { length schema.now ≤ length zip.columns.items }
    requires fields { IsFrame schema.now (take (length schema.now) zip.columns.items) zip.height }
    ensures schema { IfOk result (λ k. k.table.schema ≡ schema.now) }
    ensures rows { IfOk result (λ k. k.table.rows ≡ rows_of zip.height (column_values (take (length schema.now) zip.columns.items))) }
    ensures keys { IfOk result (λ k. k.keys.items ≡ drop (length schema.now) zip.columns.items) }
    ensures memory { OnErr result (result ≡ Err PolarsError.OutOfMemory) }
{
    let mut columns = zip.columns;
    let keys = columns.split_off(schema.len())?;
    let table = frame_of_height(alloc, schema, columns, zip.height)?;
    Ok(KeyedTable { table, keys })
}

// The rows in which an expression is true.
ghost use Rattle.std.specs.Prelude.{◌≡◌, ◌∷◌, [], Err, IfErr, IfOk, OnErr, Some, length, slice_get};
ghost use Rattle.ps_frame.specs.Frames.{kept};
ghost use Rattle.ps_frame.specs.Functions.{Functions};
ghost use Rattle.ps_frame.specs.Trees.{IsExpression, tree_at};
ghost use Rattle.ps_frame.specs.Series.{Series};
ghost use Rattle.ps_frame.specs.Typing.{kind_over};
ghost use Rattle.ps_frame.specs.declared.value.DataType.TheVariants as kind;
ghost use Rattle.ps_meaning.specs.Nodes.{GivesFrame, MayFault};
ghost use Rattle.ps_meaning.specs.Steps.{filter as filter_step};

use crate::keyed::{KeyedTable, keyed_table};
use ps_frame::column::Column;
use ps_frame::expr::AExpr;
use ps_frame::frame::DataFrame;
use ps_frame::refusal::{PolarsError, PolarsResult};
use ps_meaning::options::ExprIR;
use pu_base::{Arena, Node};
use std::alloc::Global;
use std::slice;

/// The table of a filter at the node `at`: the rows of a table in which a predicate is true, and neither false nor
/// null. Where the table or the predicate has one row, it is repeated beside the other's.
///
/// Fails by a fault that breaks the filter, by `Rows` where the predicate's column has too many cells, or for want of
/// memory.
pub fn filter(
    alloc: Global,
    at: Node,
    predicate: &ExprIR,
    arena: &Arena<AExpr>,
    df: &DataFrame,
) -> PolarsResult<DataFrame>
    requires expression { IsExpression arena.now.items predicate.now.node }
    requires kind { kind_over df.now.schema (tree_at arena.now.items predicate.now.node) ≡ Some kind.Boolean }
    ensures table { IfOk result (λ f. (F : Functions) → GivesFrame F at.0 (filter_step (tree_at arena.now.items predicate.now.node)) (df.now ∷ []) f) }
    ensures fault { IfErr result (λ e. (F : Functions) → MayFault F at.0 (filter_step (tree_at arena.now.items predicate.now.node)) (df.now ∷ []) e) }
{
    // By hand: behind the conversion of `?` the proof would lose that this is the very error of the zip.
    match keyed_table(alloc, at, slice::from_ref(predicate), arena, df) {
        Ok(keyed) => rows_where_true(alloc, &keyed),
        Err(error) => Err(error),
    }
}

// The rows of a table beside which its only key is true.
fn rows_where_true(alloc: Global, keyed: &KeyedTable) -> PolarsResult<DataFrame>
    requires { (mask : Series) × (keyed.now.keys.items ≡ mask ∷ []) × (mask.kind ≡ kind.Boolean) × (length mask.values ≡ length keyed.now.table.rows) }
    ensures schema { IfOk result (λ f. f.schema ≡ keyed.now.table.schema) }
    ensures rows { IfOk result (λ f. (mask : Series) → slice_get keyed.now.keys.items 0 ≡ Some mask → f.rows ≡ kept mask.values keyed.now.table.rows) }
    ensures memory { OnErr result (result ≡ Err PolarsError.OutOfMemory) }
{
    filtered(alloc, &keyed.table, &keyed.keys[0])
}

fn filtered(alloc: Global, table: &DataFrame, mask: &Column) -> PolarsResult<DataFrame>
    requires kind { mask.now.kind ≡ kind.Boolean }
    requires height { length mask.now.values ≡ length table.now.rows }
    ensures schema { IfOk result (λ f. f.schema ≡ table.now.schema) }
    ensures rows { IfOk result (λ f. f.rows ≡ kept mask.now.values table.now.rows) }
    ensures memory { OnErr result (result ≡ Err PolarsError.OutOfMemory) }
{
    match table.filter(alloc, mask) {
        Ok(rows) => Ok(rows),
        Err(_) => Err(PolarsError::OutOfMemory),
    }
}

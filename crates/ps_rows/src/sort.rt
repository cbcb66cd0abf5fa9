// The rows of a table in the order of expressions.
ghost use Rattle.std.specs.Prelude.{◌≡◌, ◌∷◌, [], Err, IfErr, IfOk, OnErr, get_or, length};
ghost use Rattle.ps_compute.specs.Rows.{beside_keys};
ghost use Rattle.ps_frame.specs.Functions.{Functions};
ghost use Rattle.ps_frame.specs.Sorting.{directions_of, in_order_of_keys};
ghost use Rattle.ps_frame.specs.Tables.{Frame, whole};
ghost use Rattle.ps_frame.specs.Trees.{tree_at};
ghost use Rattle.ps_meaning.specs.Cases.{cut_by};
ghost use Rattle.ps_meaning.specs.Nodes.{GivesFrame, MayFault};
ghost use Rattle.ps_meaning.specs.Steps.{key_trees, sort_step};
ghost use Rattle.ps_zip.specs.Zips.{AreTypedOver};

use crate::gathered::gathered;
use crate::keyed::{KeyedTable, keyed_table};
use ps_compute::order::{directions_for, sorted_rows};
use ps_frame::expr::AExpr;
use ps_frame::frame::DataFrame;
use ps_frame::refusal::{PolarsError, PolarsResult};
use ps_meaning::options::{ExprIR, SortMultipleOptions};
use ps_tables::cut::cut;
use pu_base::{Arena, Node};
use std::alloc::Global;

/// The table of a sort at the node `at`: the rows of a table in the stable order of expressions over it, and of these
/// the slice. The first expression decides, then the next; nulls stand where the options say.
///
/// Fails by a fault that breaks the sort, by `Rows` where an expression's column has too many cells, or for want of
/// memory.
pub fn sort(
    alloc: Global,
    at: Node,
    by: &[ExprIR],
    slice: Option<(i64, usize)>,
    options: &SortMultipleOptions,
    arena: &Arena<AExpr>,
    df: &DataFrame,
) -> PolarsResult<DataFrame>
    requires { AreTypedOver df.now.schema (key_trees (tree_at arena.now.items) by.now) }
    ensures table { IfOk result (λ f. (F : Functions) → GivesFrame F at.0 (sort_step (tree_at arena.now.items) by.now slice options.now) (df.now ∷ []) f) }
    ensures fault { IfErr result (λ e. (F : Functions) → MayFault F at.0 (sort_step (tree_at arena.now.items) by.now slice options.now) (df.now ∷ []) e) }
{
    // By hand: behind the conversion of `?` the proof would lose that this is the very error of the zip.
    match keyed_table(alloc, at, by, arena, df) {
        Ok(keyed) => sorted_part(alloc, &keyed, slice, options),
        Err(error) => Err(error),
    }
}

// The slice of the sorted rows.
fn sorted_part(
    alloc: Global,
    keyed: &KeyedTable,
    slice: Option<(i64, usize)>,
    options: &SortMultipleOptions,
) -> PolarsResult<DataFrame>
    ensures part { IfOk result (λ f. (sorted : Frame) × (sorted.schema ≡ keyed.now.table.schema) × (sorted.rows ≡ in_order_of_keys (directions_of (length keyed.now.keys.items) options.now.descending options.now.nulls_last) (beside_keys keyed.now.keys.items (λ i. get_or keyed.now.table.rows i []) (length keyed.now.table.rows))) × (whole f ≡ cut_by slice (whole sorted))) }
    ensures memory { OnErr result (result ≡ Err PolarsError.OutOfMemory) }
{
    let table = sorted(alloc, keyed, options)?;
    cut(alloc, table, slice)
}

// The rows of a table in the order of its keys.
fn sorted(
    alloc: Global,
    keyed: &KeyedTable,
    options: &SortMultipleOptions,
) -> PolarsResult<DataFrame>
    ensures schema { IfOk result (λ f. f.schema ≡ keyed.now.table.schema) }
    ensures rows { IfOk result (λ f. f.rows ≡ in_order_of_keys (directions_of (length keyed.now.keys.items) options.now.descending options.now.nulls_last) (beside_keys keyed.now.keys.items (λ i. get_or keyed.now.table.rows i []) (length keyed.now.table.rows))) }
    ensures memory { OnErr result (result ≡ Err PolarsError.OutOfMemory) }
{
    let keys = keyed.keys.as_slice();
    let Ok(directions) = directions_for(
        alloc,
        keys.len(),
        options.descending.as_slice(),
        options.nulls_last.as_slice(),
    ) else {
        return Err(PolarsError::OutOfMemory);
    };
    match sorted_rows(alloc, keyed.table.height(), keys, directions.as_slice()) {
        Ok(rows) => Ok(gathered(alloc, &keyed.table, rows.as_slice())?),
        Err(_) => Err(PolarsError::OutOfMemory),
    }
}

// A table's groups by keys, and a row for each.
ghost use Rattle.std.specs.Prelude.{◌≡◌, ◌<◌, ◌≤◌, ◌++◌, ◌∷◌, [], Bool, Err, IfErr, IfOk, OnErr, OnOk, Some, length, map, take};
ghost use Rattle.std.specs.List.{All, AllZip};
ghost use Rattle.ps_frame.specs.Aggregates.{max_rows};
ghost use Rattle.ps_frame.specs.Frames.{AllOfHeight, HasKinds, IsFrame, column_values};
ghost use Rattle.ps_frame.specs.Functions.{Functions};
ghost use Rattle.ps_frame.specs.Gathered.{gathered};
ghost use Rattle.ps_frame.specs.Tables.{rows_of};
ghost use Rattle.ps_frame.specs.Trees.{tree_at};
ghost use Rattle.ps_groups.specs.Errors.{IsErrorAt};
ghost use Rattle.ps_groups.specs.Grouped.{CanGroup, IsAggregate, IsFaultOfGroups, all_causes, key_frames, keyed_rows, last_fields, table_groups};
ghost use Rattle.ps_keys.specs.Numbering.{Numbers};
ghost use Rattle.ps_meaning.specs.Nodes.{GivesFrame, MayFault};
ghost use Rattle.ps_meaning.specs.Schemas.{fields_of};
ghost use Rattle.ps_meaning.specs.Steps.{group_step, key_trees, named_trees};
ghost use Rattle.ps_zip.specs.Zips.{AreTypedOver};

use crate::aggregates::aggregate_columns;
use crate::key_columns::gathered_columns;
use ps_frame::column::Column;
use ps_frame::expr::AExpr;
use ps_frame::frame::DataFrame;
use ps_frame::refusal::{PolarsError, PolarsResult};
use ps_frame::schema::Schema;
use ps_keys::numbering::{Numbering, number_rows};
use ps_meaning::options::ExprIR;
use ps_rows::keyed::{KeyedTable, keyed_table};
use ps_tables::cut::cut;
use ps_tables::framed::frame_of_height;
use pu_base::{Arena, Node};
use std::alloc::{AllocError, Global};

/// A row for each group of the rows whose keys are the same: the key, and the value of each aggregate over the
/// group's rows; then the slice. The groups stand in the order in which their keys come first.
///
/// Fails by a fault of the keys or of an aggregate over a group, by `Rows` where a key has too many cells, or for
/// want of memory.
pub fn group_by(
    alloc: Global,
    at: Node,
    keys: &[ExprIR],
    aggs: &[ExprIR],
    slice: Option<(i64, usize)>,
    arena: &Arena<AExpr>,
    df: &DataFrame,
    schema: &Schema,
) -> PolarsResult<DataFrame>
    requires keys { AreTypedOver df.now.schema (key_trees (tree_at arena.now.items) keys.now) }
    requires aggs { AreTypedOver df.now.schema (key_trees (tree_at arena.now.items) aggs.now) }
    requires schema { fields_of (named_trees (tree_at arena.now.items) keys.now ++ named_trees (tree_at arena.now.items) aggs.now) df.now.schema ≡ Some schema.now }
    ensures table { IfOk result (λ f. (F : Functions) (maintained : Bool) → GivesFrame F at.0 (group_step (tree_at arena.now.items) keys.now aggs.now maintained slice) (df.now ∷ []) f) }
    ensures fault { IfErr result (λ e. (F : Functions) (maintained : Bool) → MayFault F at.0 (group_step (tree_at arena.now.items) keys.now aggs.now maintained slice) (df.now ∷ []) e) }
{
    // By hand: behind the conversion of `?` the proof would lose that this is the very error of the zip.
    let keyed = match keyed_table(alloc, at, keys, arena, df) {
        Ok(keyed) => keyed,
        Err(error) => return Err(error),
    };
    // By hand: behind the conversion of `?` the proof would lose that this is the very error of the groups.
    match groups_of(alloc, at, &keyed, aggs, arena, schema) {
        Ok(groups) => cut(alloc, groups, slice),
        Err(error) => Err(error),
    }
}

// A row for each group of a table's rows by the columns of keys.
fn groups_of(
    alloc: Global,
    at: Node,
    keyed: &KeyedTable,
    aggs: &[ExprIR],
    arena: &Arena<AExpr>,
    schema: &Schema,
) -> PolarsResult<DataFrame>
    requires { CanGroup keyed.now.table keyed.now.keys.items (key_trees (tree_at arena.now.items) aggs.now) schema.now }
    ensures schema { IfOk result (λ f. f.schema ≡ schema.now) }
    ensures rows { IfOk result (λ f. f.rows ≡ map (λ g. g.cells) (table_groups at.0 (key_trees (tree_at arena.now.items) aggs.now) keyed.now.table keyed.now.keys.items)) }
    ensures clean { OnOk result (all_causes (table_groups at.0 (key_trees (tree_at arena.now.items) aggs.now) keyed.now.table keyed.now.keys.items) ≡ []) }
    ensures fault { IfErr result (IsErrorAt at.0 (IsFaultOfGroups at.0 (table_groups at.0 (key_trees (tree_at arena.now.items) aggs.now) keyed.now.table keyed.now.keys.items))) }
{
    let numbering = numbered_keys(alloc, keyed)?;
    // By hand: behind the conversion of `?` the proof would lose that this is the very error of the aggregates.
    match values_of_groups(alloc, at, keyed, &numbering, aggs, arena, schema) {
        Ok(values) => {
            let keys = keyed.keys.as_slice();
            let height = keyed.table.height();
            rows_of_groups(
                alloc,
                keys,
                height,
                numbering.firsts.as_slice(),
                values,
                schema,
            )
        },
        Err(error) => Err(error),
    }
}

// The numbers of a table's rows by their keys.
fn numbered_keys(alloc: Global, keyed: &KeyedTable) -> Result<Numbering, AllocError>
    requires { AllOfHeight (length keyed.now.table.rows) keyed.now.keys.items }
    ensures numbers { IfOk result (Numbers (rows_of (length keyed.now.table.rows) (column_values keyed.now.keys.items))) }
    ensures small { length keyed.now.table.rows ≤ max_rows }
{
    number_rows(alloc, keyed.keys.as_slice(), keyed.table.height())
}

// The columns of aggregates over the groups of a table's rows.
fn values_of_groups(
    alloc: Global,
    at: Node,
    keyed: &KeyedTable,
    numbering: &Numbering,
    aggs: &[ExprIR],
    arena: &Arena<AExpr>,
    schema: &Schema,
) -> PolarsResult<Vec<Column>>
    requires groups { CanGroup keyed.now.table keyed.now.keys.items (key_trees (tree_at arena.now.items) aggs.now) schema.now }
    requires numbers { Numbers (rows_of (length keyed.now.table.rows) (column_values keyed.now.keys.items)) numbering.now }
    ensures kinds { IfOk result (λ columns. HasKinds (last_fields (length aggs.now) schema.now) columns.items) }
    ensures columns { IfOk result (λ columns. AllZip (IsAggregate at.0 (key_frames keyed.now.table.schema (keyed_rows keyed.now.table keyed.now.keys.items))) (key_trees (tree_at arena.now.items) aggs.now) columns.items) }
    ensures fault { IfErr result (IsErrorAt at.0 (IsFaultOfGroups at.0 (table_groups at.0 (key_trees (tree_at arena.now.items) aggs.now) keyed.now.table keyed.now.keys.items))) }
{
    aggregate_columns(alloc, at, aggs, arena, &keyed.table, numbering, schema)
}

// The table of the keys at their first rows, and of the values of their groups.
fn rows_of_groups(
    alloc: Global,
    keys: &[Column],
    height: usize,
    firsts: &[usize],
    values: Vec<Column>,
    schema: &Schema,
) -> PolarsResult<DataFrame>
    requires width { length keys.now ≤ length schema.now }
    requires own { IsFrame (take (length keys.now) schema.now) keys.now height }
    requires there { All (λ i. i < height) firsts.now }
    requires few { length firsts.now ≤ max_rows }
    requires fields { IsFrame schema.now (map (gathered firsts.now) keys.now ++ values.items) (length firsts.now) }
    ensures schema { IfOk result (λ f. f.schema ≡ schema.now) }
    ensures rows { IfOk result (λ f. f.rows ≡ rows_of (length firsts.now) (column_values (map (gathered firsts.now) keys.now ++ values.items))) }
    ensures memory { OnErr result (result ≡ Err PolarsError.OutOfMemory) }
{
    let keys = gathered_columns(alloc, keys, schema, height, firsts)?;
    table_of(alloc, schema, keys, values, firsts.len())
}

// The table of columns of a height, and then of others of it.
fn table_of(
    alloc: Global,
    schema: &Schema,
    mut columns: Vec<Column>,
    others: Vec<Column>,
    height: usize,
) -> PolarsResult<DataFrame>
    requires { IsFrame schema.now (columns.items ++ others.items) height }
    ensures schema { IfOk result (λ f. f.schema ≡ schema.now) }
    ensures rows { IfOk result (λ f. f.rows ≡ rows_of height (column_values (columns.items ++ others.items))) }
    ensures memory { OnErr result (result ≡ Err PolarsError.OutOfMemory) }
{
    for column in others {
        columns.push(column)?;
    }
    frame_of_height(alloc, schema, columns, height)
}

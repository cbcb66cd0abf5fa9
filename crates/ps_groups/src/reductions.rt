// Aggregates that need no table of a group.
ghost use Rattle.std.specs.Prelude.{◌≡◌, ◌<◌, ℕ, List, IfOk, IfSome, OnOk, Some, length};
ghost use Rattle.ps_expr_eval.specs.Wholes.{aggregation_of};
ghost use Rattle.ps_frame.specs.Tables.{field_index};
ghost use Rattle.ps_frame.specs.Trees.{Aggregation as AnAggregation, IsComplete, IsExpression, Tree as ATree, aggregate_tree, tree_at};
ghost use Rattle.ps_groups.specs.Reductions.{ReadsWithin, Reduces, ReducesColumn, reduced_values};
ghost use Rattle.ps_keys.specs.KeyRows.{AreBelow, places_of_each};

use crate::by_key::{row_counts, sums, value_counts};
use crate::statistics::{Statistic, statistics};
use ps_expr_eval::aggregate::aggregated;
use ps_frame::expr::{AExpr, IRAggExpr, entry};
use ps_frame::frame::DataFrame;
use ps_frame::schema::Schema;
use ps_frame::value::Value;
use ps_keys::key_rows::{RowsByKey, rows_by_key};
use pu_base::{Arena, Node};
use std::alloc::{AllocError, Global};

/// An aggregate that needs no table of a group.
#[derive(Clone, Copy)]
pub(crate) enum Reduction {
    /// How many rows there are.
    Len,
    /// How many values of the column at this place aren't null.
    Count(usize),
    /// The sum of the column at this place.
    Sum(usize),
    /// What is told of the column at this place.
    Told(Statistic, usize),
}

/// The reduction that gives what an expression gives over tables of a schema, where one is known.
pub(crate) fn reduction_of(expr: Node, arena: &Arena<AExpr>, schema: &Schema) -> Option<Reduction>
    requires { IsExpression arena.now.items expr }
    ensures reduces { IfSome result (Reduces schema.now (tree_at arena.now.items expr)) }
    ensures within { IfSome result (ReadsWithin (length schema.now)) }
{
    match entry(expr, arena) {
        AExpr::Len => Some(Reduction::Len),
        AExpr::Agg(aggregate) => column_reduction(*aggregate, arena, schema),
        _ => None,
    }
}

// The same of an aggregate.
fn column_reduction(
    aggregate: IRAggExpr,
    arena: &Arena<AExpr>,
    schema: &Schema,
) -> Option<Reduction>
    requires { IsComplete (aggregate_tree (tree_at arena.now.items) aggregate) }
    ensures reduces { IfSome result (Reduces schema.now (aggregate_tree (tree_at arena.now.items) aggregate)) }
    ensures within { IfSome result (ReadsWithin (length schema.now)) }
{
    match column_place(aggregated(aggregate), arena, schema) {
        Some(place) => Some(reduction_at(aggregate, place)),
        None => None,
    }
}

// Where the column stands that an expression is.
fn column_place(expr: Node, arena: &Arena<AExpr>, schema: &Schema) -> Option<usize>
    requires { IsExpression arena.now.items expr }
    ensures column { IfSome result (λ i. (name : List ℕ) × (tree_at arena.now.items expr ≡ ATree.column name) × (field_index name schema.now ≡ Some i)) }
    ensures within { IfSome result (λ i. i < length schema.now) }
{
    match entry(expr, arena) {
        AExpr::Column(name) => schema.index_of(name.as_str()),
        _ => None,
    }
}

// The reduction that an aggregate of the column at a place is.
fn reduction_at(aggregate: IRAggExpr, place: usize) -> Reduction
    ensures reduces { ReducesColumn (aggregation_of aggregate) place result }
    ensures within { (n : ℕ) → place < n → ReadsWithin n result }
{
    match aggregate {
        IRAggExpr::Min(_) => Reduction::Told(Statistic::Least, place),
        IRAggExpr::Max(_) => Reduction::Told(Statistic::Greatest, place),
        IRAggExpr::First(_) => Reduction::Told(Statistic::First, place),
        IRAggExpr::Last(_) => Reduction::Told(Statistic::Last, place),
        IRAggExpr::Sum(_) => Reduction::Sum(place),
        IRAggExpr::NUnique(_) => Reduction::Told(Statistic::Distinct, place),
        IRAggExpr::Count(_, all) => count_at(place, all),
    }
}

// Each row has a value of the column.
fn count_at(place: usize, all: bool) -> Reduction
    ensures reduces { ReducesColumn (AnAggregation.count all) place result }
    ensures within { (n : ℕ) → place < n → ReadsWithin n result }
{
    if all {
        Reduction::Len
    } else {
        Reduction::Count(place)
    }
}

/// The values of a reduction over the rows of each key, where each row's key is given by its number below the
/// count. The rows of each key are put together once a reduction needs them so.
///
/// Fails only for want of memory.
pub(crate) fn reduced(
    alloc: Global,
    reduction: Reduction,
    df: &DataFrame,
    keys: &[usize],
    count: usize,
    rows_of_keys: &mut Option<RowsByKey>,
) -> Result<Vec<Value>, AllocError>
    requires within { ReadsWithin (length df.now.schema) reduction }
    requires below { AreBelow count keys.now }
    requires long { length keys.now ≡ length df.now.rows }
    requires together { IfSome rows_of_keys.old (λ rows. rows ≡ places_of_each count keys.now) }
    ensures values { IfOk result (λ values. values.items ≡ reduced_values df.now count keys.now reduction) }
    ensures together { OnOk result (IfSome rows_of_keys.new (λ rows. rows ≡ places_of_each count keys.now)) }
{
    // Read for its clause alone: there are few enough rows that a count of them takes 4 bytes.
    let _height = df.height();
    match reduction {
        Reduction::Len => row_counts(alloc, keys, count),
        Reduction::Count(place) => value_counts(alloc, df.column(place), keys, count),
        Reduction::Sum(place) => sums(alloc, df.column(place), keys, count),
        Reduction::Told(statistic, place) => {
            let rows = rows_of_keys.get_or_try_insert_with(|| rows_by_key(alloc, keys, count))?;
            statistics(alloc, statistic, df.column(place), rows)
        }
    }
}

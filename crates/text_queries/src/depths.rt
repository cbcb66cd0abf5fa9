// How deep the expressions of a query are.
ghost use Rattle.std.specs.Prelude.{◌≡◌, ◌-◌, ◌^◌, min};
ghost use Rattle.text_queries.specs.Queries.{depth, expr_depth, greatest, items_depth, stage_depth};
ghost use Rattle.text_queries.specs.Views.{expr_of, item_of, key_of, query_of, stage_of};
ghost use Rattle.std.specs.Prelude.{map};

use crate::query::{Item, Key, Query, Stage, TextExpr};

/// The depth of the deepest expression of a query, 1 for one that holds none, and 0 for a query without expressions. A
/// depth that no `usize` holds is told as the greatest.
pub fn depth(query: &Query) -> usize
    ensures { result ≡ min (depth (query_of query.now)) (2 ^ 64 - 1) }
{
    let mut deepest = 0;
    for stage in query.stages.as_slice() {
        deepest = deepest.max(stage_depth(stage));
    }
    deepest
}

/// The depth of the deepest expression of a stage.
fn stage_depth(stage: &Stage) -> usize
    ensures { result ≡ min (stage_depth (stage_of stage.now)) (2 ^ 64 - 1) }
{
    match stage {
        Stage::Filter(predicate) => expr_depth(predicate),
        Stage::Select(items) => items_depth(items.as_slice()),
        Stage::With(items) => items_depth(items.as_slice()),
        Stage::Group { keys, aggs } => {
            items_depth(keys.as_slice()).max(items_depth(aggs.as_slice()))
        }
        Stage::Sort(keys) => keys_depth(keys.as_slice()),
        Stage::Slice { .. } | Stage::Distinct | Stage::Join { .. } => 0,
    }
}

/// The depth of the deepest expression of some items.
fn items_depth(items: &[Item]) -> usize
    ensures { result ≡ min (items_depth (map item_of items.now)) (2 ^ 64 - 1) }
{
    let mut deepest = 0;
    for item in items {
        deepest = deepest.max(expr_depth(&item.expr));
    }
    deepest
}

/// The depth of the deepest expression of some keys.
fn keys_depth(keys: &[Key]) -> usize
    ensures { result ≡ min (greatest (λ key. expr_depth key.expr) (map key_of keys.now)) (2 ^ 64 - 1) }
{
    let mut deepest = 0;
    for key in keys {
        deepest = deepest.max(expr_depth(&key.expr));
    }
    deepest
}

/// The depth of an expression: 1 where it holds no other, and else one more than that of the deepest that it holds.
fn expr_depth(expr: &TextExpr) -> usize
    ensures { result ≡ min (expr_depth (expr_of expr.now)) (2 ^ 64 - 1) }
{
    match expr {
        TextExpr::Call { name: _, of } => expr_depth(of).saturating_add(1),
        TextExpr::Binary { op: _, left, right } => {
            expr_depth(left).max(expr_depth(right)).saturating_add(1)
        }
        TextExpr::Name(_)
        | TextExpr::Int(_)
        | TextExpr::Text(_)
        | TextExpr::Bool(_)
        | TextExpr::Null(_)
        | TextExpr::Len => 1,
    }
}

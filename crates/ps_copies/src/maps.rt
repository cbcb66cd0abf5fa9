//! Copies of what a map does, with the expressions that it names.
ghost use Rattle.std.specs.Prelude.{◌≡◌, Err, IfOk, OnErr, OnOk};
ghost use Rattle.std.specs.List.{AllByRecursion};
ghost use Rattle.ps_frame.specs.Trees.{IsComplete, tree_at};
ghost use Rattle.ps_meaning.specs.Maps.{map_step};
ghost use Rattle.ps_meaning.specs.Steps.{key_trees, named_trees, step_exprs};
ghost use Rattle.ps_copies.specs.Copies.{KeepsTrees};

use crate::exprs::copy_expr;
use crate::try_clone::TryClone;
use ps_frame::expr::AExpr;
use ps_frame::items::Items;
use ps_meaning::map::MapKind;
use ps_meaning::options::ExprIR;
use pu_base::{Arena, PolarsUtilsError, Result};
use std::alloc::Global;

/// Copies what a map does, and the expressions that it names into another arena: there they have the same trees.
///
/// Fails only for want of memory; the other arena may then have grown.
pub fn copy_map(
    alloc: Global,
    kind: &MapKind,
    from: &Arena<AExpr>,
    into: &mut Arena<AExpr>,
) -> Result<MapKind>
    requires { AllByRecursion IsComplete (step_exprs (map_step (tree_at from.now.items) kind.now)) }
    ensures step { IfOk result (λ k. map_step (tree_at into.new.items) k ≡ map_step (tree_at from.now.items) kind.now) }
    ensures memory { OnErr result (result ≡ Err PolarsUtilsError.OutOfMemory) }
{
    match kind {
        MapKind::Function(n) => Ok(MapKind::Function(*n)),
        MapKind::Select(exprs) => {
            let exprs = copy_named(alloc, exprs.as_slice(), from, into)?;
            Ok(MapKind::Select(exprs))
        }
        MapKind::Sort {
            by_column,
            slice,
            sort_options,
        } => {
            let by_column = copy_named(alloc, by_column.as_slice(), from, into)?;
            let sort_options = sort_options.try_clone(alloc)?;
            Ok(MapKind::Sort {
                by_column,
                slice: *slice,
                sort_options,
            })
        }
        MapKind::GroupBy {
            keys,
            aggs,
            maintain_order,
            slice,
        } => {
            let keys = copy_named(alloc, keys.as_slice(), from, into)?;
            let aggs = copy_named(alloc, aggs.as_slice(), from, into)?;
            Ok(MapKind::GroupBy {
                keys,
                aggs,
                maintain_order: *maintain_order,
                slice: *slice,
            })
        }
        MapKind::Distinct(options) => {
            let options = options.try_clone(alloc)?;
            Ok(MapKind::Distinct(options))
        }
    }
}

// Named expressions, whose trees stand in the other arena too.
fn copy_named(
    alloc: Global,
    exprs: &[ExprIR],
    from: &Arena<AExpr>,
    into: &mut Arena<AExpr>,
) -> Result<Items<ExprIR>>
    requires { AllByRecursion IsComplete (key_trees (tree_at from.now.items) exprs.now) }
    ensures named { IfOk result (λ es. named_trees (tree_at into.new.items) es ≡ named_trees (tree_at from.now.items) exprs.now) }
    ensures kept { OnOk result (KeepsTrees into.old.items into.new.items) }
    ensures memory { OnErr result (result ≡ Err PolarsUtilsError.OutOfMemory) }
{
    let mut copies = Vec::with_capacity(alloc, exprs.len())?;
    for expr in exprs {
        let node = copy_expr(alloc, expr.node, from, into)?;
        let output_name = expr.output_name.try_clone(alloc)?;
        copies.push(ExprIR { node, output_name })?;
    }
    Ok(Items::new(copies))
}

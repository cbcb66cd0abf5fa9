//! Copies of the expressions that physical nodes name.
ghost use Rattle.std.specs.Prelude.{◌≡◌, Err, IfOk, OnErr, map};
ghost use Rattle.std.specs.List.{AllByRecursion};
ghost use Rattle.ps_frame.specs.Trees.{IsComplete, tree_at};
ghost use Rattle.ps_frame.specs.declared.refusal.PolarsError.{PolarsError};
ghost use Rattle.ps_meaning.specs.Steps.{key_trees, named_trees};
ghost use Rattle.plain_nodes.specs.Exprs.{expr_shown};

use plain_nodes::stream_expr::StreamExpr;
use ps_copies::try_clone::TryClone;
use ps_frame::expr::AExpr;
use ps_frame::items::Items;
use ps_frame::refusal::{PolarsError, PolarsResult};
use ps_meaning::options::ExprIR;
use pu_base::Arena;
use std::alloc::Global;

/// Copies of expressions, one by one.
fn each_copied(
    alloc: Global,
    exprs: &[ExprIR],
    arena: &Arena<AExpr>,
) -> PolarsResult<Vec<StreamExpr>>
    requires { AllByRecursion IsComplete (key_trees (tree_at arena.now.items) exprs.now) }
    ensures shown { IfOk result (λ copies. map expr_shown copies.items ≡ named_trees (tree_at arena.now.items) exprs.now) }
    ensures memory { OnErr result (result ≡ Err PolarsError.OutOfMemory) }
{
    let mut copies = Vec::new(alloc);
    for expr in exprs {
        let copy = StreamExpr::new(alloc, expr, arena)?;
        copies.push(copy)?;
    }
    Ok(copies)
}

/// Copies of expressions of an arena, with all that they name.
///
/// Fails only for want of memory.
pub fn copied(
    alloc: Global,
    exprs: &Items<ExprIR>,
    arena: &Arena<AExpr>,
) -> PolarsResult<Vec<StreamExpr>>
    requires { AllByRecursion IsComplete (key_trees (tree_at arena.now.items) exprs.now) }
    ensures shown { IfOk result (λ copies. map expr_shown copies.items ≡ named_trees (tree_at arena.now.items) exprs.now) }
    ensures memory { OnErr result (result ≡ Err PolarsError.OutOfMemory) }
{
    each_copied(alloc, exprs.as_slice(), arena)
}

/// An equal value. Its own error is another one, and stands for want of memory alone.
pub fn cloned<T: TryClone>(alloc: Global, value: &T) -> PolarsResult<T>
    ensures same { IfOk result (λ copy. copy ≡ value.now) }
    ensures memory { OnErr result (result ≡ Err PolarsError.OutOfMemory) }
{
    match value.try_clone(alloc) {
        Ok(copy) => Ok(copy),
        Err(_error) => Err(PolarsError::OutOfMemory),
    }
}

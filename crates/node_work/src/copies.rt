//! Copies of expressions and of names.
ghost use Rattle.std.specs.Prelude.{◌≡◌, Err, IfOk, OnErr, map};
ghost use Rattle.plain_nodes.specs.Exprs.{expr_shown};
ghost use Rattle.ps_frame.specs.Trees.{tree_at};
ghost use Rattle.ps_frame.specs.declared.refusal.PolarsError.{PolarsError};
ghost use Rattle.ps_meaning.specs.Steps.{named_trees};

use plain_nodes::stream_expr::StreamExpr;
use ps_frame::expr::AExpr;
use ps_frame::refusal::{PolarsError, PolarsResult};
use ps_meaning::options::ExprIR;
use pu_base::{Arena, PlSmallStr};
use std::alloc::Global;

/// Copies of expressions at the end of an arena. They have the same names and trees.
///
/// Fails only for want of memory; the arena may then have grown.
pub(crate) fn copied(
    alloc: Global,
    exprs: &[StreamExpr],
    into: &mut Arena<AExpr>,
) -> PolarsResult<Vec<ExprIR>>
    ensures named { IfOk result (λ copies. named_trees (tree_at into.new.items) copies.items ≡ map expr_shown exprs.now) }
    ensures memory { OnErr result (result ≡ Err PolarsError.OutOfMemory) }
{
    let mut copies = Vec::with_capacity(alloc, exprs.len())?;
    for expr in exprs {
        let copy = match expr.copy_into(alloc, into) {
            Ok(copy) => copy,
            Err(error) => return Err(error),
        };
        copies.push(copy)?;
    }
    Ok(copies)
}

/// The same names.
///
/// Fails only for want of memory.
pub(crate) fn names_copied(alloc: Global, names: &[PlSmallStr]) -> PolarsResult<Vec<PlSmallStr>>
    ensures same { IfOk result (λ copies. copies.items ≡ names.now) }
    ensures memory { OnErr result (result ≡ Err PolarsError.OutOfMemory) }
{
    let mut copies = Vec::with_capacity(alloc, names.len())?;
    for name in names {
        let Ok(copy) = name.try_clone(alloc) else {
            return Err(PolarsError::OutOfMemory);
        };
        copies.push(copy)?;
    }
    Ok(copies)
}

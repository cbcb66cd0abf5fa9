//! The keys of both sides of a join in one arena.
ghost use Rattle.std.specs.Prelude.{◌≡◌, Err, IfOk, OnErr, OnOk, map};
ghost use Rattle.std.specs.List.{AllByRecursion};
ghost use Rattle.ps_copies.specs.Copies.{KeepsTrees};
ghost use Rattle.ps_frame.specs.Trees.{IsComplete, tree_at};
ghost use Rattle.ps_frame.specs.declared.refusal.PolarsError.{PolarsError};
ghost use Rattle.ps_meaning.specs.Steps.{exprs_of, key_trees};
ghost use Rattle.plain_nodes.specs.Exprs.{expr_shown, join_shown};
ghost use Rattle.ps_joins.specs.JoinOf.{join_of};
ghost use Rattle.ps_meaning.specs.declared.options.JoinArgs.{JoinArgs};

use plain_nodes::stream_expr::StreamExpr;
use ps_frame::expr::AExpr;
use ps_frame::refusal::PolarsResult;
use ps_meaning::options::ExprIR;
use pu_base::Arena;
use std::alloc::Global;

/// The keys of both sides, which name expressions of one arena.
#[derive(Drop)]
pub(crate) struct SideKeys {
    pub(crate) exprs: Arena<AExpr>,
    pub(crate) left_on: Vec<ExprIR>,
    pub(crate) right_on: Vec<ExprIR>,
}

/// Copies of expressions at the end of one arena, where they have the same trees. What stood there keeps its trees.
///
/// Fails only for want of memory; the arena may then have grown.
fn copied_keys(
    alloc: Global,
    keys: &[StreamExpr],
    into: &mut Arena<AExpr>,
) -> PolarsResult<Vec<ExprIR>>
    requires { AllByRecursion IsComplete (exprs_of (map expr_shown keys.now)) }
    ensures trees { IfOk result (λ copies. key_trees (tree_at into.new.items) copies.items ≡ exprs_of (map expr_shown keys.now)) }
    ensures kept { OnOk result (KeepsTrees into.old.items into.new.items) }
    ensures memory { OnErr result (result ≡ Err PolarsError.OutOfMemory) }
{
    let mut copies = Vec::with_capacity(alloc, keys.len())?;
    for key in keys {
        let copy = match key.copy_into(alloc, into) {
            Ok(copy) => copy,
            Err(error) => return Err(error),
        };
        copies.push(copy)?;
    }
    Ok(copies)
}

/// Copies of the keys of both sides in one arena. They join as the keys do.
///
/// Fails only for want of memory.
pub(crate) fn copied_sides(
    alloc: Global,
    left_on: &[StreamExpr],
    right_on: &[StreamExpr],
) -> PolarsResult<SideKeys>
    requires left { AllByRecursion IsComplete (exprs_of (map expr_shown left_on.now)) }
    requires right { AllByRecursion IsComplete (exprs_of (map expr_shown right_on.now)) }
    ensures same { IfOk result (λ keys. (args : JoinArgs) → join_of (tree_at keys.exprs.items) keys.left_on.items keys.right_on.items args ≡ join_shown left_on.now right_on.now args) }
    ensures memory { OnErr result (result ≡ Err PolarsError.OutOfMemory) }
{
    let mut exprs = Arena::new(alloc);
    // Matches and no `?`: the error of a copy is that of the answer.
    let left = match copied_keys(alloc, left_on, &mut exprs) {
        Ok(left) => left,
        Err(error) => return Err(error),
    };
    match copied_keys(alloc, right_on, &mut exprs) {
        Ok(right) => Ok(SideKeys {
            exprs,
            left_on: left,
            right_on: right,
        }),
        Err(error) => Err(error),
    }
}

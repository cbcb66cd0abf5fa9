//! What a call does at expressions whose operands it doesn't lower.
ghost use Rattle.std.specs.Prelude.{◌≡◌, Err, OnErr, OnOk};
ghost use Rattle.ps_frame.specs.Trees.{IsExpression, Tree, tree_at};
ghost use Rattle.ps_frame.specs.declared.refusal.PolarsError.{PolarsError};
ghost use Rattle.ps_fresh.specs.Known.{Remembers};
ghost use Rattle.ps_phys.specs.Shown.{stream_of};
ghost use Rattle.ps_rules.specs.Calls.{given_reduction, left_to_map};
ghost use Rattle.ps_rules.specs.Rules.{stays};
ghost use Rattle.lowering_parts.specs.Gathered.{AreWhole, Follows, GoesOn};

use crate::gathered::Gathered;
use crate::names::{add_column, add_expr, fresh, under_name};
use ps_frame::expr::AExpr;
use ps_frame::refusal::PolarsResult;
use ps_fresh::expr_cache::is_input_independent;
use ps_fresh::lowering::Lowering;
use ps_phys::phys::PhysStream;
use pu_base::{Arena, Node};
use std::alloc::Global;

/// An elementwise expression stays, over the input unless it is independent of it.
///
/// Fails only for want of memory; what the call has gathered is then lost.
pub fn stay(
    alloc: Global,
    arena: &Arena<AExpr>,
    low: &mut Lowering,
    input: PhysStream,
    expr: Node,
    call: &mut Gathered,
) -> PolarsResult<()>
    requires expr { IsExpression arena.now.items expr }
    requires cache { Remembers arena.now.items low.old.cache }
    requires whole { AreWhole arena.now.items call.old }
    ensures follows { OnOk result (Follows (stays low.old.origin.0 (stream_of input) (tree_at arena.now.items expr)) arena.now.items arena.now.items low.old low.new call.old call.new) }
    ensures goes_on { GoesOn arena.now.items arena.now.items low.old low.new }
    ensures memory { OnErr result (result ≡ Err PolarsError.OutOfMemory) }
{
    let independent = is_input_independent(alloc, expr, arena, &mut low.cache)?;
    if independent {
        return call.keep(expr);
    }
    call.give(expr, input)
}

/// An expression is left to the call's one map, under a fresh name.
///
/// Fails only for want of memory; what the call has gathered is then lost.
pub fn leave_to_map(
    alloc: Global,
    arena: &mut Arena<AExpr>,
    low: &mut Lowering,
    expr: Node,
    call: &mut Gathered,
) -> PolarsResult<()>
    requires expr { IsExpression arena.old.items expr }
    requires cache { Remembers arena.old.items low.old.cache }
    requires whole { AreWhole arena.old.items call.old }
    ensures follows { OnOk result (Follows (left_to_map (tree_at arena.old.items expr)) arena.old.items arena.new.items low.old low.new call.old call.new) }
    ensures goes_on { GoesOn arena.old.items arena.new.items low.old low.new }
    ensures memory { OnErr result (result ≡ Err PolarsError.OutOfMemory) }
{
    let name = fresh(alloc, low)?;
    let column = add_column(alloc, &name, arena)?;
    call.give_mapped(column, under_name(name, expr))?;
    Ok(())
}

/// The rows of the input are counted by its reduce, under a fresh name.
///
/// Fails only for want of memory; what the call has gathered is then lost.
pub fn count_rows(
    alloc: Global,
    arena: &mut Arena<AExpr>,
    low: &mut Lowering,
    call: &mut Gathered,
) -> PolarsResult<()>
    requires cache { Remembers arena.old.items low.old.cache }
    requires whole { AreWhole arena.old.items call.old }
    ensures follows { OnOk result (Follows (λ c. given_reduction Tree.len c.state c) arena.old.items arena.new.items low.old low.new call.old call.new) }
    ensures goes_on { GoesOn arena.old.items arena.new.items low.old low.new }
    ensures memory { OnErr result (result ≡ Err PolarsError.OutOfMemory) }
{
    let name = fresh(alloc, low)?;
    let column = add_column(alloc, &name, arena)?;
    let count = add_expr(arena, AExpr::Len)?;
    call.give_reduction(column, under_name(name, count))?;
    Ok(())
}

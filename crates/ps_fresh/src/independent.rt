//! Whether expressions read their input.
ghost use Rattle.std.specs.Prelude.{◌≡◌, ◌&&◌, Err, IfOk, OnErr};
ghost use Rattle.ps_frame.specs.Trees.{AreComplete, IsExpression, tree_at, trees_of};
ghost use Rattle.ps_frame.specs.Typing.{every_part_of_all, is_independent, reads_no_input};
ghost use Rattle.ps_frame.specs.declared.refusal.PolarsError.{PolarsError};
ghost use Rattle.ps_plan.specs.Graph.{aggregate_operand};
ghost use Rattle.ps_fresh.specs.Known.{RemembersBy};

use crate::known::KnownAnswers;
use ps_frame::expr::{AExpr, IRAggExpr, entry};
use ps_frame::refusal::{PolarsError, PolarsResult};
use pu_base::{Arena, Node};
use std::alloc::Global;

/// Whether an expression reads no input: no column, and no height. Each expression below it is looked at once, in all calls together.
///
/// Fails only for want of memory; what is then known is still right.
#[cycle(input_independent)]
pub(crate) fn is_independent_expr(
    alloc: Global,
    expr: Node,
    arena: &Arena<AExpr>,
    cache: &mut KnownAnswers,
) -> PolarsResult<bool>
    requires expr { IsExpression arena.now.items expr }
    requires cache { RemembersBy is_independent arena.now.items cache.old }
    ensures is { IfOk result (λ is. is ≡ is_independent (tree_at arena.now.items expr)) }
    ensures cache { RemembersBy is_independent arena.now.items cache.new }
    ensures memory { OnErr result (result ≡ Err PolarsError.OutOfMemory) }
{
    if let Some(is) = cache.get(expr) {
        return Ok(is);
    }
    let is = is_entry_independent(alloc, expr, arena, cache)?;
    cache.note(expr, is)?;
    Ok(is)
}

// The same by its operands, whatever is known of it.
#[cycle(input_independent)]
fn is_entry_independent(
    alloc: Global,
    expr: Node,
    arena: &Arena<AExpr>,
    cache: &mut KnownAnswers,
) -> PolarsResult<bool>
    requires expr { IsExpression arena.now.items expr }
    requires cache { RemembersBy is_independent arena.now.items cache.old }
    ensures is { IfOk result (λ is. is ≡ is_independent (tree_at arena.now.items expr)) }
    ensures cache { RemembersBy is_independent arena.now.items cache.new }
    ensures memory { OnErr result (result ≡ Err PolarsError.OutOfMemory) }
{
    match entry(expr, arena) {
        AExpr::Column(_) | AExpr::Len => Ok(false),
        AExpr::Literal(_) | AExpr::LeftOut(_) => Ok(true),
        AExpr::BinaryExpr { left, op: _, right } => {
            are_both_independent(alloc, *left, *right, arena, cache)
        }
        AExpr::Cast { expr, .. } | AExpr::Sort { expr, .. } => {
            is_independent_expr(alloc, *expr, arena, cache)
        }
        AExpr::SortBy { expr, by, .. } => {
            is_with_all_independent(alloc, *expr, by.as_slice(), arena, cache)
        }
        AExpr::Gather { expr, idx, .. } => are_both_independent(alloc, *expr, *idx, arena, cache),
        AExpr::Filter { input, by } => are_both_independent(alloc, *input, *by, arena, cache),
        AExpr::Agg(aggregate) => is_independent_expr(alloc, operand(aggregate), arena, cache),
        AExpr::Ternary {
            predicate,
            truthy,
            falsy,
        } => are_three_independent(alloc, *predicate, *truthy, *falsy, arena, cache),
        AExpr::Function { input, .. } => is_independent_expr(alloc, *input, arena, cache),
        AExpr::Slice {
            input,
            offset,
            length,
        } => are_three_independent(alloc, *input, *offset, *length, arena, cache),
    }
}

// The expression over which an aggregate goes.
fn operand(aggregate: &IRAggExpr) -> Node
    ensures { result ≡ aggregate_operand aggregate.now }
{
    match aggregate {
        IRAggExpr::Min(input)
        | IRAggExpr::Max(input)
        | IRAggExpr::First(input)
        | IRAggExpr::Last(input)
        | IRAggExpr::Sum(input)
        | IRAggExpr::NUnique(input)
        | IRAggExpr::Count(input, _) => *input,
    }
}

// Whether neither of two expressions reads an input.
#[cycle(input_independent)]
fn are_both_independent(
    alloc: Global,
    first: Node,
    second: Node,
    arena: &Arena<AExpr>,
    cache: &mut KnownAnswers,
) -> PolarsResult<bool>
    requires first { IsExpression arena.now.items first }
    requires second { IsExpression arena.now.items second }
    requires cache { RemembersBy is_independent arena.now.items cache.old }
    ensures are { IfOk result (λ are. are ≡ (is_independent (tree_at arena.now.items first) && is_independent (tree_at arena.now.items second))) }
    ensures cache { RemembersBy is_independent arena.now.items cache.new }
    ensures memory { OnErr result (result ≡ Err PolarsError.OutOfMemory) }
{
    let first = is_independent_expr(alloc, first, arena, cache)?;
    let second = is_independent_expr(alloc, second, arena, cache)?;
    Ok(first && second)
}

// Whether none of three does.
#[cycle(input_independent)]
fn are_three_independent(
    alloc: Global,
    first: Node,
    second: Node,
    third: Node,
    arena: &Arena<AExpr>,
    cache: &mut KnownAnswers,
) -> PolarsResult<bool>
    requires first { IsExpression arena.now.items first }
    requires second { IsExpression arena.now.items second }
    requires third { IsExpression arena.now.items third }
    requires cache { RemembersBy is_independent arena.now.items cache.old }
    ensures are { IfOk result (λ are. are ≡ (is_independent (tree_at arena.now.items first) && (is_independent (tree_at arena.now.items second) && is_independent (tree_at arena.now.items third)))) }
    ensures cache { RemembersBy is_independent arena.now.items cache.new }
    ensures memory { OnErr result (result ≡ Err PolarsError.OutOfMemory) }
{
    let first = is_independent_expr(alloc, first, arena, cache)?;
    let others = are_both_independent(alloc, second, third, arena, cache)?;
    Ok(first && others)
}

// Whether neither an expression nor any of others does.
#[cycle(input_independent)]
fn is_with_all_independent(
    alloc: Global,
    first: Node,
    others: &[Node],
    arena: &Arena<AExpr>,
    cache: &mut KnownAnswers,
) -> PolarsResult<bool>
    requires first { IsExpression arena.now.items first }
    requires others { AreComplete (trees_of (tree_at arena.now.items) others.now) }
    requires cache { RemembersBy is_independent arena.now.items cache.old }
    ensures are { IfOk result (λ are. are ≡ (is_independent (tree_at arena.now.items first) && every_part_of_all reads_no_input (trees_of (tree_at arena.now.items) others.now))) }
    ensures cache { RemembersBy is_independent arena.now.items cache.new }
    ensures memory { OnErr result (result ≡ Err PolarsError.OutOfMemory) }
{
    let first = is_independent_expr(alloc, first, arena, cache)?;
    let others = are_all_independent(alloc, others, arena, cache)?;
    Ok(first && others)
}

// Whether none of some expressions does.
#[cycle(input_independent)]
fn are_all_independent(
    alloc: Global,
    exprs: &[Node],
    arena: &Arena<AExpr>,
    cache: &mut KnownAnswers,
) -> PolarsResult<bool>
    requires exprs { AreComplete (trees_of (tree_at arena.now.items) exprs.now) }
    requires cache { RemembersBy is_independent arena.now.items cache.old }
    ensures are { IfOk result (λ are. are ≡ every_part_of_all reads_no_input (trees_of (tree_at arena.now.items) exprs.now)) }
    ensures cache { RemembersBy is_independent arena.now.items cache.new }
    ensures memory { OnErr result (result ≡ Err PolarsError.OutOfMemory) }
{
    for expr in exprs {
        if !is_independent_expr(alloc, *expr, arena, cache)? {
            return Ok(false);
        }
    }
    Ok(true)
}

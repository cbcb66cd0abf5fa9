//! Whether expressions are elementwise.
ghost use Rattle.std.specs.Prelude.{◌≡◌, ◌&&◌, Err, IfOk, OnErr};
ghost use Rattle.ps_frame.specs.Trees.{IsExpression, tree_at};
ghost use Rattle.ps_frame.specs.Typing.{is_elementwise};
ghost use Rattle.ps_frame.specs.declared.refusal.PolarsError.{PolarsError};
ghost use Rattle.ps_fresh.specs.Known.{RemembersBy};

use crate::known::KnownAnswers;
use ps_frame::expr::{AExpr, FunctionExpr, entry};
use ps_frame::refusal::{PolarsError, PolarsResult};
use pu_base::{Arena, Node};
use std::alloc::Global;

/// Whether each cell of an expression's answer comes from the cells of its row. Each expression below it is looked at
/// once, in all calls together.
///
/// Fails only for want of memory; what is then known is still right.
#[cycle(elementwise)]
pub(crate) fn is_elementwise_expr(
    alloc: Global,
    expr: Node,
    arena: &Arena<AExpr>,
    cache: &mut KnownAnswers,
) -> PolarsResult<bool>
    requires expr { IsExpression arena.now.items expr }
    requires cache { RemembersBy is_elementwise arena.now.items cache.old }
    ensures is { IfOk result (λ is. is ≡ is_elementwise (tree_at arena.now.items expr)) }
    ensures cache { RemembersBy is_elementwise arena.now.items cache.new }
    ensures memory { OnErr result (result ≡ Err PolarsError.OutOfMemory) }
{
    if let Some(is) = cache.get(expr) {
        return Ok(is);
    }
    let is = is_entry_elementwise(alloc, expr, arena, cache)?;
    cache.note(expr, is)?;
    Ok(is)
}

// The same by its operands, whatever is known of it.
#[cycle(elementwise)]
fn is_entry_elementwise(
    alloc: Global,
    expr: Node,
    arena: &Arena<AExpr>,
    cache: &mut KnownAnswers,
) -> PolarsResult<bool>
    requires expr { IsExpression arena.now.items expr }
    requires cache { RemembersBy is_elementwise arena.now.items cache.old }
    ensures is { IfOk result (λ is. is ≡ is_elementwise (tree_at arena.now.items expr)) }
    ensures cache { RemembersBy is_elementwise arena.now.items cache.new }
    ensures memory { OnErr result (result ≡ Err PolarsError.OutOfMemory) }
{
    match entry(expr, arena) {
        AExpr::Column(_) | AExpr::Literal(_) => Ok(true),
        AExpr::BinaryExpr { left, op: _, right } => {
            are_both_elementwise(alloc, *left, *right, arena, cache)
        }
        AExpr::Cast { expr, .. } => is_elementwise_expr(alloc, *expr, arena, cache),
        AExpr::Ternary {
            predicate,
            truthy,
            falsy,
        } => are_three_elementwise(alloc, *predicate, *truthy, *falsy, arena, cache),
        AExpr::Function { input, function } => match function {
            FunctionExpr::Not | FunctionExpr::IsNull | FunctionExpr::IsNotNull => {
                is_elementwise_expr(alloc, *input, arena, cache)
            }
            FunctionExpr::Reverse => Ok(false),
        },
        AExpr::Sort { .. }
        | AExpr::SortBy { .. }
        | AExpr::Gather { .. }
        | AExpr::Filter { .. }
        | AExpr::Agg(_)
        | AExpr::Slice { .. }
        | AExpr::Len
        | AExpr::LeftOut(_) => Ok(false),
    }
}

// Whether two expressions are.
#[cycle(elementwise)]
fn are_both_elementwise(
    alloc: Global,
    first: Node,
    second: Node,
    arena: &Arena<AExpr>,
    cache: &mut KnownAnswers,
) -> PolarsResult<bool>
    requires first { IsExpression arena.now.items first }
    requires second { IsExpression arena.now.items second }
    requires cache { RemembersBy is_elementwise arena.now.items cache.old }
    ensures are { IfOk result (λ are. are ≡ (is_elementwise (tree_at arena.now.items first) && is_elementwise (tree_at arena.now.items second))) }
    ensures cache { RemembersBy is_elementwise arena.now.items cache.new }
    ensures memory { OnErr result (result ≡ Err PolarsError.OutOfMemory) }
{
    let first = is_elementwise_expr(alloc, first, arena, cache)?;
    let second = is_elementwise_expr(alloc, second, arena, cache)?;
    Ok(first && second)
}

// Whether three are.
#[cycle(elementwise)]
fn are_three_elementwise(
    alloc: Global,
    first: Node,
    second: Node,
    third: Node,
    arena: &Arena<AExpr>,
    cache: &mut KnownAnswers,
) -> PolarsResult<bool>
    requires first { IsExpression arena.now.items first }
    requires second { IsExpression arena.now.items second }
    requires third { IsExpression arena.now.items third }
    requires cache { RemembersBy is_elementwise arena.now.items cache.old }
    ensures are { IfOk result (λ are. are ≡ (is_elementwise (tree_at arena.now.items first) && (is_elementwise (tree_at arena.now.items second) && is_elementwise (tree_at arena.now.items third)))) }
    ensures cache { RemembersBy is_elementwise arena.now.items cache.new }
    ensures memory { OnErr result (result ≡ Err PolarsError.OutOfMemory) }
{
    let first = is_elementwise_expr(alloc, first, arena, cache)?;
    let others = are_both_elementwise(alloc, second, third, arena, cache)?;
    Ok(first && others)
}

//! Which group-bys stream.
ghost use Rattle.std.specs.Prelude.{◌≡◌, ◌&&◌, Err, IfOk, None, OnErr};
ghost use Rattle.std.specs.List.{AllByRecursion, list_all};
ghost use Rattle.ps_frame.specs.Trees.{IsComplete, IsExpression, aggregate_tree, tree_at};
ghost use Rattle.ps_frame.specs.declared.refusal.PolarsError.{PolarsError};
ghost use Rattle.ps_fresh.specs.Known.{Remembers};
ghost use Rattle.ps_meaning.specs.Steps.{key_trees};
ghost use Rattle.ps_rules.specs.Calls.{all_independent};
ghost use Rattle.plan_rules.specs.Groups.{can_stream as can_stream_by};
ghost use Rattle.plan_rules.specs.Reductions.{is_made_of_reductions as is_made_of_reductions_tree, is_mergeable as is_mergeable_one};
ghost use Rattle.lowering_parts.specs.Operations.{aggregation_of};
ghost use Rattle.group_lowering.specs.Groups.{group_of};

use lowering_parts::reads::aggregated;
use ps_frame::expr::{AExpr, FunctionExpr, IRAggExpr, entry};
use ps_frame::refusal::PolarsResult;
use ps_fresh::expr_cache::{ExprCache, is_elementwise, is_input_independent};
use ps_fresh::lowering::Lowering;
use ps_meaning::options::ExprIR;
use pu_base::{Arena, Node};
use std::alloc::Global;

/// Whether a group-by streams: the order of its groups is free, some key or aggregate reads the input, and each aggregate
/// is made of reductions. Each expression below these is looked at once.
///
/// Fails only for want of memory; what is then known of expressions is still right.
pub(crate) fn can_stream(
    alloc: Global,
    arena: &Arena<AExpr>,
    low: &mut Lowering,
    keys: &[ExprIR],
    aggs: &[ExprIR],
    maintain_order: bool,
) -> PolarsResult<bool>
    requires keys { AllByRecursion IsComplete (key_trees (tree_at arena.now.items) keys.now) }
    requires aggs { AllByRecursion IsComplete (key_trees (tree_at arena.now.items) aggs.now) }
    requires cache { Remembers arena.now.items low.old.cache }
    ensures can { IfOk result (λ can. can ≡ can_stream_by (group_of (tree_at arena.now.items) keys.now aggs.now maintain_order None)) }
    ensures cache { Remembers arena.now.items low.new.cache }
    ensures others { low.new ≡ record low.old { cache = low.new.cache } }
    ensures memory { OnErr result (result ≡ Err PolarsError.OutOfMemory) }
{
    if maintain_order {
        return Ok(false);
    }
    let apart = are_independent(alloc, arena, &mut low.cache, keys, aggs)?;
    if apart {
        return Ok(false);
    }
    let made = are_made_of_reductions(alloc, arena, &mut low.cache, aggs)?;
    Ok(made)
}

// Whether neither keys nor aggregates read the input.
fn are_independent(
    alloc: Global,
    arena: &Arena<AExpr>,
    cache: &mut ExprCache,
    keys: &[ExprIR],
    aggs: &[ExprIR],
) -> PolarsResult<bool>
    requires keys { AllByRecursion IsComplete (key_trees (tree_at arena.now.items) keys.now) }
    requires aggs { AllByRecursion IsComplete (key_trees (tree_at arena.now.items) aggs.now) }
    requires cache { Remembers arena.now.items cache.old }
    ensures are { IfOk result (λ are. are ≡ (all_independent (key_trees (tree_at arena.now.items) keys.now) && all_independent (key_trees (tree_at arena.now.items) aggs.now))) }
    ensures cache { Remembers arena.now.items cache.new }
    ensures memory { OnErr result (result ≡ Err PolarsError.OutOfMemory) }
{
    let first = are_all_independent(alloc, arena, cache, keys)?;
    let second = are_all_independent(alloc, arena, cache, aggs)?;
    Ok(first && second)
}

fn are_all_independent(
    alloc: Global,
    arena: &Arena<AExpr>,
    cache: &mut ExprCache,
    exprs: &[ExprIR],
) -> PolarsResult<bool>
    requires exprs { AllByRecursion IsComplete (key_trees (tree_at arena.now.items) exprs.now) }
    requires cache { Remembers arena.now.items cache.old }
    ensures are { IfOk result (λ are. are ≡ all_independent (key_trees (tree_at arena.now.items) exprs.now)) }
    ensures cache { Remembers arena.now.items cache.new }
    ensures memory { OnErr result (result ≡ Err PolarsError.OutOfMemory) }
{
    for expr in exprs {
        if !is_input_independent(alloc, expr.node, arena, cache)? {
            return Ok(false);
        }
    }
    Ok(true)
}

// Whether each aggregate is made of reductions.
fn are_made_of_reductions(
    alloc: Global,
    arena: &Arena<AExpr>,
    cache: &mut ExprCache,
    exprs: &[ExprIR],
) -> PolarsResult<bool>
    requires exprs { AllByRecursion IsComplete (key_trees (tree_at arena.now.items) exprs.now) }
    requires cache { Remembers arena.now.items cache.old }
    ensures are { IfOk result (λ are. are ≡ list_all is_made_of_reductions_tree (key_trees (tree_at arena.now.items) exprs.now)) }
    ensures cache { Remembers arena.now.items cache.new }
    ensures memory { OnErr result (result ≡ Err PolarsError.OutOfMemory) }
{
    for expr in exprs {
        if !is_made_of_reductions(alloc, expr.node, arena, cache)? {
            return Ok(false);
        }
    }
    Ok(true)
}

// Whether an expression is put together, cell by cell, from literals, heights and mergeable aggregates of what is elementwise.
#[cycle(reductions)]
fn is_made_of_reductions(
    alloc: Global,
    expr: Node,
    arena: &Arena<AExpr>,
    cache: &mut ExprCache,
) -> PolarsResult<bool>
    requires expr { IsExpression arena.now.items expr }
    requires cache { Remembers arena.now.items cache.old }
    ensures is { IfOk result (λ is. is ≡ is_made_of_reductions_tree (tree_at arena.now.items expr)) }
    ensures cache { Remembers arena.now.items cache.new }
    ensures memory { OnErr result (result ≡ Err PolarsError.OutOfMemory) }
{
    match entry(expr, arena) {
        AExpr::Literal(_) | AExpr::Len => Ok(true),
        AExpr::Agg(aggregate) => is_merged(alloc, *aggregate, arena, cache),
        AExpr::BinaryExpr { left, op: _, right } => {
            are_both_made(alloc, *left, *right, arena, cache)
        }
        AExpr::Cast { expr, .. } => is_made_of_reductions(alloc, *expr, arena, cache),
        AExpr::Ternary {
            predicate,
            truthy,
            falsy,
        } => are_three_made(alloc, *predicate, *truthy, *falsy, arena, cache),
        AExpr::Function { input, function } => match function {
            FunctionExpr::Not | FunctionExpr::IsNull | FunctionExpr::IsNotNull => {
                is_made_of_reductions(alloc, *input, arena, cache)
            }
            FunctionExpr::Reverse => Ok(false),
        },
        AExpr::Column(_)
        | AExpr::Sort { .. }
        | AExpr::SortBy { .. }
        | AExpr::Gather { .. }
        | AExpr::Filter { .. }
        | AExpr::Slice { .. }
        | AExpr::LeftOut(_) => Ok(false),
    }
}

// Whether two expressions are.
#[cycle(reductions)]
fn are_both_made(
    alloc: Global,
    first: Node,
    second: Node,
    arena: &Arena<AExpr>,
    cache: &mut ExprCache,
) -> PolarsResult<bool>
    requires first { IsExpression arena.now.items first }
    requires second { IsExpression arena.now.items second }
    requires cache { Remembers arena.now.items cache.old }
    ensures are { IfOk result (λ are. are ≡ (is_made_of_reductions_tree (tree_at arena.now.items first) && is_made_of_reductions_tree (tree_at arena.now.items second))) }
    ensures cache { Remembers arena.now.items cache.new }
    ensures memory { OnErr result (result ≡ Err PolarsError.OutOfMemory) }
{
    let first = is_made_of_reductions(alloc, first, arena, cache)?;
    let second = is_made_of_reductions(alloc, second, arena, cache)?;
    Ok(first && second)
}

// Whether three are.
#[cycle(reductions)]
fn are_three_made(
    alloc: Global,
    first: Node,
    second: Node,
    third: Node,
    arena: &Arena<AExpr>,
    cache: &mut ExprCache,
) -> PolarsResult<bool>
    requires first { IsExpression arena.now.items first }
    requires second { IsExpression arena.now.items second }
    requires third { IsExpression arena.now.items third }
    requires cache { Remembers arena.now.items cache.old }
    ensures are { IfOk result (λ are. are ≡ (is_made_of_reductions_tree (tree_at arena.now.items first) && is_made_of_reductions_tree (tree_at arena.now.items second) && is_made_of_reductions_tree (tree_at arena.now.items third))) }
    ensures cache { Remembers arena.now.items cache.new }
    ensures memory { OnErr result (result ≡ Err PolarsError.OutOfMemory) }
{
    let both = are_both_made(alloc, first, second, arena, cache)?;
    let third = is_made_of_reductions(alloc, third, arena, cache)?;
    Ok(both && third)
}

// Whether an aggregate can be computed over parts of a group, and its values row by row.
fn is_merged(
    alloc: Global,
    aggregate: IRAggExpr,
    arena: &Arena<AExpr>,
    cache: &mut ExprCache,
) -> PolarsResult<bool>
    requires aggregate { IsComplete (aggregate_tree (tree_at arena.now.items) aggregate) }
    requires cache { Remembers arena.now.items cache.old }
    ensures is { IfOk result (λ is. is ≡ is_made_of_reductions_tree (aggregate_tree (tree_at arena.now.items) aggregate)) }
    ensures cache { Remembers arena.now.items cache.new }
    ensures memory { OnErr result (result ≡ Err PolarsError.OutOfMemory) }
{
    if !is_mergeable(aggregate) {
        return Ok(false);
    }
    let by_row = is_elementwise(alloc, aggregated(aggregate), arena, cache)?;
    Ok(by_row)
}

fn is_mergeable(aggregate: IRAggExpr) -> bool
    ensures { result ≡ is_mergeable_one (aggregation_of aggregate) }
{
    match aggregate {
        IRAggExpr::NUnique(_) | IRAggExpr::Count(..) => false,
        IRAggExpr::Min(_)
        | IRAggExpr::Max(_)
        | IRAggExpr::First(_)
        | IRAggExpr::Last(_)
        | IRAggExpr::Sum(_) => true,
    }
}

//! Copies of expressions from one arena in another.
ghost use Rattle.std.specs.Prelude.{◌≡◌, Err, IfOk, OnErr, OnOk, Some};
ghost use Rattle.ps_frame.specs.Trees.{AreComplete, IsComplete, IsExpression, aggregate_tree, entry_tree, tree_at, trees_of};
ghost use Rattle.ps_copies.specs.Copies.{KeepsTrees};

use crate::try_clone::TryClone;
use ps_frame::expr::{AExpr, IRAggExpr, LiteralValue, entry};
use ps_frame::items::Items;
use pu_base::{Arena, Node, PolarsUtilsError, Result};
use std::alloc::Global;

/// Copies an expression, with all that it names, to the end of another arena, and gives its number there. What stood
/// there keeps its number and its tree.
///
/// Fails only for want of memory; the other arena may then have grown.
#[cycle(copying)]
pub fn copy_expr(
    alloc: Global,
    expr: Node,
    from: &Arena<AExpr>,
    into: &mut Arena<AExpr>,
) -> Result<Node>
    requires { IsExpression from.now.items expr }
    ensures tree { IfOk result (λ n. tree_at into.new.items n ≡ tree_at from.now.items expr) }
    ensures kept { OnOk result (KeepsTrees into.old.items into.new.items) }
    ensures memory { OnErr result (result ≡ Err PolarsUtilsError.OutOfMemory) }
{
    match entry(expr, from) {
        AExpr::Column(name) => add(into, AExpr::Column(name.try_clone(alloc)?)),
        AExpr::Literal(literal) => add(into, AExpr::Literal(copy_literal(alloc, literal)?)),
        AExpr::BinaryExpr { left, op, right } => {
            let (left, right) = copy_two(alloc, *left, *right, from, into)?;
            add(
                into,
                AExpr::BinaryExpr {
                    left,
                    op: *op,
                    right,
                },
            )
        }
        AExpr::Cast {
            expr,
            dtype,
            strict,
        } => {
            let expr = copy_expr(alloc, *expr, from, into)?;
            add(
                into,
                AExpr::Cast {
                    expr,
                    dtype: *dtype,
                    strict: *strict,
                },
            )
        }
        AExpr::Sort {
            expr,
            descending,
            nulls_last,
        } => {
            let expr = copy_expr(alloc, *expr, from, into)?;
            add(
                into,
                AExpr::Sort {
                    expr,
                    descending: *descending,
                    nulls_last: *nulls_last,
                },
            )
        }
        AExpr::SortBy {
            expr,
            by,
            descending,
            nulls_last,
        } => {
            let (expr, by) = copy_keyed(alloc, *expr, by.as_slice(), from, into)?;
            let descending = descending.try_clone(alloc)?;
            let nulls_last = nulls_last.try_clone(alloc)?;
            add(
                into,
                AExpr::SortBy {
                    expr,
                    by,
                    descending,
                    nulls_last,
                },
            )
        }
        AExpr::Gather {
            expr,
            idx,
            returns_scalar,
        } => {
            let (expr, idx) = copy_two(alloc, *expr, *idx, from, into)?;
            add(
                into,
                AExpr::Gather {
                    expr,
                    idx,
                    returns_scalar: *returns_scalar,
                },
            )
        }
        AExpr::Filter { input, by } => {
            let (input, by) = copy_two(alloc, *input, *by, from, into)?;
            add(into, AExpr::Filter { input, by })
        }
        AExpr::Agg(aggregate) => {
            let aggregate = copy_aggregate(alloc, aggregate, from, into)?;
            add(into, AExpr::Agg(aggregate))
        }
        AExpr::Ternary {
            predicate,
            truthy,
            falsy,
        } => {
            let (predicate, truthy, falsy) = copy_three(
                alloc, *predicate, *truthy, *falsy, from, into,
            )?;
            add(
                into,
                AExpr::Ternary {
                    predicate,
                    truthy,
                    falsy,
                },
            )
        }
        AExpr::Function { input, function } => {
            let input = copy_expr(alloc, *input, from, into)?;
            add(
                into,
                AExpr::Function {
                    input,
                    function: *function,
                },
            )
        }
        AExpr::Slice {
            input,
            offset,
            length,
        } => {
            let (input, offset, length) = copy_three(alloc, *input, *offset, *length, from, into)?;
            add(
                into,
                AExpr::Slice {
                    input,
                    offset,
                    length,
                },
            )
        }
        AExpr::Len => add(into, AExpr::Len),
        AExpr::LeftOut(what) => add(into, AExpr::LeftOut(*what)),
    }
}

#[cycle(copying)]
fn copy_two(
    alloc: Global,
    first: Node,
    second: Node,
    from: &Arena<AExpr>,
    into: &mut Arena<AExpr>,
) -> Result<(Node, Node)>
    requires first { IsExpression from.now.items first }
    requires second { IsExpression from.now.items second }
    ensures first { IfOk result (λ n. tree_at into.new.items n.0 ≡ tree_at from.now.items first) }
    ensures second { IfOk result (λ n. tree_at into.new.items n.1 ≡ tree_at from.now.items second) }
    ensures kept { OnOk result (KeepsTrees into.old.items into.new.items) }
    ensures memory { OnErr result (result ≡ Err PolarsUtilsError.OutOfMemory) }
{
    let one = copy_expr(alloc, first, from, into)?;
    let other = copy_expr(alloc, second, from, into)?;
    Ok((one, other))
}

#[cycle(copying)]
fn copy_three(
    alloc: Global,
    first: Node,
    second: Node,
    third: Node,
    from: &Arena<AExpr>,
    into: &mut Arena<AExpr>,
) -> Result<(Node, Node, Node)>
    requires first { IsExpression from.now.items first }
    requires second { IsExpression from.now.items second }
    requires third { IsExpression from.now.items third }
    ensures first { IfOk result (λ n. tree_at into.new.items n.0 ≡ tree_at from.now.items first) }
    ensures second { IfOk result (λ n. tree_at into.new.items n.1 ≡ tree_at from.now.items second) }
    ensures third { IfOk result (λ n. tree_at into.new.items n.2 ≡ tree_at from.now.items third) }
    ensures kept { OnOk result (KeepsTrees into.old.items into.new.items) }
    ensures memory { OnErr result (result ≡ Err PolarsUtilsError.OutOfMemory) }
{
    let (one, two) = copy_two(alloc, first, second, from, into)?;
    let three = copy_expr(alloc, third, from, into)?;
    Ok((one, two, three))
}

// An expression and several others.
#[cycle(copying)]
fn copy_keyed(
    alloc: Global,
    expr: Node,
    by: &[Node],
    from: &Arena<AExpr>,
    into: &mut Arena<AExpr>,
) -> Result<(Node, Items<Node>)>
    requires first { IsExpression from.now.items expr }
    requires keys { AreComplete (trees_of (tree_at from.now.items) by.now) }
    ensures first { IfOk result (λ n. tree_at into.new.items n.0 ≡ tree_at from.now.items expr) }
    ensures keys { IfOk result (λ n. trees_of (tree_at into.new.items) n.1 ≡ trees_of (tree_at from.now.items) by.now) }
    ensures kept { OnOk result (KeepsTrees into.old.items into.new.items) }
    ensures memory { OnErr result (result ≡ Err PolarsUtilsError.OutOfMemory) }
{
    let keys = copy_all(alloc, by, from, into)?;
    let copy = copy_expr(alloc, expr, from, into)?;
    Ok((copy, keys))
}

#[cycle(copying)]
fn copy_all(
    alloc: Global,
    exprs: &[Node],
    from: &Arena<AExpr>,
    into: &mut Arena<AExpr>,
) -> Result<Items<Node>>
    requires { AreComplete (trees_of (tree_at from.now.items) exprs.now) }
    ensures trees { IfOk result (λ ns. trees_of (tree_at into.new.items) ns ≡ trees_of (tree_at from.now.items) exprs.now) }
    ensures kept { OnOk result (KeepsTrees into.old.items into.new.items) }
    ensures memory { OnErr result (result ≡ Err PolarsUtilsError.OutOfMemory) }
{
    let mut copies = Vec::with_capacity(alloc, exprs.len())?;
    for expr in exprs {
        copies.push(copy_expr(alloc, *expr, from, into)?)?;
    }
    Ok(Items::new(copies))
}

#[cycle(copying)]
fn copy_aggregate(
    alloc: Global,
    aggregate: &IRAggExpr,
    from: &Arena<AExpr>,
    into: &mut Arena<AExpr>,
) -> Result<IRAggExpr>
    requires { IsComplete (aggregate_tree (tree_at from.now.items) aggregate.now) }
    ensures tree { IfOk result (λ a. aggregate_tree (tree_at into.new.items) a ≡ aggregate_tree (tree_at from.now.items) aggregate.now) }
    ensures kept { OnOk result (KeepsTrees into.old.items into.new.items) }
    ensures memory { OnErr result (result ≡ Err PolarsUtilsError.OutOfMemory) }
{
    match aggregate {
        IRAggExpr::Min(input) => Ok(IRAggExpr::Min(copy_expr(alloc, *input, from, into)?)),
        IRAggExpr::Max(input) => Ok(IRAggExpr::Max(copy_expr(alloc, *input, from, into)?)),
        IRAggExpr::First(input) => Ok(IRAggExpr::First(copy_expr(alloc, *input, from, into)?)),
        IRAggExpr::Last(input) => Ok(IRAggExpr::Last(copy_expr(alloc, *input, from, into)?)),
        IRAggExpr::Sum(input) => Ok(IRAggExpr::Sum(copy_expr(alloc, *input, from, into)?)),
        IRAggExpr::NUnique(input) => {
            Ok(IRAggExpr::NUnique(copy_expr(alloc, *input, from, into)?))
        }
        IRAggExpr::Count(input, all) => {
            Ok(IRAggExpr::Count(copy_expr(alloc, *input, from, into)?, *all))
        }
    }
}

// Adds an entry over expressions that stand in the arena.
fn add(into: &mut Arena<AExpr>, entry: AExpr) -> Result<Node>
    requires { IsComplete (entry_tree (tree_at into.old.items) (Some entry)) }
    ensures tree { IfOk result (λ n. tree_at into.new.items n ≡ entry_tree (tree_at into.old.items) (Some entry)) }
    ensures kept { OnOk result (KeepsTrees into.old.items into.new.items) }
    ensures memory { OnErr result (result ≡ Err PolarsUtilsError.OutOfMemory) }
{
    let node = into.add(entry)?;
    Ok(node)
}

fn copy_literal(alloc: Global, literal: &LiteralValue) -> Result<LiteralValue>
    ensures same { IfOk result (λ l. l ≡ literal.now) }
    ensures memory { OnErr result (result ≡ Err PolarsUtilsError.OutOfMemory) }
{
    match literal {
        LiteralValue::Null(dtype) => Ok(LiteralValue::Null(*dtype)),
        LiteralValue::Boolean(value) => Ok(LiteralValue::Boolean(*value)),
        LiteralValue::Int64(value) => Ok(LiteralValue::Int64(*value)),
        LiteralValue::IdxSize(value) => Ok(LiteralValue::IdxSize(*value)),
        LiteralValue::String(text) => Ok(LiteralValue::String(text.try_clone(alloc)?)),
    }
}

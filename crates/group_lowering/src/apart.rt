//! Aggregates, taken apart into reductions and what stands over these.
ghost use Rattle.std.specs.Prelude.{◌≡◌, Err, IfOk, IfSome, OnErr, Some, true};
ghost use Rattle.std.specs.List.{AllByRecursion};
ghost use Rattle.ps_frame.specs.Trees.{IsComplete, IsExpression, Tree, entry_tree, tree_at};
ghost use Rattle.ps_frame.specs.declared.refusal.PolarsError.{PolarsError};
ghost use Rattle.ps_fresh.specs.Known.{Remembers};
ghost use Rattle.ps_meaning.specs.Steps.{key_trees, name_in, named_trees};
ghost use Rattle.plan_rules.specs.Reductions.{aggregate_apart, split_aggregates, taken_apart as taken_apart_by};
ghost use Rattle.lowering_parts.specs.Gathered.{GoesOn, trees_at};
ghost use Rattle.group_lowering.specs.Groups.{ComeApart, ComesApart, IsSplit, by_cell_tree, is_reduction as is_reduction_tree, operator_apart};
ghost use Rattle.pu_base.specs.declared.arena.Node.{Node as ANode};

use crate::named::copied_expr;
use lowering_parts::names::{add_column, add_expr, copied, fresh, under_name};
use lowering_parts::operation::Operation;
use ps_frame::expr::{AExpr, FunctionExpr, entry};
use ps_frame::refusal::{PolarsError, PolarsResult};
use ps_fresh::lowering::Lowering;
use ps_meaning::options::ExprIR;
use pu_base::{Arena, Node};
use std::alloc::Global;
use valid_plans::fields::name_of;

/// The reductions of several aggregates, and these over the columns of the reductions.
#[derive(Drop)]
pub(crate) struct Split {
    pub(crate) reductions: Vec<ExprIR>,
    pub(crate) above: Vec<ExprIR>,
}

/// Each aggregate, taken apart. One that is itself a reduction or the height keeps its name; each one inside another
/// aggregate gets a fresh name, from left to right.
///
/// Fails only for want of memory; names and expressions may then have been added.
pub(crate) fn split_all(
    alloc: Global,
    arena: &mut Arena<AExpr>,
    low: &mut Lowering,
    aggs: &[ExprIR],
) -> PolarsResult<Split>
    requires aggs { AllByRecursion IsComplete (key_trees (tree_at arena.old.items) aggs.now) }
    requires cache { Remembers arena.old.items low.old.cache }
    ensures split { IfOk result (λ s. IsSplit (split_aggregates (named_trees (tree_at arena.old.items) aggs.now)) arena.old.items arena.new.items low.old low.new s.reductions.items s.above.items) }
    ensures goes_on { GoesOn arena.old.items arena.new.items low.old low.new }
    ensures memory { OnErr result (result ≡ Err PolarsError.OutOfMemory) }
{
    let mut reductions = Vec::new(alloc);
    let mut above = Vec::with_capacity(alloc, aggs.len())?;
    for aggregate in aggs {
        let expr = itself_or_apart(alloc, arena, low, aggregate, &mut reductions)?;
        let named = under_name_of(alloc, aggregate, expr)?;
        above.push(named)?;
    }
    Ok(Split { reductions, above })
}

// An expression under the name of another one.
fn under_name_of(alloc: Global, asked: &ExprIR, node: Node) -> PolarsResult<ExprIR>
    ensures name { IfOk result (λ e. name_in e.output_name ≡ name_in asked.now.output_name) }
    ensures node { IfOk result (λ e. e.node ≡ node) }
    ensures memory { OnErr result (result ≡ Err PolarsError.OutOfMemory) }
{
    let name = copied(alloc, name_of(asked))?;
    Ok(under_name(name, node))
}

// What stands for an aggregate over its reductions: itself under its name, where it is one.
fn itself_or_apart(
    alloc: Global,
    arena: &mut Arena<AExpr>,
    low: &mut Lowering,
    aggregate: &ExprIR,
    found: &mut Vec<ExprIR>,
) -> PolarsResult<Node>
    requires aggregate { IsExpression arena.old.items aggregate.now.node }
    requires cache { Remembers arena.old.items low.old.cache }
    requires found { AllByRecursion IsComplete (key_trees (tree_at arena.old.items) found.old.items) }
    ensures apart { IfOk result (ComesApart (aggregate_apart (name_in aggregate.now.output_name) (tree_at arena.old.items aggregate.now.node)) arena.old.items arena.new.items low.old low.new found.old.items found.new.items) }
    ensures goes_on { GoesOn arena.old.items arena.new.items low.old low.new }
    ensures memory { OnErr result (result ≡ Err PolarsError.OutOfMemory) }
{
    if !is_reduction(aggregate.node, arena) {
        return taken_apart(alloc, arena, low, aggregate.node, found);
    }
    let column = add_column(alloc, name_of(aggregate), arena)?;
    let reduction = copied_expr(alloc, aggregate)?;
    found.push(reduction)?;
    Ok(column)
}

// Whether an expression is an aggregate of a column, or the height.
fn is_reduction(expr: Node, arena: &Arena<AExpr>) -> bool
    requires { IsExpression arena.now.items expr }
    ensures { result ≡ is_reduction_tree (tree_at arena.now.items expr) }
{
    match entry(expr, arena) {
        AExpr::Agg(_) | AExpr::Len => true,
        _ => false,
    }
}

// An expression with a column in the place of each reduction in it, which is found under a fresh name.
#[cycle(apart)]
fn taken_apart(
    alloc: Global,
    arena: &mut Arena<AExpr>,
    low: &mut Lowering,
    expr: Node,
    found: &mut Vec<ExprIR>,
) -> PolarsResult<Node>
    requires expr { IsExpression arena.old.items expr }
    requires cache { Remembers arena.old.items low.old.cache }
    requires found { AllByRecursion IsComplete (key_trees (tree_at arena.old.items) found.old.items) }
    ensures apart { IfOk result (ComesApart (taken_apart_by (tree_at arena.old.items expr)) arena.old.items arena.new.items low.old low.new found.old.items found.new.items) }
    ensures goes_on { GoesOn arena.old.items arena.new.items low.old low.new }
    ensures memory { OnErr result (result ≡ Err PolarsError.OutOfMemory) }
{
    match entry(expr, arena) {
        AExpr::Agg(_) | AExpr::Len => under_fresh_name(alloc, arena, low, expr, found),
        AExpr::BinaryExpr { left, op, right } => {
            let (operands, by_cell) = ([*left, *right], ByCell::Operator(Operation::Binary(*op)));
            operands_apart(alloc, arena, low, by_cell, &operands, found)
        }
        AExpr::Cast {
            expr,
            dtype,
            strict,
        } => {
            let (operands, by_cell) = ([*expr], ByCell::Operator(Operation::Cast(*dtype, *strict)));
            operands_apart(alloc, arena, low, by_cell, &operands, found)
        }
        AExpr::Ternary {
            predicate,
            truthy,
            falsy,
        } => {
            let operands = [*predicate, *truthy, *falsy];
            let by_cell = ByCell::Operator(Operation::Ternary);
            operands_apart(alloc, arena, low, by_cell, &operands, found)
        }
        AExpr::Function { input, function } => {
            let (operands, by_cell) = ([*input], ByCell::Function(*function));
            operands_apart(alloc, arena, low, by_cell, &operands, found)
        }
        AExpr::Column(_)
        | AExpr::Literal(_)
        | AExpr::Sort { .. }
        | AExpr::SortBy { .. }
        | AExpr::Gather { .. }
        | AExpr::Filter { .. }
        | AExpr::Slice { .. }
        | AExpr::LeftOut(_) => Ok(expr),
    }
}

// A reduction under a fresh name, and the column of that name.
fn under_fresh_name(
    alloc: Global,
    arena: &mut Arena<AExpr>,
    low: &mut Lowering,
    expr: Node,
    found: &mut Vec<ExprIR>,
) -> PolarsResult<Node>
    requires expr { IsExpression arena.old.items expr }
    requires reduction { is_reduction_tree (tree_at arena.old.items expr) ≡ true }
    requires cache { Remembers arena.old.items low.old.cache }
    requires found { AllByRecursion IsComplete (key_trees (tree_at arena.old.items) found.old.items) }
    ensures apart { IfOk result (ComesApart (taken_apart_by (tree_at arena.old.items expr)) arena.old.items arena.new.items low.old low.new found.old.items found.new.items) }
    ensures goes_on { GoesOn arena.old.items arena.new.items low.old low.new }
    ensures memory { OnErr result (result ≡ Err PolarsError.OutOfMemory) }
{
    let name = fresh(alloc, low)?;
    let column = add_column(alloc, &name, arena)?;
    found.push(under_name(name, expr))?;
    Ok(column)
}

// What is done cell by cell, over its operands taken apart.
#[cycle(apart)]
fn operands_apart(
    alloc: Global,
    arena: &mut Arena<AExpr>,
    low: &mut Lowering,
    by_cell: ByCell,
    operands: &[Node],
    found: &mut Vec<ExprIR>,
) -> PolarsResult<Node>
    requires operands { AllByRecursion IsComplete (trees_at (tree_at arena.old.items) operands.now) }
    requires cache { Remembers arena.old.items low.old.cache }
    requires found { AllByRecursion IsComplete (key_trees (tree_at arena.old.items) found.old.items) }
    ensures apart { IfOk result (ComesApart (operator_apart (by_cell_tree by_cell) (trees_at (tree_at arena.old.items) operands.now)) arena.old.items arena.new.items low.old low.new found.old.items found.new.items) }
    ensures goes_on { GoesOn arena.old.items arena.new.items low.old low.new }
    ensures memory { OnErr result (result ≡ Err PolarsError.OutOfMemory) }
{
    let taken = all_apart(alloc, arena, low, operands, found)?;
    let Some(entry) = by_cell.over(taken.as_slice()) else {
        // As many were answered as were asked for, so there is always such an entry.
        return Err(PolarsError::OutOfMemory);
    };
    let expr = add_expr(arena, entry)?;
    Ok(expr)
}

// Several expressions taken apart, one after the other.
#[cycle(apart)]
fn all_apart(
    alloc: Global,
    arena: &mut Arena<AExpr>,
    low: &mut Lowering,
    exprs: &[Node],
    found: &mut Vec<ExprIR>,
) -> PolarsResult<Vec<Node>>
    requires exprs { AllByRecursion IsComplete (trees_at (tree_at arena.old.items) exprs.now) }
    requires cache { Remembers arena.old.items low.old.cache }
    requires found { AllByRecursion IsComplete (key_trees (tree_at arena.old.items) found.old.items) }
    ensures apart { IfOk result (λ ns. ComeApart (trees_at (tree_at arena.old.items) exprs.now) arena.old.items arena.new.items low.old low.new found.old.items found.new.items ns.items) }
    ensures goes_on { GoesOn arena.old.items arena.new.items low.old low.new }
    ensures memory { OnErr result (result ≡ Err PolarsError.OutOfMemory) }
{
    let mut taken = Vec::with_capacity(alloc, exprs.len())?;
    for expr in exprs {
        let one = taken_apart(alloc, arena, low, *expr, found)?;
        taken.push(one)?;
    }
    Ok(taken)
}

/// What is done with operands, cell by cell.
#[derive(Clone, Copy, Debug)]
pub(crate) enum ByCell {
    Operator(Operation),
    Function(FunctionExpr),
}

impl ByCell {
    /// The entry over as many operands as it takes; none where they are more or fewer.
    pub(crate) fn over(self, operands: &[Node]) -> Option<AExpr>
        ensures tree { (f : ANode → Tree) → IfSome result (λ e. entry_tree f (Some e) ≡ by_cell_tree self (trees_at f operands.now)) }
        ensures complete { (f : ANode → Tree) → AllByRecursion IsComplete (trees_at f operands.now) → IfSome result (λ e. IsComplete (entry_tree f (Some e))) }
    {
        match self {
            ByCell::Operator(operation) => operation.over(operands),
            ByCell::Function(function) => match operands {
                [input] => Some(AExpr::Function {
                    input: *input,
                    function,
                }),
                _ => None,
            },
        }
    }
}

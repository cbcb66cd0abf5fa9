//! Reductions, taken apart into what is reduced and what becomes of it.
ghost use Rattle.std.specs.Prelude.{◌≡◌, Err, IfNone, IfOk, IfSome, OnErr, map};
ghost use Rattle.std.specs.List.{AllByRecursion};
ghost use Rattle.pu_base.specs.declared.arena.Node.{Node as Number};
ghost use Rattle.ps_frame.specs.Trees.{IsComplete, IsExpression, Tree, aggregate_tree, tree_at};
ghost use Rattle.ps_frame.specs.declared.refusal.PolarsError.{PolarsError};
ghost use Rattle.ps_meaning.specs.Schemas.{expr_names};
ghost use Rattle.ps_meaning.specs.Sound.{IsReduction};
ghost use Rattle.ps_meaning.specs.Steps.{key_trees, name_in, named_trees};
ghost use Rattle.plain_nodes.specs.Exprs.{expr_shown};
ghost use Rattle.plain_nodes.specs.Reductions.{reduced, reduction_tree};

use crate::columns::cloned;
use plain_nodes::reduction::Reduction;
use plain_nodes::stream_expr::StreamExpr;
use ps_frame::expr::{AExpr, IRAggExpr, entry};
use ps_frame::items::Items;
use ps_frame::refusal::PolarsResult;
use ps_meaning::options::{ExprIR, OutputName};
use pu_base::{Arena, Node};
use std::alloc::Global;

/// What is reduced, and how. The height is reduced of any column.
#[derive(Clone, Copy, Debug)]
struct Reduced {
    operand: Node,
    reduction: Reduction,
}

/// An aggregate, taken apart, if it is one by which the parts of a column can be reduced.
fn aggregate_apart(aggregate: IRAggExpr) -> Option<Reduced>
    ensures some { IfSome result (λ r. (f : Number → Tree) → reduction_tree r.reduction (f r.operand) ≡ aggregate_tree f aggregate) }
    ensures whole { IfSome result (λ r. (f : Number → Tree) → IsComplete (aggregate_tree f aggregate) → IsComplete (f r.operand)) }
    ensures none { IfNone result ((f : Number → Tree) → ¬ IsReduction (aggregate_tree f aggregate)) }
{
    let (operand, reduction) = match aggregate {
        IRAggExpr::Min(operand) => (operand, Reduction::Min),
        IRAggExpr::Max(operand) => (operand, Reduction::Max),
        IRAggExpr::First(operand) => (operand, Reduction::First),
        IRAggExpr::Last(operand) => (operand, Reduction::Last),
        IRAggExpr::Sum(operand) => (operand, Reduction::Sum),
        IRAggExpr::NUnique(_) | IRAggExpr::Count(..) => return None,
    };
    Some(Reduced { operand, reduction })
}

/// An expression, taken apart, if it is a reduction.
fn apart(expr: Node, arena: &Arena<AExpr>) -> Option<Reduced>
    requires { IsExpression arena.now.items expr }
    ensures some { IfSome result (λ r. reduction_tree r.reduction (tree_at arena.now.items r.operand) ≡ tree_at arena.now.items expr) }
    ensures whole { IfSome result (λ r. IsExpression arena.now.items r.operand) }
    ensures none { IfNone result (¬ IsReduction (tree_at arena.now.items expr)) }
{
    match entry(expr, arena) {
        AExpr::Len => Some(Reduced {
            operand: expr,
            reduction: Reduction::Len,
        }),
        AExpr::Agg(aggregate) => aggregate_apart(*aggregate),
        _ => None,
    }
}

/// A reduction, taken apart.
fn taken_apart(expr: Node, arena: &Arena<AExpr>) -> Reduced
    requires complete { IsExpression arena.now.items expr }
    requires reduction { IsReduction (tree_at arena.now.items expr) }
    ensures tree { reduction_tree result.reduction (tree_at arena.now.items result.operand) ≡ tree_at arena.now.items expr }
    ensures whole { IsExpression arena.now.items result.operand }
{
    match apart(expr, arena) {
        Some(reduced) => reduced,
        None => unreachable!(),
    }
}

/// A copy of an expression under a name.
///
/// Fails only for want of memory.
fn copy_as(
    alloc: Global,
    expr: Node,
    name: &OutputName,
    arena: &Arena<AExpr>,
) -> PolarsResult<StreamExpr>
    requires { IsExpression arena.now.items expr }
    ensures shown { IfOk result (λ e. expr_shown e ≡ (name_in name.now, tree_at arena.now.items expr)) }
    ensures memory { OnErr result (result ≡ Err PolarsError.OutOfMemory) }
{
    let output_name = cloned(alloc, name)?;
    let expr = ExprIR {
        node: expr,
        output_name,
    };
    StreamExpr::new(alloc, &expr, arena)
}

/// What is reduced by some expressions, and how, one by one.
#[derive(Drop)]
pub struct Reductions {
    pub selectors: Vec<StreamExpr>,
    pub reductions: Vec<Reduction>,
}

impl Reductions {
    /// Of expressions, one by one.
    fn of_each(alloc: Global, exprs: &[ExprIR], arena: &Arena<AExpr>) -> PolarsResult<Reductions>
        requires complete { AllByRecursion IsComplete (key_trees (tree_at arena.now.items) exprs.now) }
        requires reductions { AllByRecursion IsReduction (key_trees (tree_at arena.now.items) exprs.now) }
        ensures shown { IfOk result (λ r. reduced (expr_names (named_trees (tree_at arena.now.items) exprs.now)) (map expr_shown r.selectors.items) r.reductions.items ≡ named_trees (tree_at arena.now.items) exprs.now) }
        ensures memory { OnErr result (result ≡ Err PolarsError.OutOfMemory) }
    {
        let mut selectors = Vec::new(alloc);
        let mut reductions = Vec::new(alloc);
        for expr in exprs {
            let reduced = taken_apart(expr.node, arena);
            let selector = copy_as(alloc, reduced.operand, &expr.output_name, arena)?;
            selectors.push(selector)?;
            reductions.push(reduced.reduction)?;
        }
        Ok(Reductions {
            selectors,
            reductions,
        })
    }

    /// Of these expressions, each of which is a reduction.
    ///
    /// Fails only for want of memory.
    pub fn of(
        alloc: Global,
        exprs: &Items<ExprIR>,
        arena: &Arena<AExpr>,
    ) -> PolarsResult<Reductions>
        requires complete { AllByRecursion IsComplete (key_trees (tree_at arena.now.items) exprs.now) }
        requires reductions { AllByRecursion IsReduction (key_trees (tree_at arena.now.items) exprs.now) }
        ensures shown { IfOk result (λ r. reduced (expr_names (named_trees (tree_at arena.now.items) exprs.now)) (map expr_shown r.selectors.items) r.reductions.items ≡ named_trees (tree_at arena.now.items) exprs.now) }
        ensures memory { OnErr result (result ≡ Err PolarsError.OutOfMemory) }
    {
        Reductions::of_each(alloc, exprs.as_slice(), arena)
    }
}

//! Tests of the expressions that a node names.
ghost use Rattle.std.specs.Prelude.{◌≡◌, Err, IfNone, IfOk, IfSome, OnErr, false, is_some};
ghost use Rattle.std.specs.List.{AllByRecursion, list_all};
ghost use Rattle.pu_base.specs.declared.arena.Node.{Node as Number};
ghost use Rattle.ps_frame.specs.Trees.{IsComplete, IsExpression, Tree, aggregate_tree, tree_at};
ghost use Rattle.ps_frame.specs.Typing.{kind_over};
ghost use Rattle.ps_frame.specs.declared.refusal.PolarsError.{PolarsError};
ghost use Rattle.ps_fresh.specs.Known.{Remembers};
ghost use Rattle.ps_meaning.specs.Steps.{key_trees};
ghost use Rattle.sound_plans.specs.Tested.{is_reduced, is_reduction, passes};

use ps_frame::expr::{AExpr, IRAggExpr, entry};
use ps_frame::refusal::{PolarsError, PolarsResult};
use ps_frame::schema::Schema;
use ps_fresh::expr_cache::{ExprCache, is_elementwise, is_input_independent};
use ps_meaning::options::ExprIR;
use ps_typing::kinds::expr_kind;
use pu_base::{Arena, Node};
use std::alloc::Global;

/// What is asked of an expression: that it has a kind over a schema, that it is elementwise, that it reads no input, or that
/// parts of its answer can be put together.
#[derive(Clone, Copy)]
pub enum Test<'a> {
    Typed(&'a Schema),
    Elementwise,
    Independent,
    Reduction,
}

// Whether an expression has a kind over a schema.
fn has_kind(alloc: Global, expr: Node, arena: &Arena<AExpr>, schema: &Schema) -> PolarsResult<bool>
    requires { IsExpression arena.now.items expr }
    ensures has { IfOk result (λ has. has ≡ is_some (kind_over schema.now (tree_at arena.now.items expr))) }
    ensures memory { OnErr result (result ≡ Err PolarsError.OutOfMemory) }
{
    match expr_kind(alloc, Node(0), expr, arena, schema) {
        Ok(_) => Ok(true),
        Err(PolarsError::OutOfMemory) => Err(PolarsError::OutOfMemory),
        Err(_error) => Ok(false),
    }
}

// What an aggregate goes over, if parts of it can be put together.
fn reduced(aggregate: IRAggExpr) -> Option<Node>
    ensures some { IfSome result (λ e. (f : Number → Tree) → is_reduction (aggregate_tree f aggregate) ≡ is_reduced (f e)) }
    ensures whole { IfSome result (λ e. (f : Number → Tree) → IsComplete (aggregate_tree f aggregate) → IsComplete (f e)) }
    ensures none { IfNone result ((f : Number → Tree) → is_reduction (aggregate_tree f aggregate) ≡ false) }
{
    match aggregate {
        IRAggExpr::Min(expr)
        | IRAggExpr::Max(expr)
        | IRAggExpr::First(expr)
        | IRAggExpr::Last(expr)
        | IRAggExpr::Sum(expr) => Some(expr),
        IRAggExpr::NUnique(_) | IRAggExpr::Count(..) => None,
    }
}

// Whether an expression is elementwise and reads its input.
fn is_reduced_expr(
    alloc: Global,
    expr: Node,
    arena: &Arena<AExpr>,
    cache: &mut ExprCache,
) -> PolarsResult<bool>
    requires expr { IsExpression arena.now.items expr }
    requires cache { Remembers arena.now.items cache.old }
    ensures is { IfOk result (λ is. is ≡ is_reduced (tree_at arena.now.items expr)) }
    ensures cache { Remembers arena.now.items cache.new }
    ensures memory { OnErr result (result ≡ Err PolarsError.OutOfMemory) }
{
    let elementwise = is_elementwise(alloc, expr, arena, cache)?;
    let independent = is_input_independent(alloc, expr, arena, cache)?;
    Ok(elementwise && !independent)
}

// Whether parts of an expression's answer can be put together.
fn is_reduction_expr(
    alloc: Global,
    expr: Node,
    arena: &Arena<AExpr>,
    cache: &mut ExprCache,
) -> PolarsResult<bool>
    requires expr { IsExpression arena.now.items expr }
    requires cache { Remembers arena.now.items cache.old }
    ensures is { IfOk result (λ is. is ≡ is_reduction (tree_at arena.now.items expr)) }
    ensures cache { Remembers arena.now.items cache.new }
    ensures memory { OnErr result (result ≡ Err PolarsError.OutOfMemory) }
{
    match entry(expr, arena) {
        AExpr::Len => Ok(true),
        AExpr::Agg(aggregate) => match reduced(*aggregate) {
            Some(operand) => is_reduced_expr(alloc, operand, arena, cache),
            None => Ok(false),
        },
        _ => Ok(false),
    }
}

/// Whether an expression passes a test.
///
/// Fails only for want of memory; what is then known is still right.
pub fn passes(
    alloc: Global,
    test: Test,
    expr: Node,
    arena: &Arena<AExpr>,
    cache: &mut ExprCache,
) -> PolarsResult<bool>
    requires expr { IsExpression arena.now.items expr }
    requires cache { Remembers arena.now.items cache.old }
    ensures is { IfOk result (λ is. is ≡ passes test.entry (tree_at arena.now.items expr)) }
    ensures cache { Remembers arena.now.items cache.new }
    ensures memory { OnErr result (result ≡ Err PolarsError.OutOfMemory) }
{
    match test {
        Test::Typed(schema) => has_kind(alloc, expr, arena, schema),
        Test::Elementwise => is_elementwise(alloc, expr, arena, cache),
        Test::Independent => is_input_independent(alloc, expr, arena, cache),
        Test::Reduction => is_reduction_expr(alloc, expr, arena, cache),
    }
}

/// Whether each of some expressions passes a test.
///
/// Fails only for want of memory; what is then known is still right.
pub fn all_pass(
    alloc: Global,
    test: Test,
    exprs: &[ExprIR],
    arena: &Arena<AExpr>,
    cache: &mut ExprCache,
) -> PolarsResult<bool>
    requires exprs { AllByRecursion IsComplete (key_trees (tree_at arena.now.items) exprs.now) }
    requires cache { Remembers arena.now.items cache.old }
    ensures pass { IfOk result (λ pass. pass ≡ list_all (passes test.entry) (key_trees (tree_at arena.now.items) exprs.now)) }
    ensures cache { Remembers arena.now.items cache.new }
    ensures memory { OnErr result (result ≡ Err PolarsError.OutOfMemory) }
{
    for expr in exprs {
        let pass = passes(alloc, test, expr.node, arena, cache)?;
        if !pass {
            return Ok(false);
        }
    }
    Ok(true)
}

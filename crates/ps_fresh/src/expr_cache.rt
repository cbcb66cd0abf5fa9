//! What a lowering knows of expressions: whether they read their input, and whether they are elementwise.
ghost use Rattle.std.specs.Prelude.{◌≡◌, [], Err, IfOk, OnErr};
ghost use Rattle.ps_frame.specs.Trees.{IsExpression, tree_at};
ghost use Rattle.ps_frame.specs.Typing.{is_elementwise as is_elementwise_tree, is_independent};
ghost use Rattle.ps_frame.specs.declared.refusal.PolarsError.{PolarsError};
ghost use Rattle.ps_fresh.specs.Known.{Remembers};

use crate::elementwise::is_elementwise_expr;
use crate::independent::is_independent_expr;
use crate::known::KnownAnswers;
use ps_frame::expr::AExpr;
use ps_frame::refusal::PolarsResult;
use pu_base::{Arena, Node};
use std::alloc::Global;

/// What is known of expressions. A cache is used with one arena alone, to which entries may be added.
#[derive(Drop)]
pub struct ExprCache {
    independent: KnownAnswers,
    elementwise: KnownAnswers,
}

impl ExprCache {
    /// A cache that knows nothing, with room for what is known of so many expressions.
    ///
    /// Fails only for want of memory.
    pub fn with_capacity(alloc: Global, capacity: usize) -> PolarsResult<ExprCache>
        ensures independent { IfOk result (λ cache. cache.independent ≡ []) }
        ensures elementwise { IfOk result (λ cache. cache.elementwise ≡ []) }
        ensures memory { OnErr result (result ≡ Err PolarsError.OutOfMemory) }
    {
        Ok(ExprCache {
            independent: KnownAnswers::with_capacity(alloc, capacity)?,
            elementwise: KnownAnswers::with_capacity(alloc, capacity)?,
        })
    }
}

/// Whether an expression reads no input: no column, and no height. Each expression below it is looked at once, in all calls together.
///
/// Fails only for want of memory; what is then known is still right.
pub fn is_input_independent(
    alloc: Global,
    expr: Node,
    arena: &Arena<AExpr>,
    cache: &mut ExprCache,
) -> PolarsResult<bool>
    requires expr { IsExpression arena.now.items expr }
    requires cache { Remembers arena.now.items cache.old }
    ensures is { IfOk result (λ is. is ≡ is_independent (tree_at arena.now.items expr)) }
    ensures cache { Remembers arena.now.items cache.new }
    ensures memory { OnErr result (result ≡ Err PolarsError.OutOfMemory) }
{
    is_independent_expr(alloc, expr, arena, &mut cache.independent)
}

/// Whether each cell of an expression's answer comes from the cells of its row. Each expression below it is looked at
/// once, in all calls together.
///
/// Fails only for want of memory; what is then known is still right.
pub fn is_elementwise(
    alloc: Global,
    expr: Node,
    arena: &Arena<AExpr>,
    cache: &mut ExprCache,
) -> PolarsResult<bool>
    requires expr { IsExpression arena.now.items expr }
    requires cache { Remembers arena.now.items cache.old }
    ensures is { IfOk result (λ is. is ≡ is_elementwise_tree (tree_at arena.now.items expr)) }
    ensures cache { Remembers arena.now.items cache.new }
    ensures memory { OnErr result (result ≡ Err PolarsError.OutOfMemory) }
{
    is_elementwise_expr(alloc, expr, arena, &mut cache.elementwise)
}

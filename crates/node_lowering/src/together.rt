// Expressions and columns of a stream that are lowered together.
ghost use Rattle.std.specs.Prelude.{◌≡◌, Err, IfOk, OnErr, drop, slice_get};
ghost use Rattle.std.specs.List.{AllByRecursion};
ghost use Rattle.ps_frame.specs.Trees.{IsComplete, Tree, tree_at};
ghost use Rattle.ps_frame.specs.declared.refusal.PolarsError.{PolarsError};
ghost use Rattle.ps_fresh.specs.Known.{Remembers};
ghost use Rattle.ps_meaning.specs.Steps.{key_trees};
ghost use Rattle.ps_phys.specs.Shown.{stream_of};
ghost use Rattle.ps_rules.specs.Lowered.{lower_exprs};
ghost use Rattle.lowering_parts.specs.Gathered.{GoesOn, trees_at};
ghost use Rattle.node_lowering.specs.Answers.{Answers, before_columns as keys_before, behind_columns as exprs_behind};
ghost use Rattle.pu_base.specs.declared.arena.Node.{Node as ANode};

use crate::copies::{equal, names_in};
use expr_lowering::lower::together;
use lowering_parts::bundles::finish;
use lowering_parts::names::add_columns;
use lowering_parts::nodes::schema_of;
use ps_frame::expr::AExpr;
use ps_frame::refusal::{PolarsError, PolarsResult};
use ps_fresh::lowering::Lowering;
use ps_meaning::options::ExprIR;
use ps_phys::phys::PhysStream;
use pu_base::{Arena, Node};
use std::alloc::Global;

/// One call for expressions: a stream, and the expressions over it that stand for these over the input.
///
/// Fails only for want of memory; nodes, names and expressions may then have been added.
fn lower_together(
    alloc: Global,
    arena: &mut Arena<AExpr>,
    low: &mut Lowering,
    input: PhysStream,
    exprs: &[Node],
) -> PolarsResult<(PhysStream, Vec<Node>)>
    requires whole { AllByRecursion IsComplete (trees_at (tree_at arena.old.items) exprs.now) }
    requires cache { Remembers arena.old.items low.old.cache }
    ensures answers { IfOk result (λ r. Answers (lower_exprs low.old.origin.0 (stream_of input) (trees_at (tree_at arena.old.items) exprs.now)) arena.old.items arena.new.items low.old low.new r.0 r.1.items) }
    ensures goes_on { GoesOn arena.old.items arena.new.items low.old low.new }
    ensures memory { OnErr result (result ≡ Err PolarsError.OutOfMemory) }
{
    let bundle = together(alloc, arena, low, input, exprs)?;
    let (stream, answers) = finish(alloc, arena, low, input, bundle)?;
    Ok((stream, answers))
}

/// All columns of the input and expressions behind them, lowered together: what stands for the expressions.
///
/// Fails only for want of memory; nodes, names and expressions may then have been added.
pub(crate) fn behind_columns(
    alloc: Global,
    arena: &mut Arena<AExpr>,
    low: &mut Lowering,
    input: PhysStream,
    exprs: &[Node],
) -> PolarsResult<(PhysStream, Vec<Node>)>
    requires whole { AllByRecursion IsComplete (trees_at (tree_at arena.old.items) exprs.now) }
    requires cache { Remembers arena.old.items low.old.cache }
    ensures answers { IfOk result (λ r. Answers (exprs_behind low.old.origin.0 (stream_of input) (trees_at (tree_at arena.old.items) exprs.now)) arena.old.items arena.new.items low.old low.new r.0 r.1.items) }
    ensures goes_on { GoesOn arena.old.items arena.new.items low.old low.new }
    ensures memory { OnErr result (result ≡ Err PolarsError.OutOfMemory) }
{
    let schema = schema_of(alloc, low, input)?;
    let names = names_in(alloc, &schema)?;
    // Here, so that no exit below has to take it apart.
    drop(schema);
    let mut asked = add_columns(alloc, names.as_slice(), arena)?;
    asked.extend_from_slice(exprs)?;
    let (stream, answers) = lower_together(alloc, arena, low, input, asked.as_slice())?;
    let others = others_behind(alloc, names.len(), answers.as_slice())?;
    Ok((stream, others))
}

// What stands behind so many expressions.
fn others_behind(alloc: Global, count: usize, exprs: &[Node]) -> PolarsResult<Vec<Node>>
    ensures others { IfOk result (λ others. others.items ≡ drop count exprs.now) }
    ensures memory { OnErr result (result ≡ Err PolarsError.OutOfMemory) }
{
    let start = count.min(exprs.len());
    let mut others = Vec::new(alloc);
    others.extend_from_slice(&exprs[start..])?;
    Ok(others)
}

/// Expressions and all columns of the input behind them, lowered together: what stands for the expressions.
///
/// Fails only for want of memory; nodes, names and expressions may then have been added.
pub(crate) fn before_columns(
    alloc: Global,
    arena: &mut Arena<AExpr>,
    low: &mut Lowering,
    input: PhysStream,
    exprs: &[Node],
) -> PolarsResult<(PhysStream, Vec<Node>)>
    requires whole { AllByRecursion IsComplete (trees_at (tree_at arena.old.items) exprs.now) }
    requires cache { Remembers arena.old.items low.old.cache }
    ensures answers { IfOk result (λ r. Answers (keys_before low.old.origin.0 (stream_of input) (trees_at (tree_at arena.old.items) exprs.now)) arena.old.items arena.new.items low.old low.new r.0 r.1.items) }
    ensures goes_on { GoesOn arena.old.items arena.new.items low.old low.new }
    ensures memory { OnErr result (result ≡ Err PolarsError.OutOfMemory) }
{
    let schema = schema_of(alloc, low, input)?;
    let names = names_in(alloc, &schema)?;
    // Here, so that no exit below has to take it apart.
    drop(schema);
    let columns = add_columns(alloc, names.as_slice(), arena)?;
    let mut asked = Vec::new(alloc);
    asked.extend_from_slice(exprs)?;
    asked.extend_from_slice(columns.as_slice())?;
    let (stream, mut answers) = lower_together(alloc, arena, low, input, asked.as_slice())?;
    answers.truncate(exprs.len());
    Ok((stream, answers))
}

/// The numbers of expressions.
///
/// Fails only for want of memory.
pub(crate) fn nodes_of(alloc: Global, exprs: &[ExprIR]) -> PolarsResult<Vec<Node>>
    ensures trees { (f : ANode → Tree) → IfOk result (λ ns. trees_at f ns.items ≡ key_trees f exprs.now) }
    ensures memory { OnErr result (result ≡ Err PolarsError.OutOfMemory) }
{
    let mut nodes = Vec::with_capacity(alloc, exprs.len())?;
    for expr in exprs {
        nodes.push(expr.node)?;
    }
    Ok(nodes)
}

/// Another expression under the name of one.
///
/// Fails only for want of memory.
pub(crate) fn under_name_of(alloc: Global, asked: &ExprIR, node: Node) -> PolarsResult<ExprIR>
    ensures name { IfOk result (λ e. e.output_name ≡ asked.now.output_name) }
    ensures node { IfOk result (λ e. e.node ≡ node) }
    ensures memory { OnErr result (result ≡ Err PolarsError.OutOfMemory) }
{
    let output_name = equal(alloc, &asked.output_name)?;
    Ok(ExprIR { node, output_name })
}

/// The expression at a place, if there are so many.
pub(crate) fn expr_at(exprs: &[Node], place: usize) -> Option<Node>
    ensures { result ≡ slice_get exprs.now place }
{
    exprs.get(place).copied()
}

//! The lowering of expressions and of selects over a stream.
ghost use Rattle.std.specs.Prelude.{◌≡◌, ◌+◌, ◌<◌, ◌≤◌, Err, IfOk, OnErr, OnOk, length};
ghost use Rattle.std.specs.List.{AllByRecursion};
ghost use Rattle.ps_frame.specs.Trees.{IsComplete, Tree, tree_at};
ghost use Rattle.ps_frame.specs.declared.refusal.PolarsError.{PolarsError};
ghost use Rattle.ps_fresh.specs.Known.{Remembers};
ghost use Rattle.ps_meaning.specs.Steps.{key_trees, named_trees};
ghost use Rattle.ps_phys.specs.Shown.{stream_of};
ghost use Rattle.ps_rules.specs.Counted.{inserts_for};
ghost use Rattle.ps_rules.specs.Lowered.{lower_exprs as lowered_exprs, select_stream};
ghost use Rattle.ps_rules.specs.Slots.{under};
ghost use Rattle.lowering_parts.specs.Gathered.{GoesOn, Later, Makes, names_asked, state_of, trees_at};
ghost use Rattle.pu_base.specs.declared.arena.Node.{Node as ANode};

use crate::lower::{select, together};
use lowering_parts::bundles::finish;
use lowering_parts::names::copied;
use ps_copies::try_clone::TryClone;
use ps_frame::expr::AExpr;
use ps_frame::refusal::{PolarsError, PolarsResult};
use ps_fresh::lowering::Lowering;
use ps_meaning::options::ExprIR;
use ps_phys::phys::PhysStream;
use pu_base::{Arena, Node, PlSmallStr};
use std::alloc::Global;
use valid_plans::fields::name_of;

/// A stream, and expressions over it that stand for these over the input; they are elementwise, under the asked names.
///
/// Makes at most as many nodes as `inserts_for` says. What stood in the arena and in the lowering stands after every answer.
/// Fails only for want of memory; nodes, names and expressions may then have been added.
pub fn lower_exprs(
    alloc: Global,
    expr_arena: &mut Arena<AExpr>,
    low: &mut Lowering,
    input: PhysStream,
    exprs: &[ExprIR],
) -> PolarsResult<(PhysStream, Vec<ExprIR>)>
    requires whole { AllByRecursion IsComplete (key_trees (tree_at expr_arena.old.items) exprs.now) }
    requires cache { Remembers expr_arena.old.items low.old.cache }
    ensures nodes { IfOk result (λ r. Later expr_arena.new.items (λ f. state_of f low.new ≡ (lowered_exprs low.old.origin.0 (stream_of input) (key_trees (tree_at expr_arena.old.items) exprs.now) (state_of f low.old)).state)) }
    ensures stream { IfOk result (λ r. Later expr_arena.new.items (λ f. stream_of r.0 ≡ (lowered_exprs low.old.origin.0 (stream_of input) (key_trees (tree_at expr_arena.old.items) exprs.now) (state_of f low.old)).stream)) }
    ensures exprs { IfOk result (λ r. Later expr_arena.new.items (λ f. named_trees f r.1.items ≡ under (names_asked exprs.now) (lowered_exprs low.old.origin.0 (stream_of input) (key_trees (tree_at expr_arena.old.items) exprs.now) (state_of f low.old)).exprs)) }
    ensures new_exprs { IfOk result (λ r. AllByRecursion IsComplete (key_trees (tree_at expr_arena.new.items) r.1.items)) }
    ensures inserts { OnOk result (length low.new.phys_sm.slots ≤ length low.old.phys_sm.slots + inserts_for (key_trees (tree_at expr_arena.old.items) exprs.now)) }
    ensures grows { GoesOn expr_arena.old.items expr_arena.new.items low.old low.new }
    ensures memory { OnErr result (result ≡ Err PolarsError.OutOfMemory) }
{
    let nodes = nodes_of(alloc, exprs)?;
    let bundle = together(alloc, expr_arena, low, input, nodes.as_slice())?;
    let (stream, answered) = finish(alloc, expr_arena, low, input, bundle)?;
    let named = under_their_names(alloc, exprs, answered.as_slice())?;
    Ok((stream, named))
}

/// The stream of a select of these expressions under their names, which differ.
///
/// Makes at most as many nodes as `inserts_for` says. What stood in the arena and in the lowering stands after every answer.
/// Fails only for want of memory; nodes, names and expressions may then have been added.
pub fn build_select_stream(
    alloc: Global,
    expr_arena: &mut Arena<AExpr>,
    low: &mut Lowering,
    input: PhysStream,
    exprs: &[ExprIR],
) -> PolarsResult<PhysStream>
    requires whole { AllByRecursion IsComplete (key_trees (tree_at expr_arena.old.items) exprs.now) }
    requires cache { Remembers expr_arena.old.items low.old.cache }
    ensures makes { IfOk result (Makes (select_stream low.old.origin.0 (stream_of input) (named_trees (tree_at expr_arena.old.items) exprs.now)) expr_arena.old.items expr_arena.new.items low.old low.new) }
    ensures inserts { OnOk result (length low.new.phys_sm.slots ≤ length low.old.phys_sm.slots + inserts_for (key_trees (tree_at expr_arena.old.items) exprs.now)) }
    ensures grows { GoesOn expr_arena.old.items expr_arena.new.items low.old low.new }
    ensures memory { OnErr result (result ≡ Err PolarsError.OutOfMemory) }
{
    let nodes = nodes_of(alloc, exprs)?;
    let names = names_of(alloc, exprs)?;
    select(alloc, expr_arena, low, input, names, nodes.as_slice())
}

// The numbers of expressions.
fn nodes_of(alloc: Global, exprs: &[ExprIR]) -> PolarsResult<Vec<Node>>
    ensures trees { (f : ANode → Tree) → IfOk result (λ ns. trees_at f ns.items ≡ key_trees f exprs.now) }
    ensures memory { OnErr result (result ≡ Err PolarsError.OutOfMemory) }
{
    let mut nodes = Vec::with_capacity(alloc, exprs.len())?;
    for expr in exprs {
        nodes.push(expr.node)?;
    }
    Ok(nodes)
}

// Equal copies of their names.
fn names_of(alloc: Global, exprs: &[ExprIR]) -> PolarsResult<Vec<PlSmallStr>>
    ensures names { IfOk result (λ ns. ns.items ≡ names_asked exprs.now) }
    ensures memory { OnErr result (result ≡ Err PolarsError.OutOfMemory) }
{
    let mut names = Vec::with_capacity(alloc, exprs.len())?;
    for expr in exprs {
        names.push(copied(alloc, name_of(expr))?)?;
    }
    Ok(names)
}

// Answers under the names of what was asked.
fn under_their_names(
    alloc: Global,
    asked: &[ExprIR],
    answered: &[Node],
) -> PolarsResult<Vec<ExprIR>>
    ensures named { (f : ANode → Tree) → IfOk result (λ es. named_trees f es.items ≡ under (names_asked asked.now) (trees_at f answered.now)) }
    ensures memory { OnErr result (result ≡ Err PolarsError.OutOfMemory) }
{
    let mut named = Vec::with_capacity(alloc, answered.len())?;
    let count = asked.len().min(answered.len());
    for i in 0..count {
        named.push(under_name_of(alloc, &asked[i], answered[i])?)?;
    }
    Ok(named)
}

// An expression under the name of another one.
fn under_name_of(alloc: Global, asked: &ExprIR, node: Node) -> PolarsResult<ExprIR>
    ensures name { IfOk result (λ e. e.output_name ≡ asked.now.output_name) }
    ensures node { IfOk result (λ e. e.node ≡ node) }
    ensures memory { OnErr result (result ≡ Err PolarsError.OutOfMemory) }
{
    // A match and no `?`: an error of names doesn't convert, and is want of memory alone.
    match asked.output_name.try_clone(alloc) {
        Ok(output_name) => Ok(ExprIR { node, output_name }),
        Err(_error) => Err(PolarsError::OutOfMemory),
    }
}

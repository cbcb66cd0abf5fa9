//! The calls that lower expressions and selects, each with its promise: what it answers means what was asked.
ghost use Rattle.std.specs.Prelude.{◌≡◌, ◌+◌, ◌<◌, ◌≤◌, Err, IfOk, OnErr, OnOk, length};
ghost use Rattle.std.specs.List.{AllByRecursion};
ghost use Rattle.ps_frame.specs.Functions.{Functions};
ghost use Rattle.ps_frame.specs.Trees.{IsComplete, tree_at};
ghost use Rattle.ps_frame.specs.declared.refusal.PolarsError.{PolarsError};
ghost use Rattle.ps_fresh.specs.Known.{Remembers};
ghost use Rattle.ps_meaning.specs.Steps.{key_trees, named_trees};
ghost use Rattle.ps_phys.specs.Shown.{stream_of};
ghost use Rattle.ps_rules.specs.Counted.{inserts_for};
ghost use Rattle.ps_rules.specs.Lowered.{lower_exprs as lowered_exprs, select_stream};
ghost use Rattle.ps_rules.specs.Slots.{under};
ghost use Rattle.ps_shares.specs.Kept.{IsReady};
ghost use Rattle.lowering_parts.specs.Gathered.{GoesOn, Later, Makes, names_asked, state_of};
ghost use Rattle.lowering_laws.specs.Kept.{KeepsExprs, KeepsSelect};

use expr_lowering::exprs::{build_select_stream as select_by_rule, lower_exprs as lower_by_rule};
use ps_frame::expr::AExpr;
use ps_frame::refusal::PolarsResult;
use ps_fresh::lowering::Lowering;
use ps_meaning::options::ExprIR;
use ps_phys::phys::PhysStream;
use pu_base::Arena;
use std::alloc::Global;

/// A stream, and expressions over it that stand for these over the input; they are elementwise, under the asked names,
/// and have the kinds that the asked ones have.
///
/// Where the input's node is there, its columns' names are known and differ, and each expression has a kind over them:
/// whatever table of its schema the input means, the answered expressions over the stream end as the asked ones over
/// the input. Each cause of theirs, and of each node that was made, breaks the select of the asked ones there; and they
/// are large only where that select or the input is. The shape stays sound but for the readers of its nodes.
///
/// Makes at most as many nodes as `inserts_for` says. What stood in the arena and in the lowering stands after every answer.
/// Fails only for want of memory; nodes, names and expressions may then have been added.
pub fn lower_exprs(
    alloc: Global,
    expr_arena: &mut Arena<AExpr>,
    low: &mut Lowering,
    input: PhysStream,
    exprs: &[ExprIR],
) -> PolarsResult<(PhysStream, Vec<ExprIR>)>
    requires whole { AllByRecursion IsComplete (key_trees (tree_at expr_arena.old.items) exprs.now) }
    requires cache { Remembers expr_arena.old.items low.old.cache }
    ensures keeps { (F : Functions) → IfOk result (λ r. Later expr_arena.new.items (λ f. IsReady (state_of f low.old) (stream_of input) (key_trees (tree_at expr_arena.old.items) exprs.now) → KeepsExprs F low.old.origin.0 (state_of f low.old) (state_of f low.new) (stream_of input) (named_trees (tree_at expr_arena.old.items) exprs.now) (named_trees f r.1.items) (stream_of r.0))) }
    ensures nodes { IfOk result (λ r. Later expr_arena.new.items (λ f. state_of f low.new ≡ (lowered_exprs low.old.origin.0 (stream_of input) (key_trees (tree_at expr_arena.old.items) exprs.now) (state_of f low.old)).state)) }
    ensures stream { IfOk result (λ r. Later expr_arena.new.items (λ f. stream_of r.0 ≡ (lowered_exprs low.old.origin.0 (stream_of input) (key_trees (tree_at expr_arena.old.items) exprs.now) (state_of f low.old)).stream)) }
    ensures exprs { IfOk result (λ r. Later expr_arena.new.items (λ f. named_trees f r.1.items ≡ under (names_asked exprs.now) (lowered_exprs low.old.origin.0 (stream_of input) (key_trees (tree_at expr_arena.old.items) exprs.now) (state_of f low.old)).exprs)) }
    ensures new_exprs { IfOk result (λ r. AllByRecursion IsComplete (key_trees (tree_at expr_arena.new.items) r.1.items)) }
    ensures inserts { OnOk result (length low.new.phys_sm.slots ≤ length low.old.phys_sm.slots + inserts_for (key_trees (tree_at expr_arena.old.items) exprs.now)) }
    ensures grows { GoesOn expr_arena.old.items expr_arena.new.items low.old low.new }
    ensures memory { OnErr result (result ≡ Err PolarsError.OutOfMemory) }
{
    let answer = lower_by_rule(alloc, expr_arena, low, input, exprs)?;
    // That the counter has 64 bits is why fresh names differ.
    let _counter = low.names.counter();
    Ok(answer)
}

/// The stream of a select of these expressions under their names, which differ.
///
/// Where the input's node is there, its columns' names are known and differ, and each expression has a kind over them:
/// whatever table of its schema the input means, the stream ends as the select over the input. Each cause of it, and of
/// each node that was made, breaks the select there; and each node is large only where the select or the input is. The
/// shape stays sound but for the readers of its nodes.
///
/// Makes at most as many nodes as `inserts_for` says. What stood in the arena and in the lowering stands after every answer.
/// Fails only for want of memory; nodes, names and expressions may then have been added.
pub fn build_select_stream(
    alloc: Global,
    expr_arena: &mut Arena<AExpr>,
    low: &mut Lowering,
    input: PhysStream,
    exprs: &[ExprIR],
) -> PolarsResult<PhysStream>
    requires whole { AllByRecursion IsComplete (key_trees (tree_at expr_arena.old.items) exprs.now) }
    requires cache { Remembers expr_arena.old.items low.old.cache }
    ensures keeps { (F : Functions) → IfOk result (λ s. Later expr_arena.new.items (λ f. IsReady (state_of f low.old) (stream_of input) (key_trees (tree_at expr_arena.old.items) exprs.now) → KeepsSelect F low.old.origin.0 (state_of f low.old) (state_of f low.new) (stream_of input) (named_trees (tree_at expr_arena.old.items) exprs.now) (stream_of s))) }
    ensures makes { IfOk result (Makes (select_stream low.old.origin.0 (stream_of input) (named_trees (tree_at expr_arena.old.items) exprs.now)) expr_arena.old.items expr_arena.new.items low.old low.new) }
    ensures inserts { OnOk result (length low.new.phys_sm.slots ≤ length low.old.phys_sm.slots + inserts_for (key_trees (tree_at expr_arena.old.items) exprs.now)) }
    ensures grows { GoesOn expr_arena.old.items expr_arena.new.items low.old low.new }
    ensures memory { OnErr result (result ≡ Err PolarsError.OutOfMemory) }
{
    let stream = select_by_rule(alloc, expr_arena, low, input, exprs)?;
    let _counter = low.names.counter();
    Ok(stream)
}

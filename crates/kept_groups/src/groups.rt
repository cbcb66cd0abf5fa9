//! The call that lowers a group-by, with its promise: what it answers means what was asked.
ghost use Rattle.std.specs.Prelude.{◌≡◌, ◌+◌, ◌∷◌, ◌≤◌, [], Err, IfOk, OnErr, OnOk, length};
ghost use Rattle.std.specs.List.{AllByRecursion};
ghost use Rattle.ps_frame.specs.Functions.{Functions};
ghost use Rattle.ps_frame.specs.Trees.{IsComplete, tree_at};
ghost use Rattle.ps_frame.specs.declared.refusal.PolarsError.{PolarsError};
ghost use Rattle.ps_fresh.specs.Known.{Remembers};
ghost use Rattle.ps_meaning.specs.Steps.{group_by, key_trees};
ghost use Rattle.ps_phys.specs.Shown.{stream_of};
ghost use Rattle.ps_rules.specs.Counted.{inserts_for};
ghost use Rattle.plan_rules.specs.Groups.{group_stream};
ghost use Rattle.step_keeps.specs.Kept.{KeepsStep};
ghost use Rattle.lowering_parts.specs.Gathered.{GoesOn, Later, Makes, state_of};
ghost use Rattle.group_lowering.specs.Groups.{group_of};
ghost use Rattle.kept_groups.specs.Asked.{IsReadyToGroup, KeepsSound};

use group_lowering::groups::build_group_by_stream as group_by_rule;
use ps_frame::expr::AExpr;
use ps_frame::refusal::PolarsResult;
use ps_fresh::lowering::Lowering;
use ps_meaning::options::{ExprIR, GroupbyOptions};
use ps_phys::phys::PhysStream;
use pu_base::Arena;
use std::alloc::Global;

/// The stream of a group-by: by a streaming node with a select and the slice above it, where the order of its groups is
/// free, some key or aggregate reads the input, and each aggregate is made of reductions; else by a map over the whole
/// input, which applies the slice itself.
///
/// Where the input's node is there, its columns' names and the output names are known and differ, keys and aggregates have
/// kinds over it, there is a key, and each aggregate is scalar and of what reads the input: whatever table of its schema
/// the input means, the stream ends as the group-by over the input. Each cause of it, and of each node that was made,
/// breaks the group-by there; and each node is large only where the group-by or the input is. A shape stays sound but for
/// the readers of its nodes.
///
/// Makes at most as many nodes as `inserts_for` says of the keys. What stood in the arena and in the lowering stands after
/// every answer. Fails only for want of memory; nodes, names and expressions may then have been added.
pub fn build_group_by_stream(
    alloc: Global,
    expr_arena: &mut Arena<AExpr>,
    low: &mut Lowering,
    input: PhysStream,
    keys: &[ExprIR],
    aggs: &[ExprIR],
    maintain_order: bool,
    options: GroupbyOptions,
) -> PolarsResult<PhysStream>
    requires keys { AllByRecursion IsComplete (key_trees (tree_at expr_arena.old.items) keys.now) }
    requires aggs { AllByRecursion IsComplete (key_trees (tree_at expr_arena.old.items) aggs.now) }
    requires cache { Remembers expr_arena.old.items low.old.cache }
    ensures keeps { (F : Functions) → IfOk result (λ s. Later expr_arena.new.items (λ f. IsReadyToGroup (state_of f low.old) (stream_of input) (group_of (tree_at expr_arena.old.items) keys.now aggs.now maintain_order options.slice) → KeepsStep F low.old.origin.0 (group_by (group_of (tree_at expr_arena.old.items) keys.now aggs.now maintain_order options.slice)) (state_of f low.old) (state_of f low.new) (stream_of input ∷ []) (stream_of s))) }
    ensures sound { (F : Functions) → IfOk result (λ s. Later expr_arena.new.items (λ f. IsReadyToGroup (state_of f low.old) (stream_of input) (group_of (tree_at expr_arena.old.items) keys.now aggs.now maintain_order options.slice) → KeepsSound F (state_of f low.old) (state_of f low.new))) }
    ensures makes { IfOk result (Makes (group_stream low.old.origin.0 (group_of (tree_at expr_arena.old.items) keys.now aggs.now maintain_order options.slice) (stream_of input)) expr_arena.old.items expr_arena.new.items low.old low.new) }
    ensures inserts { OnOk result (length low.new.phys_sm.slots ≤ length low.old.phys_sm.slots + inserts_for (key_trees (tree_at expr_arena.old.items) keys.now)) }
    ensures grows { GoesOn expr_arena.old.items expr_arena.new.items low.old low.new }
    ensures memory { OnErr result (result ≡ Err PolarsError.OutOfMemory) }
{
    let stream = group_by_rule(
        alloc,
        expr_arena,
        low,
        input,
        keys,
        aggs,
        maintain_order,
        options,
    )?;
    // That the counter has 64 bits is why fresh names differ.
    let _counter = low.names.counter();
    Ok(stream)
}

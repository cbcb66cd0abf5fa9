//! The call that lowers a node of a plan, with its promise: what it answers means what the node means.
ghost use Rattle.std.specs.Prelude.{◌≡◌, ◌+◌, ◌≤◌, Err, IfOk, OnErr, OnOk, length};
ghost use Rattle.lowering_parts.specs.Gathered.{GoesOn, Later};
ghost use Rattle.plan_calls.specs.Calls.{KeepsNode};
ghost use Rattle.plan_calls.specs.Left.{AreLeftByCalls};
ghost use Rattle.plan_lowering.specs.Lowered.{LowersAs};
ghost use Rattle.plan_rules.specs.Plans.{lower_plan};
ghost use Rattle.plan_sizes.specs.Counted.{inserts_for_plan};
ghost use Rattle.ps_frame.specs.Trees.{tree_at};
ghost use Rattle.ps_frame.specs.declared.refusal.PolarsError.{PolarsError};
ghost use Rattle.ps_fresh.specs.Known.{Remembers};
ghost use Rattle.ps_phys.specs.Shown.{nodes_of, stream_of};
ghost use Rattle.ps_plan.specs.Graph.{Reached};
ghost use Rattle.ps_plan.specs.Plans.{tree_of};
ghost use Rattle.valid_plans.specs.Valid.{IsValidWith, plan_with};

use plan_calls::laws::calls_keep_nodes;
use plan_lowering::plans::lower_ir as lower_by_rule;
use ps_frame::expr::AExpr;
use ps_frame::functions::Functions;
use ps_frame::refusal::PolarsResult;
use ps_fresh::lowering::Lowering;
use ps_phys::phys::PhysStream;
use pu_base::{Arena, Node};
use scanned_tables::tables::tables_fit;
use std::alloc::Global;
use std::collections::BTreeMap;
use valid_plans::valid::Valid;

/// The stream of a node that the root of a valid plan leads to: what is below it is lowered first. A cache id that has a
/// stream already keeps it, and one that has none gets that of its input. Of the functions it asks whether one streams,
/// and calls none.
///
/// Where the lowering and the streams of cache ids are as calls on the plan have left them, they are so again, and the
/// stream means what the node means: each of its tables is within one that the node means under some choice. A cause
/// that a new node shows and that was made at its origin breaks the plan's node of that number, unless some table at or
/// under that one is large; and where a new node is large the plan's node is. The shape stays sound but for the readers
/// of its nodes, and what stood there means what it meant.
///
/// Makes at most as many nodes then as `inserts_for_plan` says. What stood in the arena and in the lowering stands after
/// every answer. Fails only for want of memory; nodes, names, expressions and streams of cache ids may then have been added.
pub fn lower_ir<F: Functions>(
    alloc: Global,
    node: Node,
    valid: &Valid,
    expr_arena: &mut Arena<AExpr>,
    functions: &F,
    low: &mut Lowering,
    cache_nodes: &mut BTreeMap<usize, PhysStream>,
) -> PolarsResult<PhysStream>
    requires valid { IsValidWith (F.told functions.now) valid.now expr_arena.old.items }
    requires reached { Reached (plan_with valid.now expr_arena.old.items) node.0 }
    requires cache { Remembers expr_arena.old.items low.old.cache }
    ensures keeps { IfOk result (λ s. Later expr_arena.new.items (λ f. AreLeftByCalls (F.told functions.now) (plan_with valid.now expr_arena.old.items) f low.old cache_nodes.old → KeepsNode (F.told functions.now) (plan_with valid.now expr_arena.old.items) node.0 (nodes_of f low.old.phys_sm.slots) (nodes_of f low.new.phys_sm.slots) (stream_of s))) }
    ensures left { OnOk result (Later expr_arena.new.items (λ f. AreLeftByCalls (F.told functions.now) (plan_with valid.now expr_arena.old.items) f low.old cache_nodes.old → AreLeftByCalls (F.told functions.now) (plan_with valid.now expr_arena.new.items) f low.new cache_nodes.new)) }
    ensures inserts { OnOk result (AreLeftByCalls (F.told functions.now) (plan_with valid.now expr_arena.old.items) (tree_at expr_arena.new.items) low.old cache_nodes.old → length low.new.phys_sm.slots ≤ length low.old.phys_sm.slots + inserts_for_plan (tree_of (plan_with valid.now expr_arena.old.items) node.0)) }
    ensures lowers { IfOk result (LowersAs (lower_plan (F.told functions.now) (tree_of (plan_with valid.now expr_arena.old.items) node.0)) expr_arena.old.items expr_arena.new.items low.old low.new cache_nodes.old cache_nodes.new) }
    ensures goes_on { GoesOn expr_arena.old.items expr_arena.new.items low.old low.new }
    ensures memory { OnErr result (result ≡ Err PolarsError.OutOfMemory) }
{
    // Laws, from which the promise comes.
    tables_fit(valid.ir());
    calls_keep_nodes();
    let stream = lower_by_rule(alloc, node, valid, expr_arena, functions, low, cache_nodes)?;
    // That the counter has 64 bits is why fresh names differ.
    let _counter = low.names.counter();
    Ok(stream)
}

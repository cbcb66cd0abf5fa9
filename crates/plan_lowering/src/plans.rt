//! Plans, node by node.
ghost use Rattle.std.specs.Prelude.{◌≡◌, ◌≢◌, ℕ, Some, Err, IfOk, OnErr, OnOk, slice_get};
ghost use Rattle.std.specs.BTreeMap.{get};
ghost use Rattle.std.specs.List.{AllByRecursion};
ghost use Rattle.std.specs.Ordering.{nat_cmp};
ghost use Rattle.ps_frame.specs.Trees.{IsComplete, tree_at};
ghost use Rattle.ps_frame.specs.declared.refusal.PolarsError.{PolarsError};
ghost use Rattle.ps_fresh.specs.Known.{Remembers};
ghost use Rattle.ps_meaning.specs.Laws.{IsBuilt};
ghost use Rattle.ps_meaning.specs.StepRefusals.{NamesMissingFunction};
ghost use Rattle.ps_meaning.specs.Steps.{step_exprs};
ghost use Rattle.ps_phys.specs.Shown.{streams_of};
ghost use Rattle.ps_plan.specs.Entries.{entry_step};
ghost use Rattle.ps_plan.specs.Graph.{Reached};
ghost use Rattle.ps_plan.specs.Plans.{plan_at, plan_trees_of, tree_of};
ghost use Rattle.valid_plans.specs.Valid.{IsValidWith, plan_with};
ghost use Rattle.plan_rules.specs.Nodes.{step_stream as stream_by_rule};
ghost use Rattle.plan_rules.specs.Plans.{lower_plan, lower_plans};
ghost use Rattle.lowering_parts.specs.Gathered.{GoesOn, Makes};
ghost use Rattle.plan_lowering.specs.Lowered.{LowerAs, LowersAs, cache_in, cache_over};
ghost use Rattle.pu_base.specs.declared.arena.Node.{Node as ANode};

use crate::steps::step_stream;
use ps_frame::expr::AExpr;
use ps_frame::functions::Functions;
use ps_frame::refusal::PolarsResult;
use ps_frame::schema::Schema;
use ps_fresh::lowering::Lowering;
use ps_phys::phys::PhysStream;
use ps_plan::ir::IR;
use ps_plan::walk::entry;
use pu_base::{Arena, Node};
use std::alloc::Global;
use std::collections::BTreeMap;
use valid_plans::valid::Valid;

/// The stream of a node that the root of a valid plan leads to: what is below it is lowered first. A cache id that has a
/// stream already keeps it, and one that has none gets that of its input. Of the functions it asks whether one streams,
/// and calls none.
///
/// What stood in the arena and in the lowering stands after every answer. Fails only for want of memory; nodes, names,
/// expressions and streams of cache ids may then have been added.
#[cycle(lowering)]
pub fn lower_ir<F: Functions>(
    alloc: Global,
    node: Node,
    valid: &Valid,
    expr_arena: &mut Arena<AExpr>,
    functions: &F,
    low: &mut Lowering,
    // In order, since a map by hashes would be slow at ids that were chosen for it.
    cache_nodes: &mut BTreeMap<usize, PhysStream>,
) -> PolarsResult<PhysStream>
    requires valid { IsValidWith (F.told functions.now) valid.now expr_arena.old.items }
    requires reached { Reached (plan_with valid.now expr_arena.old.items) node.0 }
    requires cache { Remembers expr_arena.old.items low.old.cache }
    ensures lowers { IfOk result (LowersAs (lower_plan (F.told functions.now) (tree_of (plan_with valid.now expr_arena.old.items) node.0)) expr_arena.old.items expr_arena.new.items low.old low.new cache_nodes.old cache_nodes.new) }
    ensures goes_on { GoesOn expr_arena.old.items expr_arena.new.items low.old low.new }
    ensures memory { OnErr result (result ≡ Err PolarsError.OutOfMemory) }
{
    let ir = entry(node, valid.ir(), expr_arena);
    if let Some((input, id)) = cache_of(ir) {
        return lower_cache(
            alloc,
            id,
            input,
            valid,
            expr_arena,
            functions,
            low,
            cache_nodes,
        );
    }
    let nodes = ir.inputs().to_vec(alloc)?;
    let inputs = lower_all(
        alloc,
        nodes.as_slice(),
        valid,
        expr_arena,
        functions,
        low,
        cache_nodes,
    )?;
    let schema = valid.schema(node);
    let stream = step_at(alloc, node, expr_arena, low, functions, ir, schema, inputs)?;
    Ok(stream)
}

// The streams of some nodes, in order.
#[cycle(lowering)]
fn lower_all<F: Functions>(
    alloc: Global,
    nodes: &[Node],
    valid: &Valid,
    expr_arena: &mut Arena<AExpr>,
    functions: &F,
    low: &mut Lowering,
    cache_nodes: &mut BTreeMap<usize, PhysStream>,
) -> PolarsResult<Vec<PhysStream>>
    requires valid { IsValidWith (F.told functions.now) valid.now expr_arena.old.items }
    requires reached { AllByRecursion (λ (n : ANode). Reached (plan_with valid.now expr_arena.old.items) n.0) nodes.now }
    requires cache { Remembers expr_arena.old.items low.old.cache }
    ensures lower { IfOk result (λ streams. LowerAs (lower_plans (F.told functions.now) (plan_trees_of (plan_at valid.now.nodes expr_arena.old.items) nodes.now)) expr_arena.old.items expr_arena.new.items low.old low.new cache_nodes.old cache_nodes.new streams.items) }
    ensures goes_on { GoesOn expr_arena.old.items expr_arena.new.items low.old low.new }
    ensures memory { OnErr result (result ≡ Err PolarsError.OutOfMemory) }
{
    let mut streams = Vec::with_capacity(alloc, nodes.len())?;
    for node in nodes {
        let stream = lower_ir(alloc, *node, valid, expr_arena, functions, low, cache_nodes)?;
        streams.push(stream)?;
    }
    Ok(streams)
}

// The stream that a cache id has, or that of its input, which the id has from then on.
#[cycle(lowering)]
fn lower_cache<F: Functions>(
    alloc: Global,
    id: usize,
    input: Node,
    valid: &Valid,
    expr_arena: &mut Arena<AExpr>,
    functions: &F,
    low: &mut Lowering,
    cache_nodes: &mut BTreeMap<usize, PhysStream>,
) -> PolarsResult<PhysStream>
    requires valid { IsValidWith (F.told functions.now) valid.now expr_arena.old.items }
    requires reached { Reached (plan_with valid.now expr_arena.old.items) input.0 }
    requires cache { Remembers expr_arena.old.items low.old.cache }
    ensures lowers { IfOk result (LowersAs (cache_over (F.told functions.now) id (tree_of (plan_with valid.now expr_arena.old.items) input.0)) expr_arena.old.items expr_arena.new.items low.old low.new cache_nodes.old cache_nodes.new) }
    ensures goes_on { GoesOn expr_arena.old.items expr_arena.new.items low.old low.new }
    ensures memory { OnErr result (result ≡ Err PolarsError.OutOfMemory) }
{
    if let Some(stream) = noted(cache_nodes, id) {
        return Ok(stream);
    }
    let stream = lower_ir(alloc, input, valid, expr_arena, functions, low, cache_nodes)?;
    note(cache_nodes, id, PhysStream::first(stream.node))?;
    Ok(stream)
}

// The input and the id of a cache.
fn cache_of(ir: &IR) -> Option<(Node, usize)>
    ensures { result ≡ cache_in ir.now }
{
    match ir {
        IR::Cache { input, id, .. } => Some((*input, *id)),
        _ => None,
    }
}

fn noted(cache_nodes: &BTreeMap<usize, PhysStream>, id: usize) -> Option<PhysStream>
    ensures { result ≡ get nat_cmp cache_nodes.now id }
{
    cache_nodes.get(&id).copied()
}

fn note(
    cache_nodes: &mut BTreeMap<usize, PhysStream>,
    id: usize,
    stream: PhysStream,
) -> PolarsResult<()>
    ensures noted { OnOk result (get nat_cmp cache_nodes.new id ≡ Some stream) }
    ensures others { OnOk result ((other : ℕ) → other ≢ id → get nat_cmp cache_nodes.new other ≡ get nat_cmp cache_nodes.old other) }
    ensures memory { OnErr result (result ≡ Err PolarsError.OutOfMemory) }
{
    cache_nodes.insert(id, stream)?;
    Ok(())
}

// The stream of the step of a node, of which the new nodes come.
fn step_at<F: Functions>(
    alloc: Global,
    node: Node,
    arena: &mut Arena<AExpr>,
    low: &mut Lowering,
    functions: &F,
    ir: &IR,
    schema: &Schema,
    inputs: Vec<PhysStream>,
) -> PolarsResult<PhysStream>
    requires whole { AllByRecursion IsComplete (step_exprs (entry_step (tree_at arena.old.items) ir.now)) }
    requires function { ¬ NamesMissingFunction (F.told functions.now).count (entry_step (tree_at arena.old.items) ir.now) }
    requires built { IsBuilt (entry_step (tree_at arena.old.items) ir.now) }
    requires cache { Remembers arena.old.items low.old.cache }
    ensures makes { IfOk result (Makes (stream_by_rule node.0 (F.told functions.now) (entry_step (tree_at arena.old.items) ir.now) schema.now (streams_of inputs.items)) arena.old.items arena.new.items low.old low.new) }
    ensures goes_on { GoesOn arena.old.items arena.new.items low.old low.new }
    ensures memory { OnErr result (result ≡ Err PolarsError.OutOfMemory) }
{
    let above = low.origin;
    low.origin = node;
    let stream = step_stream(alloc, arena, low, functions, ir, schema, inputs);
    low.origin = above;
    stream
}

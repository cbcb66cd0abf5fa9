//! Group-bys over a stream.
ghost use Rattle.std.specs.Prelude.{◌≡◌, ◌++◌, ◌∷◌, [], Err, IfOk, OnErr, false, take};
ghost use Rattle.std.specs.List.{AllByRecursion};
ghost use Rattle.ps_copies.specs.Copies.{KeepsTrees};
ghost use Rattle.ps_frame.specs.Trees.{IsComplete, Tree, tree_at};
ghost use Rattle.ps_frame.specs.declared.refusal.PolarsError.{PolarsError};
ghost use Rattle.ps_fresh.specs.Known.{Remembers};
ghost use Rattle.ps_meaning.specs.Schemas.{names_of};
ghost use Rattle.ps_meaning.specs.Steps.{key_trees, named_trees};
ghost use Rattle.ps_phys.specs.Shown.{inputs_of, kind_of, stream_of};
ghost use Rattle.ps_rules.specs.Slots.{over_selected, schema_at};
ghost use Rattle.plan_rules.specs.Groups.{group_stream, mapped_groups, own_columns as own_columns_of, streamed_groups};
ghost use Rattle.lowering_parts.specs.Gathered.{Begins, GoesOn, Later, Makes, made_of, names_asked, state_of};
ghost use Rattle.group_lowering.specs.Groups.{MakesOver, group_of, grouping_kind, groups_below, keys_below};
ghost use Rattle.pu_base.specs.declared.arena.Node.{Node as ANode};

use crate::apart::{Split, split_all};
use crate::conditions::can_stream;
use crate::named::{copied_exprs, joined, names_of_exprs, names_of_stream, own_columns};
use expr_lowering::exprs::{build_select_stream, lower_exprs};
use lowering_parts::nodes::{insert, schema_of};
use lowering_parts::schemas::selected_schema;
use ps_frame::expr::AExpr;
use ps_frame::items::Items;
use ps_frame::refusal::PolarsResult;
use ps_fresh::lowering::Lowering;
use ps_meaning::map::MapKind;
use ps_meaning::options::{ExprIR, GroupbyOptions};
use ps_phys::phys::{PhysNodeKind, PhysStream};
use pu_base::Arena;
use slice_lowering::slices::cut;
use std::alloc::Global;

/// The stream of a group-by: by a streaming node with a select and the slice above it, where the order of its groups is
/// free, some key or aggregate reads the input, and each aggregate is made of reductions; else by a map over the whole
/// input, which applies the slice itself.
///
/// What stood in the arena and in the lowering stands after every answer. Fails only for want of memory; nodes, names and
/// expressions may then have been added.
pub fn build_group_by_stream(
    alloc: Global,
    expr_arena: &mut Arena<AExpr>,
    low: &mut Lowering,
    input: PhysStream,
    keys: &[ExprIR],
    aggs: &[ExprIR],
    maintain_order: bool,
    options: GroupbyOptions,
) -> PolarsResult<PhysStream>
    requires keys { AllByRecursion IsComplete (key_trees (tree_at expr_arena.old.items) keys.now) }
    requires aggs { AllByRecursion IsComplete (key_trees (tree_at expr_arena.old.items) aggs.now) }
    requires cache { Remembers expr_arena.old.items low.old.cache }
    ensures makes { IfOk result (Makes (group_stream low.old.origin.0 (group_of (tree_at expr_arena.old.items) keys.now aggs.now maintain_order options.slice) (stream_of input)) expr_arena.old.items expr_arena.new.items low.old low.new) }
    ensures grows { GoesOn expr_arena.old.items expr_arena.new.items low.old low.new }
    ensures memory { OnErr result (result ≡ Err PolarsError.OutOfMemory) }
{
    let streams = can_stream(alloc, expr_arena, low, keys, aggs, maintain_order)?;
    if streams {
        return streamed(alloc, expr_arena, low, input, keys, aggs, options.slice);
    }
    mapped(
        alloc,
        expr_arena,
        low,
        input,
        keys,
        aggs,
        maintain_order,
        options.slice,
    )
}

// A map over the whole input, which applies the slice itself.
fn mapped(
    alloc: Global,
    arena: &Arena<AExpr>,
    low: &mut Lowering,
    input: PhysStream,
    keys: &[ExprIR],
    aggs: &[ExprIR],
    maintain_order: bool,
    slice: Option<(i64, usize)>,
) -> PolarsResult<PhysStream>
    requires keys { AllByRecursion IsComplete (key_trees (tree_at arena.now.items) keys.now) }
    requires aggs { AllByRecursion IsComplete (key_trees (tree_at arena.now.items) aggs.now) }
    ensures made { Later arena.now.items (λ f. IfOk result (λ s. made_of f low.new s ≡ mapped_groups low.old.origin.0 (group_of f keys.now aggs.now maintain_order slice) (stream_of input) (state_of f low.old))) }
    ensures nodes { Begins low.old.phys_sm.slots low.new.phys_sm.slots }
    ensures others { low.new ≡ record low.old { phys_sm = low.new.phys_sm } }
    ensures memory { OnErr result (result ≡ Err PolarsError.OutOfMemory) }
{
    let keys = copied_exprs(alloc, keys)?;
    let aggs = copied_exprs(alloc, aggs)?;
    let grouping = Grouping::Whole(maintain_order, slice);
    over_groups(alloc, arena, low, input, grouping, keys, aggs)
}

/// How groups are computed: part by part, or over the whole input, with the order kept or not and a slice.
#[derive(Clone, Copy, Debug)]
pub(crate) enum Grouping {
    Streamed,
    Whole(bool, Option<(i64, usize)>),
}

impl Grouping {
    fn of(self, input: PhysStream, keys: Vec<ExprIR>, aggs: Vec<ExprIR>) -> PhysNodeKind
        ensures kind { (f : ANode → Tree) → kind_of f result ≡ grouping_kind self (named_trees f keys.items) (named_trees f aggs.items) }
        ensures inputs { inputs_of result ≡ stream_of input ∷ [] }
    {
        let (keys, aggs) = (Items::new(keys), Items::new(aggs));
        match self {
            Grouping::Streamed => PhysNodeKind::GroupBy {
                input,
                key: keys,
                aggs,
            },
            Grouping::Whole(maintain_order, slice) => PhysNodeKind::InMemoryMap {
                input,
                map: MapKind::GroupBy {
                    keys,
                    aggs,
                    maintain_order,
                    slice,
                },
            },
        }
    }
}

// A node of groups over a stream; it gives keys and then aggregates.
fn over_groups(
    alloc: Global,
    arena: &Arena<AExpr>,
    low: &mut Lowering,
    input: PhysStream,
    grouping: Grouping,
    keys: Vec<ExprIR>,
    aggs: Vec<ExprIR>,
) -> PolarsResult<PhysStream>
    requires keys { AllByRecursion IsComplete (key_trees (tree_at arena.now.items) keys.items) }
    requires aggs { AllByRecursion IsComplete (key_trees (tree_at arena.now.items) aggs.items) }
    ensures made { Later arena.now.items (λ f. IfOk result (λ s. made_of f low.new s ≡ over_selected low.old.origin.0 (grouping_kind grouping (named_trees f keys.items) (named_trees f aggs.items)) (named_trees f keys.items ++ named_trees f aggs.items) (stream_of input) (state_of f low.old))) }
    ensures nodes { Begins low.old.phys_sm.slots low.new.phys_sm.slots }
    ensures same { OnErr result (low.new ≡ low.old) }
    ensures others { low.new ≡ record low.old { phys_sm = low.new.phys_sm } }
    ensures memory { OnErr result (result ≡ Err PolarsError.OutOfMemory) }
{
    let below = schema_of(alloc, low, input)?;
    let all = both_copied(alloc, keys.as_slice(), aggs.as_slice())?;
    let schema = selected_schema(alloc, &below, all.as_slice(), arena)?;
    let kind = grouping.of(input, keys, aggs);
    let stream = insert(alloc, low, schema, kind)?;
    Ok(stream)
}

fn both_copied(alloc: Global, first: &[ExprIR], second: &[ExprIR]) -> PolarsResult<Vec<ExprIR>>
    ensures all { IfOk result (λ all. all.items ≡ first.now ++ second.now) }
    ensures memory { OnErr result (result ≡ Err PolarsError.OutOfMemory) }
{
    let first = copied_exprs(alloc, first)?;
    let second = copied_exprs(alloc, second)?;
    let all = joined(first, second)?;
    Ok(all)
}

// A streaming node, with a select of keys and aggregates and the slice above it.
fn streamed(
    alloc: Global,
    arena: &mut Arena<AExpr>,
    low: &mut Lowering,
    input: PhysStream,
    keys: &[ExprIR],
    aggs: &[ExprIR],
    slice: Option<(i64, usize)>,
) -> PolarsResult<PhysStream>
    requires keys { AllByRecursion IsComplete (key_trees (tree_at arena.old.items) keys.now) }
    requires aggs { AllByRecursion IsComplete (key_trees (tree_at arena.old.items) aggs.now) }
    requires cache { Remembers arena.old.items low.old.cache }
    ensures makes { IfOk result (Makes (streamed_groups low.old.origin.0 (group_of (tree_at arena.old.items) keys.now aggs.now false slice) (stream_of input)) arena.old.items arena.new.items low.old low.new) }
    ensures goes_on { GoesOn arena.old.items arena.new.items low.old low.new }
    ensures memory { OnErr result (result ≡ Err PolarsError.OutOfMemory) }
{
    let (groups, above) = grouped(alloc, arena, low, input, keys, aggs)?;
    let asked = keys_and_others(alloc, arena, keys, above)?;
    let selected = build_select_stream(alloc, arena, low, groups, asked.as_slice())?;
    let stream = cut(alloc, low, selected, slice)?;
    Ok(stream)
}

// The columns of the keys, and other expressions behind them.
fn keys_and_others(
    alloc: Global,
    arena: &mut Arena<AExpr>,
    keys: &[ExprIR],
    others: Vec<ExprIR>,
) -> PolarsResult<Vec<ExprIR>>
    requires others { AllByRecursion IsComplete (key_trees (tree_at arena.old.items) others.items) }
    ensures named { IfOk result (λ es. named_trees (tree_at arena.new.items) es.items ≡ own_columns_of (names_asked keys.now) ++ named_trees (tree_at arena.old.items) others.items) }
    ensures whole { IfOk result (λ es. AllByRecursion IsComplete (key_trees (tree_at arena.new.items) es.items)) }
    ensures entries { Begins arena.old.items arena.new.items }
    ensures kept { KeepsTrees arena.old.items arena.new.items }
    ensures memory { OnErr result (result ≡ Err PolarsError.OutOfMemory) }
{
    let names = names_of_exprs(alloc, keys)?;
    let columns = own_columns(alloc, arena, names.as_slice())?;
    let all = joined(columns, others)?;
    Ok(all)
}

// The groups, and the aggregates over their columns.
fn grouped(
    alloc: Global,
    arena: &mut Arena<AExpr>,
    low: &mut Lowering,
    input: PhysStream,
    keys: &[ExprIR],
    aggs: &[ExprIR],
) -> PolarsResult<(PhysStream, Vec<ExprIR>)>
    requires keys { AllByRecursion IsComplete (key_trees (tree_at arena.old.items) keys.now) }
    requires aggs { AllByRecursion IsComplete (key_trees (tree_at arena.old.items) aggs.now) }
    requires cache { Remembers arena.old.items low.old.cache }
    ensures groups { IfOk result (λ r. MakesOver (groups_below low.old.origin.0 (named_trees (tree_at arena.old.items) keys.now) (named_trees (tree_at arena.old.items) aggs.now) (stream_of input)) arena.old.items arena.new.items low.old low.new r.0 r.1.items) }
    ensures goes_on { GoesOn arena.old.items arena.new.items low.old low.new }
    ensures memory { OnErr result (result ≡ Err PolarsError.OutOfMemory) }
{
    let (stream, lowered) = lowered_keys(alloc, arena, low, input, keys)?;
    let parts = split_all(alloc, arena, low, aggs)?;
    let Split { reductions, above } = parts;
    let groups = over_groups(
        alloc,
        arena,
        low,
        stream,
        Grouping::Streamed,
        lowered,
        reductions,
    )?;
    Ok((groups, above))
}

// Keys and all columns, lowered together: the stream, and the keys over it.
fn lowered_keys(
    alloc: Global,
    arena: &mut Arena<AExpr>,
    low: &mut Lowering,
    input: PhysStream,
    keys: &[ExprIR],
) -> PolarsResult<(PhysStream, Vec<ExprIR>)>
    requires keys { AllByRecursion IsComplete (key_trees (tree_at arena.old.items) keys.now) }
    requires cache { Remembers arena.old.items low.old.cache }
    ensures keys { IfOk result (λ r. MakesOver (keys_below low.old.origin.0 (named_trees (tree_at arena.old.items) keys.now) (stream_of input)) arena.old.items arena.new.items low.old low.new r.0 r.1.items) }
    ensures goes_on { GoesOn arena.old.items arena.new.items low.old low.new }
    ensures memory { OnErr result (result ≡ Err PolarsError.OutOfMemory) }
{
    let asked = keys_and_columns(alloc, arena, low, input, keys)?;
    let (stream, answered) = lower_exprs(alloc, arena, low, input, asked.as_slice())?;
    let lowered = first_of(answered, keys.len());
    Ok((stream, lowered))
}

// The first items of a list.
fn first_of(mut items: Vec<ExprIR>, count: usize) -> Vec<ExprIR>
    ensures { result.items ≡ take count items.items }
{
    items.truncate(count);
    items
}

// Keys, and all columns of a stream behind them.
fn keys_and_columns(
    alloc: Global,
    arena: &mut Arena<AExpr>,
    low: &Lowering,
    input: PhysStream,
    keys: &[ExprIR],
) -> PolarsResult<Vec<ExprIR>>
    requires { AllByRecursion IsComplete (key_trees (tree_at arena.old.items) keys.now) }
    ensures named { (f : ANode → Tree) → IfOk result (λ es. named_trees (tree_at arena.new.items) es.items ≡ named_trees (tree_at arena.old.items) keys.now ++ own_columns_of (names_of (schema_at (state_of f low.now).nodes (stream_of input)))) }
    ensures whole { IfOk result (λ es. AllByRecursion IsComplete (key_trees (tree_at arena.new.items) es.items)) }
    ensures entries { Begins arena.old.items arena.new.items }
    ensures kept { KeepsTrees arena.old.items arena.new.items }
    ensures memory { OnErr result (result ≡ Err PolarsError.OutOfMemory) }
{
    let names = names_of_stream(alloc, low, input)?;
    let columns = own_columns(alloc, arena, names.as_slice())?;
    let keys = copied_exprs(alloc, keys)?;
    let all = joined(keys, columns)?;
    Ok(all)
}

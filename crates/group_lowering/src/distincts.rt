//! Distincts over a stream.
ghost use Rattle.std.specs.Prelude.{◌≡◌, ◌&&◌, ◌∷◌, [], Err, IfOk, OnErr, unwrap_or};
ghost use Rattle.std.specs.List.{AllByRecursion};
ghost use Rattle.ps_copies.specs.Copies.{KeepsTrees};
ghost use Rattle.ps_frame.specs.Trees.{IsComplete, Tree, tree_at};
ghost use Rattle.ps_frame.specs.declared.refusal.PolarsError.{PolarsError};
ghost use Rattle.ps_fresh.specs.Known.{Remembers};
ghost use Rattle.ps_meaning.specs.Schemas.{names_of};
ghost use Rattle.ps_meaning.specs.Steps.{key_trees, named_trees};
ghost use Rattle.ps_phys.specs.Shown.{stream_of};
ghost use Rattle.ps_rules.specs.Slots.{schema_at};
ghost use Rattle.plan_rules.specs.Distinct.{distinct_stream, grouped_distinct, groups_with as groups_with_by, is_one as is_one_of, keeps_last as keeps_last_one, keeps_none as keeps_none_of, kept_groups as kept_groups_by, mapped_distinct, single_rows as single_rows_by};
ghost use Rattle.lowering_parts.specs.Gathered.{Begins, GoesOn, Makes, made_of, state_of};
ghost use Rattle.group_lowering.specs.Distincts.{distinct_of};
ghost use Rattle.pu_base.specs.declared.arena.Node.{Node as ANode};

use crate::groups::build_group_by_stream;
use crate::kept::{kept_values, other_names};
use crate::named::{joined, names_of_stream, own_columns};
use lowering_parts::names::{add_column, add_expr, copied, fresh, under_name};
use lowering_parts::nodes::{columns_of, over_same_columns};
use ps_frame::expr::{AExpr, LiteralValue, Operator};
use ps_frame::refusal::PolarsResult;
use ps_fresh::lowering::Lowering;
use ps_meaning::map::MapKind;
use ps_meaning::options::{DistinctOptions, ExprIR, GroupbyOptions, UniqueKeepStrategy};
use ps_phys::phys::{PhysNodeKind, PhysStream};
use pu_base::{Arena, Node, PlSmallStr};
use slice_lowering::slices::cut;
use std::alloc::Global;

/// The stream of a distinct: a map over the whole input, which applies the slice itself, where the last rows are kept in
/// their order; else a group-by of the key columns, the columns in the input's order, and the slice.
///
/// What stood in the arena and in the lowering stands after every answer. Fails only for want of memory; nodes, names and
/// expressions may then have been added.
pub fn build_distinct_stream(
    alloc: Global,
    expr_arena: &mut Arena<AExpr>,
    low: &mut Lowering,
    input: PhysStream,
    options: DistinctOptions,
) -> PolarsResult<PhysStream>
    requires { Remembers expr_arena.old.items low.old.cache }
    ensures makes { IfOk result (Makes (distinct_stream low.old.origin.0 (distinct_of options) (stream_of input)) expr_arena.old.items expr_arena.new.items low.old low.new) }
    ensures grows { GoesOn expr_arena.old.items expr_arena.new.items low.old low.new }
    ensures memory { OnErr result (result ≡ Err PolarsError.OutOfMemory) }
{
    let whole = takes_whole_input(&options);
    if whole {
        return mapped(alloc, low, input, options);
    }
    by_groups(alloc, expr_arena, low, input, &options)
}

// Whether the last rows are kept in their order: no group-by tells where the last row of a group stood.
fn takes_whole_input(options: &DistinctOptions) -> bool
    ensures { result ≡ (options.now.maintain_order && keeps_last_one options.now.keep_strategy) }
{
    options.maintain_order && keeps_last(options.keep_strategy)
}

pub(crate) fn keeps_last(keep: UniqueKeepStrategy) -> bool
    ensures { result ≡ keeps_last_one keep }
{
    match keep {
        UniqueKeepStrategy::Last => true,
        UniqueKeepStrategy::First | UniqueKeepStrategy::Any | UniqueKeepStrategy::None => false,
    }
}

fn keeps_none(keep: UniqueKeepStrategy) -> bool
    ensures { result ≡ keeps_none_of keep }
{
    match keep {
        UniqueKeepStrategy::None => true,
        UniqueKeepStrategy::First | UniqueKeepStrategy::Last | UniqueKeepStrategy::Any => false,
    }
}

// A map over the whole input, which applies the slice itself.
fn mapped(
    alloc: Global,
    low: &mut Lowering,
    input: PhysStream,
    options: DistinctOptions,
) -> PolarsResult<PhysStream>
    ensures made { (f : ANode → Tree) → IfOk result (λ s. made_of f low.new s ≡ mapped_distinct low.old.origin.0 (distinct_of options) (stream_of input) (state_of f low.old)) }
    ensures nodes { Begins low.old.phys_sm.slots low.new.phys_sm.slots }
    ensures others { low.new ≡ record low.old { phys_sm = low.new.phys_sm } }
    ensures memory { OnErr result (result ≡ Err PolarsError.OutOfMemory) }
{
    let map = MapKind::Distinct(options);
    let stream = over_same_columns(alloc, low, input, PhysNodeKind::InMemoryMap { input, map })?;
    Ok(stream)
}

// Groups, then the columns in the input's order, then the slice.
fn by_groups(
    alloc: Global,
    arena: &mut Arena<AExpr>,
    low: &mut Lowering,
    input: PhysStream,
    options: &DistinctOptions,
) -> PolarsResult<PhysStream>
    requires { Remembers arena.old.items low.old.cache }
    ensures makes { IfOk result (Makes (grouped_distinct low.old.origin.0 (distinct_of options.now) (stream_of input)) arena.old.items arena.new.items low.old low.new) }
    ensures goes_on { GoesOn arena.old.items arena.new.items low.old low.new }
    ensures memory { OnErr result (result ≡ Err PolarsError.OutOfMemory) }
{
    let names = names_of_stream(alloc, low, input)?;
    let groups = kept_groups(alloc, arena, low, input, options, names.as_slice())?;
    let ordered = columns_of(alloc, low, groups, names)?;
    let stream = cut(alloc, low, ordered, options.slice)?;
    Ok(stream)
}

// The groups of which a row each is kept.
fn kept_groups(
    alloc: Global,
    arena: &mut Arena<AExpr>,
    low: &mut Lowering,
    input: PhysStream,
    options: &DistinctOptions,
    names: &[PlSmallStr],
) -> PolarsResult<PhysStream>
    requires cache { Remembers arena.old.items low.old.cache }
    requires names { (f : ANode → Tree) → names.now ≡ names_of (schema_at (state_of f low.old).nodes (stream_of input)) }
    ensures makes { IfOk result (Makes (kept_groups_by low.old.origin.0 (distinct_of options.now) (stream_of input)) arena.old.items arena.new.items low.old low.new) }
    ensures goes_on { GoesOn arena.old.items arena.new.items low.old low.new }
    ensures memory { OnErr result (result ≡ Err PolarsError.OutOfMemory) }
{
    let single = keeps_none(options.keep_strategy);
    if single {
        return single_rows(alloc, arena, low, input, options, names);
    }
    let more = Vec::new(alloc);
    groups_with(alloc, arena, low, input, options, names, more)
}

// Groups with their heights under a fresh name, of which those of one row are kept.
fn single_rows(
    alloc: Global,
    arena: &mut Arena<AExpr>,
    low: &mut Lowering,
    input: PhysStream,
    options: &DistinctOptions,
    names: &[PlSmallStr],
) -> PolarsResult<PhysStream>
    requires cache { Remembers arena.old.items low.old.cache }
    requires names { (f : ANode → Tree) → names.now ≡ names_of (schema_at (state_of f low.old).nodes (stream_of input)) }
    ensures makes { IfOk result (Makes (single_rows_by low.old.origin.0 (distinct_of options.now) (stream_of input)) arena.old.items arena.new.items low.old low.new) }
    ensures goes_on { GoesOn arena.old.items arena.new.items low.old low.new }
    ensures memory { OnErr result (result ≡ Err PolarsError.OutOfMemory) }
{
    let name = fresh(alloc, low)?;
    let height = height_under(alloc, arena, &name)?;
    let groups = groups_with(alloc, arena, low, input, options, names, height)?;
    let predicate = is_one(alloc, arena, &name)?;
    let kind = PhysNodeKind::Filter {
        input: groups,
        predicate: under_name(name, predicate),
    };
    let stream = over_same_columns(alloc, low, groups, kind)?;
    Ok(stream)
}

// The height under a name, alone.
fn height_under(
    alloc: Global,
    arena: &mut Arena<AExpr>,
    name: &PlSmallStr,
) -> PolarsResult<Vec<ExprIR>>
    ensures named { IfOk result (λ es. named_trees (tree_at arena.new.items) es.items ≡ (name.now, Tree.len) ∷ []) }
    ensures entries { Begins arena.old.items arena.new.items }
    ensures kept { KeepsTrees arena.old.items arena.new.items }
    ensures memory { OnErr result (result ≡ Err PolarsError.OutOfMemory) }
{
    let height = add_expr(arena, AExpr::Len)?;
    let name = copied(alloc, name)?;
    let named = under_name(name, height);
    let alone = alone(alloc, named)?;
    Ok(alone)
}

// A list of one.
fn alone(alloc: Global, expr: ExprIR) -> PolarsResult<Vec<ExprIR>>
    ensures one { IfOk result (λ es. es.items ≡ expr ∷ []) }
    ensures memory { OnErr result (result ≡ Err PolarsError.OutOfMemory) }
{
    let mut one = Vec::with_capacity(alloc, 1)?;
    one.push(expr)?;
    Ok(one)
}

// Whether the count of a name is 1.
fn is_one(alloc: Global, arena: &mut Arena<AExpr>, name: &PlSmallStr) -> PolarsResult<Node>
    ensures tree { IfOk result (λ n. tree_at arena.new.items n ≡ is_one_of name.now) }
    ensures entries { Begins arena.old.items arena.new.items }
    ensures kept { KeepsTrees arena.old.items arena.new.items }
    ensures memory { OnErr result (result ≡ Err PolarsError.OutOfMemory) }
{
    let left = add_column(alloc, name, arena)?;
    let right = add_expr(arena, AExpr::Literal(LiteralValue::IdxSize(1)))?;
    let equal = AExpr::BinaryExpr {
        left,
        op: Operator::Eq,
        right,
    };
    let one = add_expr(arena, equal)?;
    Ok(one)
}

// Groups by the key columns, with the kept value of each other column, and more beside these.
fn groups_with(
    alloc: Global,
    arena: &mut Arena<AExpr>,
    low: &mut Lowering,
    input: PhysStream,
    options: &DistinctOptions,
    names: &[PlSmallStr],
    more: Vec<ExprIR>,
) -> PolarsResult<PhysStream>
    requires cache { Remembers arena.old.items low.old.cache }
    requires names { (f : ANode → Tree) → names.now ≡ names_of (schema_at (state_of f low.old).nodes (stream_of input)) }
    requires more { AllByRecursion IsComplete (key_trees (tree_at arena.old.items) more.items) }
    ensures makes { IfOk result (Makes (groups_with_by low.old.origin.0 (named_trees (tree_at arena.old.items) more.items) (distinct_of options.now) (stream_of input)) arena.old.items arena.new.items low.old low.new) }
    ensures goes_on { GoesOn arena.old.items arena.new.items low.old low.new }
    ensures memory { OnErr result (result ≡ Err PolarsError.OutOfMemory) }
{
    let by = key_names(options, names);
    let keys = own_columns(alloc, arena, by)?;
    let others = other_names(alloc, by, names)?;
    let values = kept_values(alloc, arena, options.keep_strategy, others.as_slice())?;
    let aggs = joined(values, more)?;
    let stream = build_group_by_stream(
        alloc,
        arena,
        low,
        input,
        keys.as_slice(),
        aggs.as_slice(),
        options.maintain_order,
        GroupbyOptions { slice: None },
    )?;
    Ok(stream)
}

// The columns that are compared, in the order of the subset; all where there is none.
fn key_names<'a>(options: &'a DistinctOptions, all: &'a [PlSmallStr]) -> &'a [PlSmallStr]
    ensures { result.now ≡ unwrap_or options.now.subset all.now }
{
    match &options.subset {
        Some(subset) => subset.as_slice(),
        None => all,
    }
}

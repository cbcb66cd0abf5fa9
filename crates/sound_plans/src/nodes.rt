//! Whether a physical node is fit.
ghost use Rattle.std.specs.Prelude.{◌≡◌, ◌∷◌, [], Bool, Err, IfOk, IsTrue, OnErr};
ghost use Rattle.std.specs.List.{AllByRecursion};
ghost use Rattle.pu_base.specs.declared.arena.Node.{Node as Number};
ghost use Rattle.ps_frame.specs.Functions.{Functions as AllFunctions};
ghost use Rattle.ps_frame.specs.Trees.{IsComplete, Tree, tree_at};
ghost use Rattle.ps_frame.specs.declared.refusal.PolarsError.{PolarsError};
ghost use Rattle.ps_fresh.specs.Known.{Remembers};
ghost use Rattle.ps_meaning.specs.Maps.{map_step};
ghost use Rattle.ps_meaning.specs.Shape.{in_memory_map, select_node, stream_map as stream_map_kind};
ghost use Rattle.ps_meaning.specs.Sound.{rules_of};
ghost use Rattle.ps_meaning.specs.Steps.{key_trees, named_trees, step_exprs};
ghost use Rattle.ps_phys.specs.Shown.{inputs_of, kind_of};
ghost use Rattle.sound_plans.specs.Fit.{IsFitOver};
ghost use Rattle.sound_plans.specs.Read.{schemas_read};

use crate::kinds;
use crate::many::{schema_of, union, zip};
use keyed_slots::SlotMap;
use ps_frame::expr::AExpr;
use ps_frame::functions::Functions;
use ps_frame::refusal::{PolarsError, PolarsResult};
use ps_frame::schema::Schema;
use ps_fresh::expr_cache::ExprCache;
use ps_meaning::map::MapKind;
use ps_meaning::options::ExprIR;
use ps_phys::phys::{PhysNode, PhysNodeKey, PhysNodeKind};
use pu_base::{Arena, Steps};
use std::alloc::Global;
use std::sync::ledger::Ledger;

// Whether a select is fit, which adds columns to its input's or gives new ones alone.
fn select<L: Ledger>(
    alloc: Global,
    selectors: &[ExprIR],
    extends: bool,
    input: &Schema,
    schema: &Schema,
    arena: &Arena<AExpr>,
    cache: &mut ExprCache,
    steps: &mut Steps<L>,
) -> PolarsResult<bool>
    requires selectors { AllByRecursion IsComplete (key_trees (tree_at arena.now.items) selectors.now) }
    requires cache { Remembers arena.now.items cache.old }
    ensures fit { IfOk result (λ fit. IsTrue fit → (F : AllFunctions) → IsFitOver F (select_node (named_trees (tree_at arena.now.items) selectors.now) extends) schema.now (input.now ∷ [])) }
    ensures cache { Remembers arena.now.items cache.new }
    ensures memory { OnErr result (result ≡ Err PolarsError.OutOfMemory) }
{
    if extends {
        kinds::with_columns(alloc, selectors, input, schema, arena, cache, steps)
    } else {
        kinds::select(alloc, selectors, input, schema, arena, cache, steps)
    }
}

// Whether a map over a whole table is fit.
fn map_fits<F: Functions, L: Ledger>(
    alloc: Global,
    map: &MapKind,
    functions: &F,
    input: &Schema,
    schema: &Schema,
    arena: &Arena<AExpr>,
    cache: &mut ExprCache,
    steps: &mut Steps<L>,
) -> PolarsResult<bool>
    requires complete { AllByRecursion IsComplete (step_exprs (map_step (tree_at arena.now.items) map.now)) }
    requires cache { Remembers arena.now.items cache.old }
    ensures fit { IfOk result (λ fit. IsTrue fit → IsFitOver (F.told functions.now) (in_memory_map (map_step (tree_at arena.now.items) map.now)) schema.now (input.now ∷ [])) }
    ensures cache { Remembers arena.now.items cache.new }
    ensures memory { OnErr result (result ≡ Err PolarsError.OutOfMemory) }
{
    match map {
        MapKind::Function(n) => kinds::function(alloc, *n, functions, input, schema),
        MapKind::Select(selectors) => {
            kinds::select_whole(
                alloc,
                selectors.as_slice(),
                input,
                schema,
                arena,
                cache,
                steps,
            )
        }
        MapKind::Sort {
            by_column,
            slice: _,
            sort_options,
        } => kinds::sort(
            alloc,
            by_column.as_slice(),
            sort_options,
            input,
            schema,
            arena,
            cache,
            steps,
        ),
        MapKind::GroupBy {
            keys,
            aggs,
            maintain_order: _,
            slice: _,
        } => kinds::grouped(
            alloc,
            keys.as_slice(),
            aggs.as_slice(),
            input,
            schema,
            arena,
            cache,
            steps,
        ),
        MapKind::Distinct(options) => kinds::distinct(alloc, options, input, schema),
    }
}

// Whether a map that streams is fit.
fn stream_fits<F: Functions>(
    alloc: Global,
    map: &MapKind,
    functions: &F,
    input: &Schema,
    schema: &Schema,
) -> PolarsResult<bool>
    ensures fit { IfOk result (λ fit. IsTrue fit → (f : Number → Tree) → IsFitOver (F.told functions.now) (stream_map_kind (map_step f map.now)) schema.now (input.now ∷ [])) }
    ensures memory { OnErr result (result ≡ Err PolarsError.OutOfMemory) }
{
    match map {
        MapKind::Function(n) => kinds::stream(alloc, *n, functions, input, schema),
        MapKind::Select(_)
        | MapKind::Sort { .. }
        | MapKind::GroupBy { .. }
        | MapKind::Distinct(_) => Ok(false),
    }
}

// Whether a node that reads nothing is fit.
fn over_none<L: Ledger>(
    alloc: Global,
    kind: &PhysNodeKind,
    schema: &Schema,
    arena: &Arena<AExpr>,
    cache: &mut ExprCache,
    steps: &mut Steps<L>,
) -> PolarsResult<bool>
    requires complete { AllByRecursion IsComplete (step_exprs (rules_of (kind_of (tree_at arena.now.items) kind.now))) }
    requires cache { Remembers arena.now.items cache.old }
    ensures fit { IfOk result (λ fit. IsTrue fit → (F : AllFunctions) → IsFitOver F (kind_of (tree_at arena.now.items) kind.now) schema.now ([])) }
    ensures cache { Remembers arena.now.items cache.new }
    ensures memory { OnErr result (result ≡ Err PolarsError.OutOfMemory) }
{
    match kind {
        PhysNodeKind::InMemorySource { df } => kinds::source(alloc, df, schema),
        PhysNodeKind::InputIndependentSelect { selectors } => {
            kinds::independent(alloc, selectors.as_slice(), schema, arena, cache, steps)
        }
        _ => Ok(false),
    }
}

// Whether a node that reads one stream is fit; a union and a zip are looked at elsewhere.
fn over_one<F: Functions, L: Ledger>(
    alloc: Global,
    kind: &PhysNodeKind,
    functions: &F,
    input: &Schema,
    schema: &Schema,
    arena: &Arena<AExpr>,
    cache: &mut ExprCache,
    steps: &mut Steps<L>,
) -> PolarsResult<bool>
    requires complete { AllByRecursion IsComplete (step_exprs (rules_of (kind_of (tree_at arena.now.items) kind.now))) }
    requires cache { Remembers arena.now.items cache.old }
    ensures fit { IfOk result (λ fit. IsTrue fit → IsFitOver (F.told functions.now) (kind_of (tree_at arena.now.items) kind.now) schema.now (input.now ∷ [])) }
    ensures cache { Remembers arena.now.items cache.new }
    ensures memory { OnErr result (result ≡ Err PolarsError.OutOfMemory) }
{
    match kind {
        PhysNodeKind::Select {
            input: _,
            selectors,
            extend_original,
        } => select(
            alloc,
            selectors.as_slice(),
            *extend_original,
            input,
            schema,
            arena,
            cache,
            steps,
        ),
        PhysNodeKind::WithRowIndex {
            input: _,
            name,
            offset: _,
        } => kinds::row_index(alloc, name, input, schema),
        PhysNodeKind::Reduce { input: _, exprs } => {
            kinds::reduce(alloc, exprs.as_slice(), input, schema, arena, cache, steps)
        }
        PhysNodeKind::StreamingSlice { .. } => kinds::passing(alloc, input, schema),
        PhysNodeKind::NegativeSlice {
            input: _,
            offset,
            length: _,
        } => kinds::negative_slice(alloc, offset, input, schema),
        PhysNodeKind::Filter {
            input: _,
            predicate,
        } => kinds::filter(alloc, predicate, input, schema, arena, cache, steps),
        PhysNodeKind::SimpleProjection { input: _, columns } => {
            kinds::projection(alloc, columns.as_slice(), input, schema)
        }
        PhysNodeKind::InMemorySink { .. } => kinds::passing(alloc, input, schema),
        PhysNodeKind::InMemoryMap { input: _, map } => {
            map_fits(alloc, map, functions, input, schema, arena, cache, steps)
        }
        PhysNodeKind::Map { input: _, map } => { stream_fits(alloc, map, functions, input, schema) }
        PhysNodeKind::Sort {
            input: _,
            by_column,
            slice: _,
            sort_options,
        } => kinds::sort(
            alloc,
            by_column.as_slice(),
            sort_options,
            input,
            schema,
            arena,
            cache,
            steps,
        ),
        PhysNodeKind::Multiplexer { .. } => kinds::passing(alloc, input, schema),
        PhysNodeKind::GroupBy {
            input: _,
            key,
            aggs,
        } => kinds::group_by(
            alloc,
            key.as_slice(),
            aggs.as_slice(),
            input,
            schema,
            arena,
            cache,
            steps,
        ),
        _ => Ok(false),
    }
}

// Whether a node that reads two streams is fit; a union and a zip are looked at elsewhere.
fn over_two<L: Ledger>(
    alloc: Global,
    kind: &PhysNodeKind,
    left: &Schema,
    right: &Schema,
    schema: &Schema,
    arena: &Arena<AExpr>,
    cache: &mut ExprCache,
    steps: &mut Steps<L>,
) -> PolarsResult<bool>
    requires complete { AllByRecursion IsComplete (step_exprs (rules_of (kind_of (tree_at arena.now.items) kind.now))) }
    requires cache { Remembers arena.now.items cache.old }
    ensures fit { IfOk result (λ fit. IsTrue fit → (F : AllFunctions) → IsFitOver F (kind_of (tree_at arena.now.items) kind.now) schema.now (left.now ∷ right.now ∷ [])) }
    ensures cache { Remembers arena.now.items cache.new }
    ensures memory { OnErr result (result ≡ Err PolarsError.OutOfMemory) }
{
    match kind {
        PhysNodeKind::EquiJoin {
            input_left: _,
            input_right: _,
            left_on,
            right_on,
            args,
        } => kinds::equi_join(
            alloc,
            left_on.as_slice(),
            right_on.as_slice(),
            args,
            left,
            right,
            schema,
            arena,
            cache,
            steps,
        ),
        PhysNodeKind::InMemoryJoin {
            input_left: _,
            input_right: _,
            left_on,
            right_on,
            args,
        } => kinds::join(
            alloc,
            left_on.as_slice(),
            right_on.as_slice(),
            args,
            left,
            right,
            schema,
            arena,
            cache,
            steps,
        ),
        _ => Ok(false),
    }
}

// Whether a node that reads at most two streams is fit.
fn over_few<F: Functions, L: Ledger>(
    alloc: Global,
    kind: &PhysNodeKind,
    phys: &SlotMap<PhysNodeKey, PhysNode>,
    functions: &F,
    schema: &Schema,
    arena: &Arena<AExpr>,
    cache: &mut ExprCache,
    steps: &mut Steps<L>,
) -> PolarsResult<bool>
    requires complete { AllByRecursion IsComplete (step_exprs (rules_of (kind_of (tree_at arena.now.items) kind.now))) }
    requires cache { Remembers arena.now.items cache.old }
    ensures fit { IfOk result (λ fit. IsTrue fit → IsFitOver (F.told functions.now) (kind_of (tree_at arena.now.items) kind.now) schema.now (schemas_read phys.now.slots (inputs_of kind.now))) }
    ensures cache { Remembers arena.now.items cache.new }
    ensures memory { OnErr result (result ≡ Err PolarsError.OutOfMemory) }
{
    let Some(first) = kind.input(0) else {
        return over_none(alloc, kind, schema, arena, cache, steps);
    };
    let Some(left) = schema_of(phys, first) else {
        return Ok(false);
    };
    let Some(second) = kind.input(1) else {
        return over_one(alloc, kind, functions, left, schema, arena, cache, steps);
    };
    let Some(right) = schema_of(phys, second) else {
        return Ok(false);
    };
    let Some(_third) = kind.input(2) else {
        return over_two(alloc, kind, left, right, schema, arena, cache, steps);
    };
    Ok(false)
}

/// Whether a node is fit over what it reads of a slot map, but for its place and its readers.
///
/// Fails only for want of memory; what is then known of expressions is still right.
pub fn is_fit<F: Functions, L: Ledger>(
    alloc: Global,
    kind: &PhysNodeKind,
    phys: &SlotMap<PhysNodeKey, PhysNode>,
    functions: &F,
    schema: &Schema,
    arena: &Arena<AExpr>,
    cache: &mut ExprCache,
    steps: &mut Steps<L>,
) -> PolarsResult<bool>
    requires complete { AllByRecursion IsComplete (step_exprs (rules_of (kind_of (tree_at arena.now.items) kind.now))) }
    requires cache { Remembers arena.now.items cache.old }
    ensures fit { IfOk result (λ fit. IsTrue fit → IsFitOver (F.told functions.now) (kind_of (tree_at arena.now.items) kind.now) schema.now (schemas_read phys.now.slots (inputs_of kind.now))) }
    ensures cache { Remembers arena.now.items cache.new }
    ensures memory { OnErr result (result ≡ Err PolarsError.OutOfMemory) }
{
    match kind {
        PhysNodeKind::OrderedUnion { inputs } => Ok(union(phys, inputs.as_slice(), schema)),
        PhysNodeKind::Zip {
            inputs,
            null_extend: _,
        } => zip(alloc, phys, inputs.as_slice(), schema),
        _ => over_few(alloc, kind, phys, functions, schema, arena, cache, steps),
    }
}

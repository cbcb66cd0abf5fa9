//! Whether nodes of each kind are fit: by their parameters, their schema and the schemas of their inputs.
//
// Each function here answers whether a node of its kind and schema, over inputs of these schemas, keeps all rules of a sound
// shape but those on its place and its readers. It fails only for want of memory; what is then known of expressions is still right.
ghost use Rattle.std.specs.Prelude.{◌≡◌, ◌<◌, ◌∷◌, [], Bool, Err, IfOk, IsTrue, None, OnErr, Option, false, true, ℕ};
ghost use Rattle.std.specs.List.{AllByRecursion};
ghost use Rattle.pu_base.specs.declared.arena.Node.{Node as Number};
ghost use Rattle.ps_frame.specs.Functions.{Functions as AllFunctions};
ghost use Rattle.ps_frame.specs.Trees.{IsComplete, IsExpression, Tree, tree_at};
ghost use Rattle.ps_frame.specs.declared.refusal.PolarsError.{PolarsError};
ghost use Rattle.ps_fresh.specs.Known.{Remembers};
ghost use Rattle.ps_meaning.specs.Shape.{equi_join as equi_join_kind, filter_node, group_by_node, in_memory_join, in_memory_map, in_memory_source, independent_select, negative_slice as negative_slice_kind, reduce as reduce_kind, select_node, simple_projection, stream_map as stream_map_kind, with_row_index};
ghost use Rattle.ps_meaning.specs.Shape.{PhysicalKind};
ghost use Rattle.ps_meaning.specs.Steps.{Cut, distinct_step, group_step, join as join_step, key_trees, named_trees, select as select_step, sort_step, user as user_step};
ghost use Rattle.ps_meaning.specs.Joins.{goes_by_left};
ghost use Rattle.ps_meaning.specs.StepRefusals.{HasBadKeys, HasNoKey, IsValidation};
ghost use Rattle.ps_phys.specs.Shown.{back_from, join_of};
ghost use Rattle.sound_plans.specs.Fit.{IsFitOver, IsPassedOn};

use crate::exprs::{Test, all_pass, passes};
use crate::given::{has_fields_of, is_given};
use ps_frame::expr::AExpr;
use ps_frame::frame::DataFrame;
use ps_frame::functions::Functions;
use ps_frame::refusal::{PolarsError, PolarsResult};
use ps_frame::schema::Schema;
use ps_fresh::expr_cache::ExprCache;
use ps_meaning::options::{DistinctOptions, ExprIR, JoinArgs, JoinType, SortMultipleOptions};
use ps_tables::fits::table_fits;
use ps_validate::entries::{check_distinct, check_join, check_sort};
use ps_validate::functions::function_schema;
use ps_validate::joins::join_schema;
use ps_validate::projections::{
    distinct_schema, named_distinct_schema, project_schema, scan_schema,
};
use ps_validate::schemas::{
    filter_schema, group_by_schema, passed_schema, select_schema, sort_schema,
};
use ps_validate::stacks::{hstack_schema, row_index_schema};
use pu_base::{Arena, Node, PlSmallStr, Steps};
use std::alloc::Global;
use std::sync::ledger::Ledger;

/// A source.
pub fn source(alloc: Global, df: &DataFrame, schema: &Schema) -> PolarsResult<bool>
    ensures fit { IfOk result (λ fit. IsTrue fit → (F : AllFunctions) → IsFitOver F (in_memory_source df.now) schema.now ([])) }
    ensures memory { OnErr result (result ≡ Err PolarsError.OutOfMemory) }
{
    // A law: the values of a table fit its schema.
    table_fits(df);
    let given = scan_schema(alloc, Node(0), df);
    is_given(given, schema)
}

/// A select that adds columns to its input's.
pub fn with_columns<L: Ledger>(
    alloc: Global,
    selectors: &[ExprIR],
    input: &Schema,
    schema: &Schema,
    arena: &Arena<AExpr>,
    cache: &mut ExprCache,
    steps: &mut Steps<L>,
) -> PolarsResult<bool>
    requires selectors { AllByRecursion IsComplete (key_trees (tree_at arena.now.items) selectors.now) }
    requires cache { Remembers arena.now.items cache.old }
    ensures fit { IfOk result (λ fit. IsTrue fit → (F : AllFunctions) → IsFitOver F (select_node (named_trees (tree_at arena.now.items) selectors.now) true) schema.now (input.now ∷ [])) }
    ensures cache { Remembers arena.now.items cache.new }
    ensures memory { OnErr result (result ≡ Err PolarsError.OutOfMemory) }
{
    let typed = all_pass(alloc, Test::Typed(input), selectors, arena, cache)?;
    if !typed {
        return Ok(false);
    }
    let elementwise = all_pass(alloc, Test::Elementwise, selectors, arena, cache)?;
    if !elementwise {
        return Ok(false);
    }
    let given = hstack_schema(alloc, Node(0), selectors, arena, input, steps);
    is_given(given, schema)
}

/// A select of new columns alone.
pub fn select<L: Ledger>(
    alloc: Global,
    selectors: &[ExprIR],
    input: &Schema,
    schema: &Schema,
    arena: &Arena<AExpr>,
    cache: &mut ExprCache,
    steps: &mut Steps<L>,
) -> PolarsResult<bool>
    requires selectors { AllByRecursion IsComplete (key_trees (tree_at arena.now.items) selectors.now) }
    requires cache { Remembers arena.now.items cache.old }
    ensures fit { IfOk result (λ fit. IsTrue fit → (F : AllFunctions) → IsFitOver F (select_node (named_trees (tree_at arena.now.items) selectors.now) false) schema.now (input.now ∷ [])) }
    ensures cache { Remembers arena.now.items cache.new }
    ensures memory { OnErr result (result ≡ Err PolarsError.OutOfMemory) }
{
    let typed = all_pass(alloc, Test::Typed(input), selectors, arena, cache)?;
    if !typed {
        return Ok(false);
    }
    let elementwise = all_pass(alloc, Test::Elementwise, selectors, arena, cache)?;
    if !elementwise {
        return Ok(false);
    }
    let independent = all_pass(alloc, Test::Independent, selectors, arena, cache)?;
    if independent {
        return Ok(false);
    }
    let given = select_schema(alloc, Node(0), selectors, arena, input, steps);
    is_given(given, schema)
}

/// A select over a whole table.
pub fn select_whole<L: Ledger>(
    alloc: Global,
    selectors: &[ExprIR],
    input: &Schema,
    schema: &Schema,
    arena: &Arena<AExpr>,
    cache: &mut ExprCache,
    steps: &mut Steps<L>,
) -> PolarsResult<bool>
    requires selectors { AllByRecursion IsComplete (key_trees (tree_at arena.now.items) selectors.now) }
    requires cache { Remembers arena.now.items cache.old }
    ensures fit { IfOk result (λ fit. IsTrue fit → (F : AllFunctions) → IsFitOver F (in_memory_map (select_step (named_trees (tree_at arena.now.items) selectors.now))) schema.now (input.now ∷ [])) }
    ensures cache { Remembers arena.now.items cache.new }
    ensures memory { OnErr result (result ≡ Err PolarsError.OutOfMemory) }
{
    let typed = all_pass(alloc, Test::Typed(input), selectors, arena, cache)?;
    if !typed {
        return Ok(false);
    }
    let given = select_schema(alloc, Node(0), selectors, arena, input, steps);
    is_given(given, schema)
}

/// A row index.
pub fn row_index(
    alloc: Global,
    name: &PlSmallStr,
    input: &Schema,
    schema: &Schema,
) -> PolarsResult<bool>
    ensures fit { IfOk result (λ fit. IsTrue fit → (F : AllFunctions) (offset : Option ℕ) → IsFitOver F (with_row_index name.now offset) schema.now (input.now ∷ [])) }
    ensures memory { OnErr result (result ≡ Err PolarsError.OutOfMemory) }
{
    let given = row_index_schema(alloc, Node(0), name, input);
    is_given(given, schema)
}

/// A select that reads no input.
pub fn independent<L: Ledger>(
    alloc: Global,
    selectors: &[ExprIR],
    schema: &Schema,
    arena: &Arena<AExpr>,
    cache: &mut ExprCache,
    steps: &mut Steps<L>,
) -> PolarsResult<bool>
    requires selectors { AllByRecursion IsComplete (key_trees (tree_at arena.now.items) selectors.now) }
    requires cache { Remembers arena.now.items cache.old }
    ensures fit { IfOk result (λ fit. IsTrue fit → (F : AllFunctions) → IsFitOver F (independent_select (named_trees (tree_at arena.now.items) selectors.now)) schema.now ([])) }
    ensures cache { Remembers arena.now.items cache.new }
    ensures memory { OnErr result (result ≡ Err PolarsError.OutOfMemory) }
{
    let none = Schema::new(alloc);
    let typed = all_pass(alloc, Test::Typed(&none), selectors, arena, cache)?;
    if !typed {
        return Ok(false);
    }
    let independent = all_pass(alloc, Test::Independent, selectors, arena, cache)?;
    if !independent {
        return Ok(false);
    }
    let given = select_schema(alloc, Node(0), selectors, arena, &none, steps);
    is_given(given, schema)
}

/// Reductions.
pub fn reduce<L: Ledger>(
    alloc: Global,
    selectors: &[ExprIR],
    input: &Schema,
    schema: &Schema,
    arena: &Arena<AExpr>,
    cache: &mut ExprCache,
    steps: &mut Steps<L>,
) -> PolarsResult<bool>
    requires selectors { AllByRecursion IsComplete (key_trees (tree_at arena.now.items) selectors.now) }
    requires cache { Remembers arena.now.items cache.old }
    ensures fit { IfOk result (λ fit. IsTrue fit → (F : AllFunctions) → IsFitOver F (reduce_kind (named_trees (tree_at arena.now.items) selectors.now)) schema.now (input.now ∷ [])) }
    ensures cache { Remembers arena.now.items cache.new }
    ensures memory { OnErr result (result ≡ Err PolarsError.OutOfMemory) }
{
    let typed = all_pass(alloc, Test::Typed(input), selectors, arena, cache)?;
    if !typed {
        return Ok(false);
    }
    let reductions = all_pass(alloc, Test::Reduction, selectors, arena, cache)?;
    if !reductions {
        return Ok(false);
    }
    let given = select_schema(alloc, Node(0), selectors, arena, input, steps);
    is_given(given, schema)
}

/// A slice, a sink or a multiplexer, which pass the input's columns on.
pub fn passing(alloc: Global, input: &Schema, schema: &Schema) -> PolarsResult<bool>
    ensures fit { IfOk result (λ fit. IsTrue fit → (F : AllFunctions) (kind : PhysicalKind) → IsPassedOn kind → IsFitOver F kind schema.now (input.now ∷ [])) }
    ensures memory { OnErr result (result ≡ Err PolarsError.OutOfMemory) }
{
    let given = passed_schema(alloc, Node(0), input);
    is_given(given, schema)
}

/// A slice from the end, whose offset is below 0.
pub fn negative_slice(
    alloc: Global,
    offset: &i64,
    input: &Schema,
    schema: &Schema,
) -> PolarsResult<bool>
    ensures fit { IfOk result (λ fit. IsTrue fit → (F : AllFunctions) (n : ℕ) → IsFitOver F (negative_slice_kind (back_from offset.now) n) schema.now (input.now ∷ [])) }
    ensures memory { OnErr result (result ≡ Err PolarsError.OutOfMemory) }
{
    let below = is_below_zero(offset);
    if !below {
        return Ok(false);
    }
    let given = passed_schema(alloc, Node(0), input);
    is_given(given, schema)
}

/// A filter.
pub fn filter<L: Ledger>(
    alloc: Global,
    predicate: &ExprIR,
    input: &Schema,
    schema: &Schema,
    arena: &Arena<AExpr>,
    cache: &mut ExprCache,
    steps: &mut Steps<L>,
) -> PolarsResult<bool>
    requires predicate { IsExpression arena.now.items predicate.now.node }
    requires cache { Remembers arena.now.items cache.old }
    ensures fit { IfOk result (λ fit. IsTrue fit → (F : AllFunctions) → IsFitOver F (filter_node (tree_at arena.now.items predicate.now.node)) schema.now (input.now ∷ [])) }
    ensures cache { Remembers arena.now.items cache.new }
    ensures memory { OnErr result (result ≡ Err PolarsError.OutOfMemory) }
{
    let typed = passes(alloc, Test::Typed(input), predicate.node, arena, cache)?;
    if !typed {
        return Ok(false);
    }
    let elementwise = passes(alloc, Test::Elementwise, predicate.node, arena, cache)?;
    if !elementwise {
        return Ok(false);
    }
    let given = filter_schema(alloc, Node(0), predicate, arena, input, steps);
    is_given(given, schema)
}

/// A projection.
pub fn projection(
    alloc: Global,
    names: &[PlSmallStr],
    input: &Schema,
    schema: &Schema,
) -> PolarsResult<bool>
    ensures fit { IfOk result (λ fit. IsTrue fit → (F : AllFunctions) → IsFitOver F (simple_projection names.now) schema.now (input.now ∷ [])) }
    ensures memory { OnErr result (result ≡ Err PolarsError.OutOfMemory) }
{
    let given = project_schema(alloc, Node(0), names, input);
    is_given(given, schema)
}

/// A sort.
pub fn sort<L: Ledger>(
    alloc: Global,
    keys: &[ExprIR],
    options: &SortMultipleOptions,
    input: &Schema,
    schema: &Schema,
    arena: &Arena<AExpr>,
    cache: &mut ExprCache,
    steps: &mut Steps<L>,
) -> PolarsResult<bool>
    requires keys { AllByRecursion IsComplete (key_trees (tree_at arena.now.items) keys.now) }
    requires cache { Remembers arena.now.items cache.old }
    ensures fit { IfOk result (λ fit. IsTrue fit → (F : AllFunctions) (cut : Cut) → IsFitOver F (in_memory_map (sort_step (tree_at arena.now.items) keys.now cut options.now)) schema.now (input.now ∷ [])) }
    ensures cache { Remembers arena.now.items cache.new }
    ensures memory { OnErr result (result ≡ Err PolarsError.OutOfMemory) }
{
    let sorts = sorts(keys, options);
    if !sorts {
        return Ok(false);
    }
    let typed = all_pass(alloc, Test::Typed(input), keys, arena, cache)?;
    if !typed {
        return Ok(false);
    }
    let given = sort_schema(alloc, Node(0), keys, arena, input, steps);
    is_given(given, schema)
}

/// Groups over a whole table.
pub fn grouped<L: Ledger>(
    alloc: Global,
    keys: &[ExprIR],
    aggs: &[ExprIR],
    input: &Schema,
    schema: &Schema,
    arena: &Arena<AExpr>,
    cache: &mut ExprCache,
    steps: &mut Steps<L>,
) -> PolarsResult<bool>
    requires keys { AllByRecursion IsComplete (key_trees (tree_at arena.now.items) keys.now) }
    requires aggregates { AllByRecursion IsComplete (key_trees (tree_at arena.now.items) aggs.now) }
    requires cache { Remembers arena.now.items cache.old }
    ensures fit { IfOk result (λ fit. IsTrue fit → (F : AllFunctions) (maintain : Bool) (cut : Cut) → IsFitOver F (in_memory_map (group_step (tree_at arena.now.items) keys.now aggs.now maintain cut)) schema.now (input.now ∷ [])) }
    ensures cache { Remembers arena.now.items cache.new }
    ensures memory { OnErr result (result ≡ Err PolarsError.OutOfMemory) }
{
    if keys.is_empty() {
        return Ok(false);
    }
    let typed_keys = all_pass(alloc, Test::Typed(input), keys, arena, cache)?;
    if !typed_keys {
        return Ok(false);
    }
    let typed = all_pass(alloc, Test::Typed(input), aggs, arena, cache)?;
    if !typed {
        return Ok(false);
    }
    let given = group_by_schema(alloc, Node(0), keys, aggs, arena, input, steps);
    is_given(given, schema)
}

/// A group-by of keys and reductions.
pub fn group_by<L: Ledger>(
    alloc: Global,
    keys: &[ExprIR],
    aggs: &[ExprIR],
    input: &Schema,
    schema: &Schema,
    arena: &Arena<AExpr>,
    cache: &mut ExprCache,
    steps: &mut Steps<L>,
) -> PolarsResult<bool>
    requires keys { AllByRecursion IsComplete (key_trees (tree_at arena.now.items) keys.now) }
    requires aggregates { AllByRecursion IsComplete (key_trees (tree_at arena.now.items) aggs.now) }
    requires cache { Remembers arena.now.items cache.old }
    ensures fit { IfOk result (λ fit. IsTrue fit → (F : AllFunctions) → IsFitOver F (group_by_node (named_trees (tree_at arena.now.items) keys.now) (named_trees (tree_at arena.now.items) aggs.now)) schema.now (input.now ∷ [])) }
    ensures cache { Remembers arena.now.items cache.new }
    ensures memory { OnErr result (result ≡ Err PolarsError.OutOfMemory) }
{
    let elementwise = all_pass(alloc, Test::Elementwise, keys, arena, cache)?;
    if !elementwise {
        return Ok(false);
    }
    let reductions = all_pass(alloc, Test::Reduction, aggs, arena, cache)?;
    if !reductions {
        return Ok(false);
    }
    grouped(alloc, keys, aggs, input, schema, arena, cache, steps)
}

/// Distinct rows.
pub fn distinct(
    alloc: Global,
    options: &DistinctOptions,
    input: &Schema,
    schema: &Schema,
) -> PolarsResult<bool>
    ensures fit { IfOk result (λ fit. IsTrue fit → (F : AllFunctions) → IsFitOver F (in_memory_map (distinct_step options.now)) schema.now (input.now ∷ [])) }
    ensures memory { OnErr result (result ≡ Err PolarsError.OutOfMemory) }
{
    let keyed = has_key(options);
    if !keyed {
        return Ok(false);
    }
    match &options.subset {
        None => {
            let given = distinct_schema(alloc, Node(0), input);
            is_given(given, schema)
        }
        Some(names) => {
            let given = named_distinct_schema(alloc, Node(0), names.as_slice(), input);
            is_given(given, schema)
        }
    }
}

/// A function over a whole table.
pub fn function<F: Functions>(
    alloc: Global,
    n: usize,
    functions: &F,
    input: &Schema,
    schema: &Schema,
) -> PolarsResult<bool>
    ensures fit { IfOk result (λ fit. IsTrue fit → IsFitOver (F.told functions.now) (in_memory_map (user_step n)) schema.now (input.now ∷ [])) }
    ensures memory { OnErr result (result ≡ Err PolarsError.OutOfMemory) }
{
    if n >= functions.count() {
        return Ok(false);
    }
    let given = function_schema(alloc, Node(0), n, functions, input);
    is_given(given, schema)
}

/// A function that streams.
pub fn stream<F: Functions>(
    alloc: Global,
    n: usize,
    functions: &F,
    input: &Schema,
    schema: &Schema,
) -> PolarsResult<bool>
    ensures fit { IfOk result (λ fit. IsTrue fit → IsFitOver (F.told functions.now) (stream_map_kind (user_step n)) schema.now (input.now ∷ [])) }
    ensures memory { OnErr result (result ≡ Err PolarsError.OutOfMemory) }
{
    if n >= functions.count() {
        return Ok(false);
    }
    let streams = functions.streamable(n);
    if !streams {
        return Ok(false);
    }
    let given = function_schema(alloc, Node(0), n, functions, input);
    is_given(given, schema)
}

/// A join over whole tables.
pub fn join<L: Ledger>(
    alloc: Global,
    left_on: &[ExprIR],
    right_on: &[ExprIR],
    args: &JoinArgs,
    left: &Schema,
    right: &Schema,
    schema: &Schema,
    arena: &Arena<AExpr>,
    cache: &mut ExprCache,
    steps: &mut Steps<L>,
) -> PolarsResult<bool>
    requires left_keys { AllByRecursion IsComplete (key_trees (tree_at arena.now.items) left_on.now) }
    requires right_keys { AllByRecursion IsComplete (key_trees (tree_at arena.now.items) right_on.now) }
    requires cache { Remembers arena.now.items cache.old }
    ensures fit { IfOk result (λ fit. IsTrue fit → (F : AllFunctions) → IsFitOver F (in_memory_join (join_of (tree_at arena.now.items) left_on.now right_on.now args.now)) schema.now (left.now ∷ right.now ∷ [])) }
    ensures cache { Remembers arena.now.items cache.new }
    ensures memory { OnErr result (result ≡ Err PolarsError.OutOfMemory) }
{
    if schema.is_empty() {
        return Ok(false);
    }
    if left_on.len() != right_on.len() {
        return Ok(false);
    }
    let joins = joins(left_on, right_on, args);
    if !joins {
        return Ok(false);
    }
    let typed_left = all_pass(alloc, Test::Typed(left), left_on, arena, cache)?;
    if !typed_left {
        return Ok(false);
    }
    let typed_right = all_pass(alloc, Test::Typed(right), right_on, arena, cache)?;
    if !typed_right {
        return Ok(false);
    }
    let given = join_schema(
        alloc,
        Node(0),
        left_on,
        right_on,
        args,
        arena,
        left,
        right,
        steps,
    );
    has_fields_of(given, schema)
}

/// An equi join, which goes by the left rows and is cut by no slice.
pub fn equi_join<L: Ledger>(
    alloc: Global,
    left_on: &[ExprIR],
    right_on: &[ExprIR],
    args: &JoinArgs,
    left: &Schema,
    right: &Schema,
    schema: &Schema,
    arena: &Arena<AExpr>,
    cache: &mut ExprCache,
    steps: &mut Steps<L>,
) -> PolarsResult<bool>
    requires left_keys { AllByRecursion IsComplete (key_trees (tree_at arena.now.items) left_on.now) }
    requires right_keys { AllByRecursion IsComplete (key_trees (tree_at arena.now.items) right_on.now) }
    requires cache { Remembers arena.now.items cache.old }
    ensures fit { IfOk result (λ fit. IsTrue fit → (F : AllFunctions) → IsFitOver F (equi_join_kind (join_of (tree_at arena.now.items) left_on.now right_on.now args.now)) schema.now (left.now ∷ right.now ∷ [])) }
    ensures cache { Remembers arena.now.items cache.new }
    ensures memory { OnErr result (result ≡ Err PolarsError.OutOfMemory) }
{
    let uncut = is_uncut(args);
    if !uncut {
        return Ok(false);
    }
    let goes = goes_by_left(args.how);
    if !goes {
        return Ok(false);
    }
    let elementwise = all_pass(alloc, Test::Elementwise, left_on, arena, cache)?;
    if !elementwise {
        return Ok(false);
    }
    let also = all_pass(alloc, Test::Elementwise, right_on, arena, cache)?;
    if !also {
        return Ok(false);
    }
    join(
        alloc, left_on, right_on, args, left, right, schema, arena, cache, steps,
    )
}

// Whether a join of this kind goes by the left rows.
fn goes_by_left(how: JoinType) -> bool
    ensures { result ≡ goes_by_left how }
{
    match how {
        JoinType::Inner | JoinType::Left | JoinType::Right | JoinType::Full => true,
        JoinType::Semi | JoinType::Anti | JoinType::Cross => false,
    }
}

// Whether a sort has a key, and as many flags as keys, or one.
fn sorts(keys: &[ExprIR], options: &SortMultipleOptions) -> bool
    ensures { IsTrue result → (f : Number → Tree) (cut : Cut) → ¬ HasBadKeys (sort_step f keys.now cut options.now) }
{
    match check_sort(Node(0), keys, options) {
        Ok(()) => true,
        Err(_error) => false,
    }
}

// Whether a distinct compares some columns.
fn has_key(options: &DistinctOptions) -> bool
    ensures { IsTrue result → ¬ HasNoKey (distinct_step options.now) }
{
    match check_distinct(Node(0), options) {
        Ok(()) => true,
        Err(_error) => false,
    }
}

// Whether the keys of a join fit, and it validates nothing.
fn joins(left_on: &[ExprIR], right_on: &[ExprIR], args: &JoinArgs) -> bool
    ensures keys { IsTrue result → (f : Number → Tree) → ¬ HasBadKeys (join_step (join_of f left_on.now right_on.now args.now)) }
    ensures validation { IsTrue result → ¬ IsValidation args.now.validation }
{
    match check_join(Node(0), left_on, right_on, args) {
        Ok(()) => true,
        Err(_error) => false,
    }
}

// Whether a join is cut by no slice.
fn is_uncut(args: &JoinArgs) -> bool
    ensures { IsTrue result → args.now.slice ≡ None }
{
    match args.slice {
        Some(_) => false,
        None => true,
    }
}

// Whether an offset counts from the end.
fn is_below_zero(offset: &i64) -> bool
    ensures { IsTrue result → 0 < back_from offset.now }
{
    *offset < 0
}

//! The step of a node of a plan, over the streams of its inputs.
ghost use Rattle.std.specs.Prelude.{◌≡◌, ◌∷◌, [], Err, IfOk, OnErr};
ghost use Rattle.std.specs.List.{AllByRecursion};
ghost use Rattle.ps_frame.specs.Trees.{IsComplete, Tree, tree_at};
ghost use Rattle.ps_frame.specs.declared.refusal.PolarsError.{PolarsError};
ghost use Rattle.ps_fresh.specs.Known.{Remembers};
ghost use Rattle.ps_meaning.specs.Laws.{IsBuilt};
ghost use Rattle.ps_meaning.specs.StepRefusals.{NamesMissingFunction};
ghost use Rattle.ps_meaning.specs.Steps.{function_step, key_trees, named_trees, step_exprs};
ghost use Rattle.ps_phys.specs.Shown.{stream_of, streams_of};
ghost use Rattle.ps_plan.specs.Entries.{entry_step};
ghost use Rattle.ps_rules.specs.Lowered.{select_stream};
ghost use Rattle.plan_rules.specs.Distinct.{distinct_stream};
ghost use Rattle.plan_rules.specs.Groups.{group_stream};
ghost use Rattle.plan_rules.specs.Nodes.{first_stream, second_stream, step_stream as stream_by_rule};
ghost use Rattle.plan_rules.specs.Slices.{slice_stream};
ghost use Rattle.group_lowering.specs.Distincts.{distinct_of};
ghost use Rattle.group_lowering.specs.Groups.{group_of};
ghost use Rattle.lowering_parts.specs.Gathered.{Begins, GoesOn, Makes, made_of, state_of};
ghost use Rattle.pu_base.specs.declared.arena.Node.{Node as ANode};

use expr_lowering::exprs::build_select_stream;
use group_lowering::distincts::build_distinct_stream;
use group_lowering::groups::build_group_by_stream;
use keyed_slots::Key;
use node_lowering::filters::filter_stream;
use node_lowering::further::further_columns_stream;
use node_lowering::joins::join_stream;
use node_lowering::lists::{hconcat_stream, union_stream};
use node_lowering::single::{
    function_stream, projection_stream, row_index_stream, scan_stream, sink_stream, sort_stream,
};
use ps_copies::try_clone::TryClone;
use ps_frame::expr::AExpr;
use ps_frame::functions::Functions;
use ps_frame::items::Items;
use ps_frame::refusal::{PolarsError, PolarsResult};
use ps_frame::schema::Schema;
use ps_fresh::lowering::Lowering;
use ps_meaning::options::{DistinctOptions, ExprIR, FunctionIR, GroupbyOptions};
use ps_phys::phys::{PhysNodeKey, PhysStream};
use ps_plan::ir::IR;
use pu_base::Arena;
use slice_lowering::slices::build_slice_stream;
use std::alloc::Global;

/// The stream of a node's step over the streams of its inputs; the schema is that of what comes out. Of the functions
/// it asks whether one streams, and calls none.
///
/// What stood in the arena and in the lowering stands after every answer. Fails only for want of memory; nodes, names
/// and expressions may then have been added.
pub fn step_stream<F: Functions>(
    alloc: Global,
    arena: &mut Arena<AExpr>,
    low: &mut Lowering,
    functions: &F,
    entry: &IR,
    schema: &Schema,
    inputs: Vec<PhysStream>,
) -> PolarsResult<PhysStream>
    requires whole { AllByRecursion IsComplete (step_exprs (entry_step (tree_at arena.old.items) entry.now)) }
    requires function { ¬ NamesMissingFunction (F.told functions.now).count (entry_step (tree_at arena.old.items) entry.now) }
    requires built { IsBuilt (entry_step (tree_at arena.old.items) entry.now) }
    requires cache { Remembers arena.old.items low.old.cache }
    ensures makes { IfOk result (Makes (stream_by_rule low.old.origin.0 (F.told functions.now) (entry_step (tree_at arena.old.items) entry.now) schema.now (streams_of inputs.items)) arena.old.items arena.new.items low.old low.new) }
    ensures goes_on { GoesOn arena.old.items arena.new.items low.old low.new }
    ensures memory { OnErr result (result ≡ Err PolarsError.OutOfMemory) }
{
    let first = first_of(inputs.as_slice());
    let second = second_of(inputs.as_slice());
    match entry {
        IR::DataFrameScan { df, .. } => scan_stream(alloc, low, df, schema),
        IR::SimpleProjection { columns, .. } => projection_stream(alloc, low, first, columns),
        IR::Select { expr, .. } => selected(alloc, arena, low, first, expr),
        IR::HStack { exprs, .. } => {
            further_columns_stream(alloc, arena, low, first, exprs, schema)
        }
        IR::Filter { predicate, .. } => filter_stream(alloc, arena, low, first, predicate),
        IR::Slice { offset, len, .. } => sliced(alloc, low, first, offset, *len),
        IR::Sink { .. } => sink_stream(alloc, low, first),
        IR::MapFunction { function, .. } => {
            called(alloc, low, functions, first, function, schema)
        }
        IR::Sort {
            by_column,
            slice,
            sort_options,
            ..
        } => sort_stream(alloc, low, first, by_column, slice, sort_options),
        IR::Union { options, .. } => union_stream(alloc, low, inputs, &options.slice, schema),
        IR::HConcat { .. } => hconcat_stream(alloc, low, inputs, schema),
        IR::Cache { .. } => Ok(first),
        IR::GroupBy {
            keys,
            aggs,
            maintain_order,
            options,
            ..
        } => grouped(
            alloc,
            arena,
            low,
            first,
            keys,
            aggs,
            *maintain_order,
            options,
        ),
        IR::Join {
            left_on,
            right_on,
            options,
            ..
        } => join_stream(
            alloc, arena, low, first, second, left_on, right_on, options, schema,
        ),
        IR::Distinct { options, .. } => distinct_rows(alloc, arena, low, first, options),
        IR::LeftOut(_) => unreachable!(),
    }
}

// The first of some streams. Where there is none it is that which the rules name then: no node of a valid plan has too
// few inputs.
fn first_of(streams: &[PhysStream]) -> PhysStream
    ensures { stream_of result ≡ first_stream (streams_of streams.now) }
{
    match streams {
        [first, ..] => *first,
        [] => PhysStream::first(PhysNodeKey::from_number(0)),
    }
}

fn second_of(streams: &[PhysStream]) -> PhysStream
    ensures { stream_of result ≡ second_stream (streams_of streams.now) }
{
    match streams {
        [_, others @ ..] => first_of(others),
        [] => PhysStream::first(PhysNodeKey::from_number(0)),
    }
}

fn selected(
    alloc: Global,
    arena: &mut Arena<AExpr>,
    low: &mut Lowering,
    input: PhysStream,
    exprs: &Items<ExprIR>,
) -> PolarsResult<PhysStream>
    requires whole { AllByRecursion IsComplete (key_trees (tree_at arena.old.items) exprs.now) }
    requires cache { Remembers arena.old.items low.old.cache }
    ensures makes { IfOk result (Makes (select_stream low.old.origin.0 (stream_of input) (named_trees (tree_at arena.old.items) exprs.now)) arena.old.items arena.new.items low.old low.new) }
    ensures goes_on { GoesOn arena.old.items arena.new.items low.old low.new }
    ensures memory { OnErr result (result ≡ Err PolarsError.OutOfMemory) }
{
    build_select_stream(alloc, arena, low, input, exprs.as_slice())
}

fn sliced(
    alloc: Global,
    low: &mut Lowering,
    input: PhysStream,
    offset: &i64,
    length: usize,
) -> PolarsResult<PhysStream>
    ensures made { (f : ANode → Tree) → IfOk result (λ s. made_of f low.new s ≡ slice_stream low.old.origin.0 offset.now length (stream_of input) (state_of f low.old)) }
    ensures nodes { Begins low.old.phys_sm.slots low.new.phys_sm.slots }
    ensures others { low.new ≡ record low.old { phys_sm = low.new.phys_sm } }
    ensures memory { OnErr result (result ≡ Err PolarsError.OutOfMemory) }
{
    build_slice_stream(alloc, low, input, *offset, length)
}

// A function of the plan: row numbers, or one that the caller has handed in.
fn called<F: Functions>(
    alloc: Global,
    low: &mut Lowering,
    functions: &F,
    input: PhysStream,
    function: &FunctionIR,
    schema: &Schema,
) -> PolarsResult<PhysStream>
    requires { ¬ NamesMissingFunction (F.told functions.now).count (function_step function.now) }
    ensures made { (f : ANode → Tree) → IfOk result (λ s. made_of f low.new s ≡ stream_by_rule low.old.origin.0 (F.told functions.now) (function_step function.now) schema.now (stream_of input ∷ []) (state_of f low.old)) }
    ensures nodes { Begins low.old.phys_sm.slots low.new.phys_sm.slots }
    ensures others { low.new ≡ record low.old { phys_sm = low.new.phys_sm } }
    ensures memory { OnErr result (result ≡ Err PolarsError.OutOfMemory) }
{
    match function {
        FunctionIR::RowIndex { name, offset } => {
            row_index_stream(alloc, low, input, name, *offset, schema)
        }
        FunctionIR::User(number) => {
            let streams = functions.streamable(*number);
            function_stream(alloc, low, input, *number, streams, schema)
        }
    }
}

fn grouped(
    alloc: Global,
    arena: &mut Arena<AExpr>,
    low: &mut Lowering,
    input: PhysStream,
    keys: &Items<ExprIR>,
    aggs: &Items<ExprIR>,
    maintain_order: bool,
    options: &GroupbyOptions,
) -> PolarsResult<PhysStream>
    requires keys { AllByRecursion IsComplete (key_trees (tree_at arena.old.items) keys.now) }
    requires aggs { AllByRecursion IsComplete (key_trees (tree_at arena.old.items) aggs.now) }
    requires cache { Remembers arena.old.items low.old.cache }
    ensures makes { IfOk result (Makes (group_stream low.old.origin.0 (group_of (tree_at arena.old.items) keys.now aggs.now maintain_order options.now.slice) (stream_of input)) arena.old.items arena.new.items low.old low.new) }
    ensures goes_on { GoesOn arena.old.items arena.new.items low.old low.new }
    ensures memory { OnErr result (result ≡ Err PolarsError.OutOfMemory) }
{
    let options = GroupbyOptions {
        slice: options.slice,
    };
    build_group_by_stream(
        alloc,
        arena,
        low,
        input,
        keys.as_slice(),
        aggs.as_slice(),
        maintain_order,
        options,
    )
}

fn distinct_rows(
    alloc: Global,
    arena: &mut Arena<AExpr>,
    low: &mut Lowering,
    input: PhysStream,
    options: &DistinctOptions,
) -> PolarsResult<PhysStream>
    requires { Remembers arena.old.items low.old.cache }
    ensures makes { IfOk result (Makes (distinct_stream low.old.origin.0 (distinct_of options.now) (stream_of input)) arena.old.items arena.new.items low.old low.new) }
    ensures goes_on { GoesOn arena.old.items arena.new.items low.old low.new }
    ensures memory { OnErr result (result ≡ Err PolarsError.OutOfMemory) }
{
    let options = copied(alloc, options)?;
    build_distinct_stream(alloc, arena, low, input, options)
}

fn copied(alloc: Global, options: &DistinctOptions) -> PolarsResult<DistinctOptions>
    ensures same { IfOk result (λ copy. copy ≡ options.now) }
    ensures memory { OnErr result (result ≡ Err PolarsError.OutOfMemory) }
{
    // A match and no `?`: an error of copies doesn't convert, and is want of memory alone.
    match options.try_clone(alloc) {
        Ok(copy) => Ok(copy),
        Err(_error) => Err(PolarsError::OutOfMemory),
    }
}

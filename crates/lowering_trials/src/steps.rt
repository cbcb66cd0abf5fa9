// One call for the step of a node, over the streams of its inputs.
ghost use Rattle.std.specs.Prelude.{◌≡◌, OnOk};
ghost use Rattle.std.specs.List.{AllByRecursion};
ghost use Rattle.ps_frame.specs.Trees.{IsComplete, IsExpression, tree_at};
ghost use Rattle.ps_fresh.specs.Known.{Remembers};
ghost use Rattle.ps_meaning.specs.Steps.{key_trees};
ghost use Rattle.lowering_parts.specs.Gathered.{Begins};
ghost use Rattle.lowering_trials.specs.Going.{HasWholeExprs};

use expr_lowering::exprs::build_select_stream;
use group_lowering::distincts::build_distinct_stream;
use kept_groups::groups::build_group_by_stream;
use kept_groups::slices::build_slice_stream;
use node_lowering::filters::filter_stream;
use node_lowering::further::further_columns_stream;
use node_lowering::joins::join_stream;
use node_lowering::lists::{hconcat_stream, union_stream};
use node_lowering::single::{
    function_stream, projection_stream, row_index_stream, scan_stream, sink_stream, sort_stream,
};
use plan_scripts::functions::TwoSame;
use ps_copies::try_clone::TryClone;
use ps_frame::expr::AExpr;
use ps_frame::functions::Functions;
use ps_frame::items::Items;
use ps_frame::refusal::PolarsResult;
use ps_frame::schema::Schema;
use ps_fresh::lowering::Lowering;
use ps_meaning::options::{DistinctOptions, ExprIR, FunctionIR, GroupbyOptions, JoinArgs};
use ps_phys::phys::PhysStream;
use ps_plan::ir::IR;
use pu_base::Arena;
use std::alloc::Global;
use std::test::Fail;

// The stream that a call made.
fn made(answer: PolarsResult<PhysStream>) -> Result<PhysStream, Fail> {
    match answer {
        Ok(stream) => Ok(stream),
        Err(_error) => Err(Fail::from("no stream")),
    }
}

fn at(inputs: &[PhysStream], place: usize) -> Result<PhysStream, Fail> {
    match inputs.get(place) {
        Some(input) => Ok(*input),
        None => Err(Fail::from("too few inputs")),
    }
}

/// The stream of a step, whose expressions are whole, over streams of its inputs. Entries that stood in the arena stand
/// there, and what is known of expressions stays right.
pub fn step_stream(
    alloc: Global,
    exprs: &mut Arena<AExpr>,
    low: &mut Lowering,
    step: &IR,
    inputs: Vec<PhysStream>,
    schema: &Schema,
) -> Result<PhysStream, Fail>
    requires whole { HasWholeExprs exprs.old.items step.now }
    requires cache { Remembers exprs.old.items low.old.cache }
    ensures entries { OnOk result (Begins exprs.old.items exprs.new.items) }
    ensures cache { OnOk result (Remembers exprs.new.items low.new.cache) }
{
    match step {
        IR::Select { expr, .. } => {
            let input = at(inputs.as_slice(), 0)?;
            selected(alloc, exprs, low, input, expr.as_slice())
        }
        IR::HStack { exprs: further, .. } => {
            let input = at(inputs.as_slice(), 0)?;
            extended(alloc, exprs, low, input, further, schema)
        }
        IR::Filter { predicate, .. } => {
            let input = at(inputs.as_slice(), 0)?;
            filtered(alloc, exprs, low, input, predicate)
        }
        IR::GroupBy {
            keys,
            aggs,
            maintain_order,
            options,
            ..
        } => {
            let input = at(inputs.as_slice(), 0)?;
            grouped(
                alloc,
                exprs,
                low,
                input,
                keys.as_slice(),
                aggs.as_slice(),
                *maintain_order,
                options.slice,
            )
        }
        IR::Join {
            left_on,
            right_on,
            options,
            ..
        } => joined(
            alloc,
            exprs,
            low,
            inputs.as_slice(),
            left_on,
            right_on,
            options,
            schema,
        ),
        IR::Distinct { options, .. } => {
            let input = at(inputs.as_slice(), 0)?;
            distinguished(alloc, exprs, low, input, options)
        }
        _ => plain_stream(alloc, exprs, low, step, inputs, schema),
    }
}

fn selected(
    alloc: Global,
    exprs: &mut Arena<AExpr>,
    low: &mut Lowering,
    input: PhysStream,
    asked: &[ExprIR],
) -> Result<PhysStream, Fail>
    requires whole { AllByRecursion IsComplete (key_trees (tree_at exprs.old.items) asked.now) }
    requires cache { Remembers exprs.old.items low.old.cache }
    ensures entries { Begins exprs.old.items exprs.new.items }
    ensures cache { Remembers exprs.new.items low.new.cache }
{
    made(build_select_stream(alloc, exprs, low, input, asked))
}

fn extended(
    alloc: Global,
    exprs: &mut Arena<AExpr>,
    low: &mut Lowering,
    input: PhysStream,
    further: &Items<ExprIR>,
    schema: &Schema,
) -> Result<PhysStream, Fail>
    requires whole { AllByRecursion IsComplete (key_trees (tree_at exprs.old.items) further.now) }
    requires cache { Remembers exprs.old.items low.old.cache }
    ensures entries { Begins exprs.old.items exprs.new.items }
    ensures cache { Remembers exprs.new.items low.new.cache }
{
    made(further_columns_stream(alloc, exprs, low, input, further, schema))
}

fn filtered(
    alloc: Global,
    exprs: &mut Arena<AExpr>,
    low: &mut Lowering,
    input: PhysStream,
    predicate: &ExprIR,
) -> Result<PhysStream, Fail>
    requires whole { IsExpression exprs.old.items predicate.now.node }
    requires cache { Remembers exprs.old.items low.old.cache }
    ensures entries { Begins exprs.old.items exprs.new.items }
    ensures cache { Remembers exprs.new.items low.new.cache }
{
    made(filter_stream(alloc, exprs, low, input, predicate))
}

fn grouped(
    alloc: Global,
    exprs: &mut Arena<AExpr>,
    low: &mut Lowering,
    input: PhysStream,
    keys: &[ExprIR],
    aggs: &[ExprIR],
    maintain_order: bool,
    slice: Option<(i64, usize)>,
) -> Result<PhysStream, Fail>
    requires keys { AllByRecursion IsComplete (key_trees (tree_at exprs.old.items) keys.now) }
    requires aggs { AllByRecursion IsComplete (key_trees (tree_at exprs.old.items) aggs.now) }
    requires cache { Remembers exprs.old.items low.old.cache }
    ensures entries { Begins exprs.old.items exprs.new.items }
    ensures cache { Remembers exprs.new.items low.new.cache }
{
    let options = GroupbyOptions { slice };
    made(build_group_by_stream(
        alloc,
        exprs,
        low,
        input,
        keys,
        aggs,
        maintain_order,
        options,
    ))
}

fn joined(
    alloc: Global,
    exprs: &mut Arena<AExpr>,
    low: &mut Lowering,
    inputs: &[PhysStream],
    left_on: &Items<ExprIR>,
    right_on: &Items<ExprIR>,
    args: &JoinArgs,
    schema: &Schema,
) -> Result<PhysStream, Fail>
    requires left { AllByRecursion IsComplete (key_trees (tree_at exprs.old.items) left_on.now) }
    requires right { AllByRecursion IsComplete (key_trees (tree_at exprs.old.items) right_on.now) }
    requires cache { Remembers exprs.old.items low.old.cache }
    ensures entries { OnOk result (Begins exprs.old.items exprs.new.items) }
    ensures cache { OnOk result (Remembers exprs.new.items low.new.cache) }
{
    let (left, right) = (at(inputs, 0)?, at(inputs, 1)?);
    made(join_stream(
        alloc, exprs, low, left, right, left_on, right_on, args, schema,
    ))
}

fn distinguished(
    alloc: Global,
    exprs: &mut Arena<AExpr>,
    low: &mut Lowering,
    input: PhysStream,
    options: &DistinctOptions,
) -> Result<PhysStream, Fail>
    requires { Remembers exprs.old.items low.old.cache }
    ensures entries { OnOk result (Begins exprs.old.items exprs.new.items) }
    ensures cache { OnOk result (Remembers exprs.new.items low.new.cache) }
{
    let Ok(options) = options.try_clone(alloc) else {
        return Err(Fail::from("no options"));
    };
    made(build_distinct_stream(alloc, exprs, low, input, options))
}

// The stream of a step that lowers no expression.
fn plain_stream(
    alloc: Global,
    exprs: &Arena<AExpr>,
    low: &mut Lowering,
    step: &IR,
    inputs: Vec<PhysStream>,
    schema: &Schema,
) -> Result<PhysStream, Fail>
    requires { Remembers exprs.now.items low.old.cache }
    ensures { OnOk result (Remembers exprs.now.items low.new.cache) }
{
    // The arena stands for what is known of its expressions.
    let _exprs = exprs;
    match step {
        IR::Union { options, .. } => {
            made(union_stream(alloc, low, inputs, &options.slice, schema))
        }
        IR::HConcat { .. } => made(hconcat_stream(alloc, low, inputs, schema)),
        IR::DataFrameScan { df, .. } => made(scan_stream(alloc, low, df, schema)),
        _ => {
            let input = at(inputs.as_slice(), 0)?;
            single_stream(alloc, low, step, input, schema)
        }
    }
}

// The same of a step over one input.
fn single_stream(
    alloc: Global,
    low: &mut Lowering,
    step: &IR,
    input: PhysStream,
    schema: &Schema,
) -> Result<PhysStream, Fail>
    ensures { OnOk result (low.new.cache ≡ low.old.cache) }
{
    match step {
        IR::SimpleProjection { columns, .. } => {
            made(projection_stream(alloc, low, input, columns))
        }
        IR::Slice { offset, len, .. } => {
            made(build_slice_stream(alloc, low, input, *offset, *len))
        }
        IR::Sink { .. } => made(sink_stream(alloc, low, input)),
        IR::MapFunction { function, .. } => called(alloc, low, function, input, schema),
        IR::Sort {
            by_column,
            slice,
            sort_options,
            ..
        } => made(sort_stream(alloc, low, input, by_column, slice, sort_options)),
        _ => Err(Fail::from("a step without a call")),
    }
}

fn called(
    alloc: Global,
    low: &mut Lowering,
    function: &FunctionIR,
    input: PhysStream,
    schema: &Schema,
) -> Result<PhysStream, Fail>
    ensures { OnOk result (low.new.cache ≡ low.old.cache) }
{
    match function {
        FunctionIR::RowIndex { name, offset } => {
            made(row_index_stream(alloc, low, input, name, *offset, schema))
        }
        FunctionIR::User(number) => {
            let streams = *number < 2 && TwoSame.streamable(*number);
            made(function_stream(alloc, low, input, *number, streams, schema))
        }
    }
}

//! The computation of an entry of a plan.
ghost use Rattle.std.specs.Prelude.{◌≡◌, IfErr, IfOk, length};
ghost use Rattle.ps_frame.specs.Trees.{tree_at};
ghost use Rattle.ps_meaning.specs.Nodes.{GivesFrame, MayFault};
ghost use Rattle.ps_plan.specs.Entries.{entry_inputs, entry_step};
ghost use Rattle.ready_steps.specs.Ready.{IsReadyFor};

use crate::groups::{deduplicated, grouped};
use crate::joins::joined;
use crate::rows::{filtered, selected, sorted, stacked};
use crate::tables::{mapped, passed, projected, scanned, side_by_side, sliced, united};
use ps_frame::expr::AExpr;
use ps_frame::frame::DataFrame;
use ps_frame::functions::Functions;
use ps_frame::refusal::PolarsResult;
use ps_frame::schema::Schema;
use ps_plan::ir::IR;
use pu_base::{Arena, Node};
use std::alloc::Global;

/// The table of an entry at the node `at` over the tables of its inputs, one for each in order, under the schema that
/// it has over theirs. The entry is fit for them, as each is that a valid plan reaches.
///
/// Fails by a fault that breaks the entry over these tables, by `Rows` where a column or the table would have too many
/// rows, or for want of memory.
pub fn evaluate_entry<F: Functions>(
    alloc: Global,
    at: Node,
    entry: &IR,
    exprs: &Arena<AExpr>,
    functions: &F,
    inputs: &[DataFrame],
    schema: &Schema,
) -> PolarsResult<DataFrame>
    requires ready { IsReadyFor (F.told functions.now) (entry_step (tree_at exprs.now.items) entry.now) inputs.now schema.now }
    requires inputs { length inputs.now ≡ length (entry_inputs entry.now) }
    ensures table { IfOk result (λ f. GivesFrame (F.told functions.now) at.0 (entry_step (tree_at exprs.now.items) entry.now) inputs.now f) }
    ensures fault { IfErr result (λ e. MayFault (F.told functions.now) at.0 (entry_step (tree_at exprs.now.items) entry.now) inputs.now e) }
{
    match entry {
        IR::DataFrameScan { df, projection } => scanned(alloc, at, df, projection, inputs, schema),
        IR::SimpleProjection { columns, .. } => {
            projected(alloc, at, columns.as_slice(), inputs, schema)
        }
        IR::Select { expr, .. } => selected(alloc, at, expr.as_slice(), exprs, inputs, schema),
        IR::HStack { exprs: added, .. } => {
            stacked(alloc, at, added.as_slice(), exprs, inputs, schema)
        }
        IR::Filter { predicate, .. } => filtered(alloc, at, predicate, exprs, inputs),
        IR::Slice { offset, len, .. } => sliced(alloc, at, offset, *len, inputs),
        IR::Sink { .. } => passed(alloc, at, inputs),
        IR::MapFunction { function, .. } => {
            mapped(alloc, at, function, functions, inputs, schema)
        }
        IR::Sort {
            by_column,
            slice,
            sort_options,
            ..
        } => sorted(
            alloc,
            at,
            by_column.as_slice(),
            *slice,
            sort_options,
            exprs,
            inputs,
        ),
        IR::Union { options, .. } => united(alloc, at, options.slice, inputs, schema),
        IR::HConcat { .. } => side_by_side(alloc, at, inputs, schema),
        IR::Cache { .. } => passed(alloc, at, inputs),
        IR::GroupBy {
            keys,
            aggs,
            options,
            ..
        } => grouped(
            alloc,
            at,
            keys.as_slice(),
            aggs.as_slice(),
            options.slice,
            exprs,
            inputs,
            schema,
        ),
        IR::Join {
            left_on,
            right_on,
            options,
            ..
        } => joined(
            alloc,
            at,
            left_on.as_slice(),
            right_on.as_slice(),
            options,
            exprs,
            inputs,
            schema,
        ),
        IR::Distinct { options, .. } => deduplicated(alloc, at, options, inputs),
        IR::LeftOut(_) => unreachable!(),
    }
}

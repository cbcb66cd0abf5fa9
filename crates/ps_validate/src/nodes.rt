// The schema of a node, and what the node is refused for.
ghost use Rattle.std.specs.Prelude.{◌≤◌, ◌+◌, ◌*◌, IfErr, IfOk};
ghost use Rattle.std.specs.List.{AllByRecursion};
ghost use Rattle.ps_frame.specs.Trees.{IsComplete, tree_at};
ghost use Rattle.ps_meaning.specs.PlanTrees.{all_sizes};
ghost use Rattle.ps_meaning.specs.Steps.{step_exprs};
ghost use Rattle.ps_plan.specs.Entries.{entry_inputs, entry_step};
ghost use Rattle.ps_validate.specs.Checks.{IsCheckError, IsChecked};
ghost use Rattle.ps_validate.specs.Fit.{IsWellFormed};
ghost use Rattle.valid_plans.specs.Known.{AreKnown, schemas_in};
ghost use Rattle.ps_validate.specs.Nodes.{GivesSchema, IsNodeError};

use crate::functions::function_schema;
use crate::joins::join_schema;
use crate::positions::{check_entry, check_place};
use crate::projections::{
    distinct_schema, named_distinct_schema, named_scan_schema, project_schema, scan_schema,
};
use crate::schemas::{filter_schema, group_by_schema, passed_schema, select_schema, sort_schema};
use crate::stacks::{hconcat_schema, hstack_schema, row_index_schema, union_schema};
use ps_frame::expr::AExpr;
use ps_frame::functions::Functions;
use ps_frame::refusal::PolarsResult;
use ps_frame::schema::Schema;
use ps_meaning::options::FunctionIR;
use ps_plan::ir::IR;
use pu_base::{Arena, Node, Steps};
use std::alloc::Global;
use std::sync::ledger::Ledger;
use valid_plans::table::Schemas;

// The schema of a node whose entry fits and whose inputs have known schemas.
fn node_schema<F: Functions, L: Ledger>(
    alloc: Global,
    at: Node,
    entry: &IR,
    exprs: &Arena<AExpr>,
    functions: &F,
    schemas: &Schemas,
    steps: &mut Steps<L>,
) -> PolarsResult<Schema>
    requires fit { IsWellFormed (F.told functions.now).count (entry_step (tree_at exprs.now.items) entry.now) (entry_inputs entry.now) }
    requires complete { AllByRecursion IsComplete (step_exprs (entry_step (tree_at exprs.now.items) entry.now)) }
    requires known { AreKnown schemas.now (entry_inputs entry.now) }
    ensures given { IfOk result (λ s. GivesSchema (F.told functions.now) (entry_step (tree_at exprs.now.items) entry.now) (schemas_in schemas.now (entry_inputs entry.now)) s) }
    ensures refused { IfErr result (λ e. IsNodeError (F.told functions.now) at (entry_step (tree_at exprs.now.items) entry.now) (schemas_in schemas.now (entry_inputs entry.now)) e) }
    ensures steps { steps.new ≤ steps.old + 2 * all_sizes (step_exprs (entry_step (tree_at exprs.now.items) entry.now)) }
{
    match entry {
        IR::DataFrameScan { df, projection } => match projection {
            None => scan_schema(alloc, at, df),
            Some(names) => named_scan_schema(alloc, at, df, names.as_slice()),
        },
        IR::SimpleProjection { input, columns } => {
            project_schema(alloc, at, columns.as_slice(), schemas.get(*input))
        }
        IR::Select { input, expr } => {
            select_schema(
                alloc,
                at,
                expr.as_slice(),
                exprs,
                schemas.get(*input),
                steps,
            )
        }
        IR::HStack {
            input,
            exprs: added,
        } => {
            hstack_schema(
                alloc,
                at,
                added.as_slice(),
                exprs,
                schemas.get(*input),
                steps,
            )
        }
        IR::Filter { input, predicate } => {
            filter_schema(alloc, at, predicate, exprs, schemas.get(*input), steps)
        }
        IR::Slice { input, .. } | IR::Sink { input, .. } | IR::Cache { input, .. } => {
            passed_schema(alloc, at, schemas.get(*input))
        }
        IR::MapFunction { input, function } => match function {
            FunctionIR::RowIndex { name, .. } => {
                row_index_schema(alloc, at, name, schemas.get(*input))
            }
            FunctionIR::User(n) => {
                function_schema(alloc, at, *n, functions, schemas.get(*input))
            }
        },
        IR::Sort {
            input,
            by_column,
            ..
        } => sort_schema(
            alloc,
            at,
            by_column.as_slice(),
            exprs,
            schemas.get(*input),
            steps,
        ),
        IR::Union { inputs, .. } => union_schema(alloc, at, inputs.as_slice(), schemas),
        IR::HConcat { inputs } => hconcat_schema(alloc, at, inputs.as_slice(), schemas),
        IR::GroupBy {
            input,
            keys,
            aggs,
            ..
        } => group_by_schema(
            alloc,
            at,
            keys.as_slice(),
            aggs.as_slice(),
            exprs,
            schemas.get(*input),
            steps,
        ),
        IR::Join {
            input_left,
            input_right,
            left_on,
            right_on,
            options,
        } => join_schema(
            alloc,
            at,
            left_on.as_slice(),
            right_on.as_slice(),
            options,
            exprs,
            schemas.get(*input_left),
            schemas.get(*input_right),
            steps,
        ),
        IR::Distinct { input, options } => match &options.subset {
            None => distinct_schema(alloc, at, schemas.get(*input)),
            Some(names) => {
                named_distinct_schema(alloc, at, names.as_slice(), schemas.get(*input))
            }
        },
        IR::LeftOut(_) => unreachable!(),
    }
}

/// The schema of a node whose inputs have known schemas, where nothing of the node is refused.
///
/// Any refusal that holds may be answered. Else it fails only for want of memory.
pub fn check_node<F: Functions, L: Ledger>(
    alloc: Global,
    root: Node,
    at: Node,
    entry: &IR,
    exprs: &Arena<AExpr>,
    functions: &F,
    schemas: &Schemas,
    steps: &mut Steps<L>,
) -> PolarsResult<Schema>
    requires complete { AllByRecursion IsComplete (step_exprs (entry_step (tree_at exprs.now.items) entry.now)) }
    requires known { AreKnown schemas.now (entry_inputs entry.now) }
    ensures checked { IfOk result (λ s. IsChecked (F.told functions.now) root at (entry_step (tree_at exprs.now.items) entry.now) (entry_inputs entry.now) (schemas_in schemas.now (entry_inputs entry.now)) s) }
    ensures refused { IfErr result (λ e. IsCheckError (F.told functions.now) root at (entry_step (tree_at exprs.now.items) entry.now) (entry_inputs entry.now) (schemas_in schemas.now (entry_inputs entry.now)) e) }
    ensures steps { steps.new ≤ steps.old + 2 * all_sizes (step_exprs (entry_step (tree_at exprs.now.items) entry.now)) }
{
    check_place(root, at, entry)?;
    check_entry(at, entry, functions.count())?;
    node_schema(alloc, at, entry, exprs, functions, schemas, steps)
}

//! The computation of a node of a valid plan.
ghost use Rattle.std.specs.Prelude.{◌≡◌, IfErr, IfOk};
ghost use Rattle.ps_plan.specs.Graph.{Reached};
ghost use Rattle.valid_plans.specs.Valid.{IsValidWith, plan_with};
ghost use Rattle.ps_walks.specs.Fit.{plan_schemas};
ghost use Rattle.ps_node_eval.specs.Nodes.{FitInputs, NodeFaults, NodeGives};

use crate::entry::evaluate_entry;
use ps_frame::expr::AExpr;
use ps_frame::frame::DataFrame;
use ps_frame::functions::Functions;
use ps_frame::refusal::PolarsResult;
use pu_base::{Arena, Node};
use std::alloc::Global;
use valid_plans::valid::Valid;

/// The table of a node that the root of a valid plan leads to, over the tables of its inputs: one for each in order,
/// under the schema of that input. The plan is valid with these expressions and functions. The table has the schema
/// of the node.
///
/// Fails by a fault that breaks the node over these tables, by `Rows` where a column or the table would have too many
/// rows, or for want of memory.
pub fn evaluate_node<F: Functions>(
    alloc: Global,
    node: Node,
    valid: &Valid,
    exprs: &Arena<AExpr>,
    functions: &F,
    inputs: &[DataFrame],
) -> PolarsResult<DataFrame>
    requires valid { IsValidWith (F.told functions.now) valid.now exprs.now.items }
    requires reached { Reached (plan_with valid.now exprs.now.items) node.0 }
    requires inputs { FitInputs (F.told functions.now) (plan_with valid.now exprs.now.items) node.0 inputs.now }
    ensures table { IfOk result (λ f. NodeGives (F.told functions.now) (plan_with valid.now exprs.now.items) node.0 inputs.now f) }
    ensures schema { IfOk result (λ f. f.schema ≡ plan_schemas (F.told functions.now) (plan_with valid.now exprs.now.items) node.0) }
    ensures fault { IfErr result (λ e. NodeFaults (F.told functions.now) (plan_with valid.now exprs.now.items) node.0 inputs.now e) }
{
    evaluate_entry(
        alloc,
        node,
        valid.ir().get(node),
        exprs,
        functions,
        inputs,
        valid.schema(node),
    )
}

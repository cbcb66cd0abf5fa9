// A valid plan of a select over a scan, and what it selects.
ghost use Rattle.std.specs.Prelude.{◌≡◌, IfOk, Some, slice_get};
ghost use Rattle.std.specs.List.{AllByRecursion};
ghost use Rattle.ps_frame.specs.Functions.{Functions};
ghost use Rattle.ps_frame.specs.Trees.{IsComplete, tree_at};
ghost use Rattle.ps_meaning.specs.Steps.{key_trees};
ghost use Rattle.ps_plan.specs.Graph.{Reached};
ghost use Rattle.valid_plans.specs.Valid.{IsValidWith, plan_with};
ghost use Rattle.lowering_trials.specs.Scanned.{ScansWhole, SelectsFrom, SelectsScan};

use ps_frame::expr::AExpr;
use ps_frame::frame::DataFrame;
use ps_meaning::options::ExprIR;
use ps_plan::ir::IR;
use ps_plan::walk::entry;
use pu_base::{Arena, Node};
use std::test::Fail;
use valid_plans::valid::Valid;

// The entry of a node that the root leads to.
fn entry_at<'a>(valid: &'a Valid, exprs: &Arena<AExpr>, node: Node) -> &'a IR
    requires valid { (F : Functions) × IsValidWith F valid.now exprs.now.items }
    requires reached { Reached (plan_with valid.now exprs.now.items) node.0 }
    ensures { slice_get valid.now.nodes node.0 ≡ Some result.now }
{
    entry(node, valid.ir(), exprs)
}

// The node below the sink.
fn below_sink(valid: &Valid, exprs: &Arena<AExpr>) -> Result<Node, Fail>
    requires { (F : Functions) × IsValidWith F valid.now exprs.now.items }
    ensures { IfOk result (λ n. Reached (plan_with valid.now exprs.now.items) n.0) }
{
    match entry_at(valid, exprs, valid.root()) {
        IR::Sink { input, .. } => Ok(*input),
        _ => Err(Fail::from("no sink")),
    }
}

// The expressions of a select, and the node that it reads.
fn select_at<'a>(
    valid: &'a Valid,
    exprs: &Arena<AExpr>,
    node: Node,
) -> Result<(&'a [ExprIR], Node), Fail>
    requires valid { (F : Functions) × IsValidWith F valid.now exprs.now.items }
    requires reached { Reached (plan_with valid.now exprs.now.items) node.0 }
    ensures { IfOk result (λ r. SelectsFrom (plan_with valid.now exprs.now.items) node.0 r.0.now r.1) }
{
    match entry_at(valid, exprs, node) {
        IR::Select { input, expr } => Ok((expr.as_slice(), *input)),
        _ => Err(Fail::from("no select")),
    }
}

// The table that a node scans whole.
fn table_at<'a>(valid: &'a Valid, exprs: &Arena<AExpr>, node: Node) -> Result<&'a DataFrame, Fail>
    requires valid { (F : Functions) × IsValidWith F valid.now exprs.now.items }
    requires reached { Reached (plan_with valid.now exprs.now.items) node.0 }
    ensures { IfOk result (λ df. ScansWhole (plan_with valid.now exprs.now.items) node.0 df.now) }
{
    match entry_at(valid, exprs, node) {
        IR::DataFrameScan {
            df,
            projection: None,
        } => Ok(df),
        _ => Err(Fail::from("no table")),
    }
}

/// What the select below the sink asks for, and the table that it scans.
pub fn select_of<'a>(
    valid: &'a Valid,
    exprs: &Arena<AExpr>,
) -> Result<(&'a [ExprIR], &'a DataFrame), Fail>
    requires { (F : Functions) × IsValidWith F valid.now exprs.now.items }
    ensures selects { IfOk result (λ r. SelectsScan (plan_with valid.now exprs.now.items) r.0.now r.1.now) }
    ensures whole { IfOk result (λ r. AllByRecursion IsComplete (key_trees (tree_at exprs.now.items) r.0.now)) }
{
    let select = below_sink(valid, exprs)?;
    let (asked, scan) = select_at(valid, exprs, select)?;
    let table = table_at(valid, exprs, scan)?;
    Ok((asked, table))
}

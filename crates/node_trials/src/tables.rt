//! The table of a node, computed with all that is below it.
ghost use Rattle.std.specs.Prelude.{◌≡◌, IfOk};
ghost use Rattle.ps_plan.specs.Graph.{Reached};
ghost use Rattle.ps_plan.specs.Entries.{entry_inputs};
ghost use Rattle.valid_plans.specs.Valid.{IsValidWith, plan_with};
ghost use Rattle.ps_walks.specs.Fit.{plan_schemas};

use ps_frame::expr::AExpr;
use ps_frame::frame::DataFrame;
use ps_frame::functions::Functions;
use ps_frame::refusal::{PolarsError, PolarsResult, Why};
use ps_node_eval::node::evaluate_node;
use ps_plan::ir::IR;
use pu_base::{Arena, Node};
use std::alloc::{AllocError, Global};
use valid_plans::valid::Valid;

// The nodes that an entry names, in order.
fn input_nodes(alloc: Global, entry: &IR) -> Result<Vec<Node>, AllocError>
    ensures { IfOk result (λ inputs. inputs.items ≡ entry_inputs entry.now) }
{
    entry.inputs().to_vec(alloc)
}

/// The table of a node that the root of a valid plan leads to, computed from the scans up. Nothing is followed deeper
/// than `depth`; where that does not suffice the plan is past its limits.
///
/// Fails as the computation of a node at or below this one does.
pub fn node_table<F: Functions>(
    alloc: Global,
    node: Node,
    valid: &Valid,
    exprs: &Arena<AExpr>,
    functions: &F,
    depth: usize,
) -> PolarsResult<DataFrame>
    requires valid { IsValidWith (F.told functions.now) valid.now exprs.now.items }
    requires reached { Reached (plan_with valid.now exprs.now.items) node.0 }
    ensures schema { IfOk result (λ f. f.schema ≡ plan_schemas (F.told functions.now) (plan_with valid.now exprs.now.items) node.0) }
{
    if depth == 0 {
        let why = Why::Limits;
        return Err(PolarsError::InvalidPlan { node, why });
    }
    let inputs = input_nodes(alloc, valid.ir().get(node))?;
    let mut tables = Vec::new(alloc);
    for input in &inputs {
        tables.push(node_table(alloc, *input, valid, exprs, functions, depth - 1)?)?;
    }
    evaluate_node(alloc, node, valid, exprs, functions, tables.as_slice())
}

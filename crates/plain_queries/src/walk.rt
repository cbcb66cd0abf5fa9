// The walk of a valid plan: each node that the root leads to is computed once, after its inputs.
ghost use Rattle.std.specs.Prelude.{◌≡◌, ◌≤◌, ◌<◌, IfErr, IfOk, get_or, length};
ghost use Rattle.std.specs.List.{All};
ghost use Rattle.ps_frame.specs.Tables.{whole};
ghost use Rattle.ps_plan.specs.Graph.{inputs_at};
ghost use Rattle.ps_meaning.specs.Meaning.{IsMeaning};
ghost use Rattle.ps_plan.specs.Plans.{tree_of};
ghost use Rattle.valid_plans.specs.Surveys.{IsSurvey};
ghost use Rattle.valid_plans.specs.Valid.{IsValidWith, plan_with};
ghost use Rattle.plain_queries.specs.Queries.{IsRunError};
ghost use Rattle.plain_queries.specs.Readers.{IsWantedUntil};

use crate::held_tables::HeldTables;
use crate::inputs::inputs_of;
use ps_frame::expr::AExpr;
use ps_frame::frame::DataFrame;
use ps_frame::functions::Functions;
use ps_frame::refusal::PolarsResult;
use ps_node_eval::node::evaluate_node;
use pu_base::{Arena, Node};
use std::alloc::Global;
use valid_plans::valid::Valid;

/// The table of a valid plan's root. A table is let go as soon as the last node that reads it has it.
///
/// Fails by a fault with which the plan may end, or for want of memory.
pub(crate) fn walk<F: Functions>(
    alloc: Global,
    valid: &Valid,
    exprs: &Arena<AExpr>,
    functions: &F,
    order: &[usize],
    until: &[usize],
) -> PolarsResult<DataFrame>
    requires valid { IsValidWith (F.told functions.now) valid.now exprs.now.items }
    requires survey { IsSurvey (plan_with valid.now exprs.now.items) order.now }
    requires size { length until.now ≡ length valid.now.nodes }
    requires wanted { IsWantedUntil (inputs_at (plan_with valid.now exprs.now.items)) order.now until.now }
    requires root { length order.now ≤ get_or until.now valid.now.root.0 0 }
    ensures table { IfOk result (λ f. IsMeaning (F.told functions.now) (tree_of (plan_with valid.now exprs.now.items) valid.now.root.0) (whole f)) }
    ensures fault { IfErr result (λ e. IsRunError (F.told functions.now) (plan_with valid.now exprs.now.items) e) }
{
    let mut tables = HeldTables::new(alloc, valid.ir().len())?;
    for (place, node) in order.iter().enumerate() {
        let node = Node(*node);
        let inputs = inputs_of(alloc, valid.ir().get(node))?;
        let given = tables.share_all(alloc, inputs.as_slice())?;
        tables.release(inputs.as_slice(), until, place);
        let table = evaluate_node(alloc, node, valid, exprs, functions, given.as_slice())?;
        tables.set(node, table);
    }
    tables.share(alloc, valid.root())
}

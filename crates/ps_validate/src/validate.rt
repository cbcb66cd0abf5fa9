//! The plan of a root, held against the rules for a valid plan.
ghost use Rattle.std.specs.Prelude.{◌≡◌, ◌+◌, ◌*◌, ◌≤◌, ℕ, IfErr, IfOk, OnOk, length};
ghost use Rattle.ps_frame.specs.declared.expr.AExpr.{AExpr};
ghost use Rattle.ps_frame.specs.declared.refusal.Why.{Why};
ghost use Rattle.ps_plan.specs.Graph.{Reached};
ghost use Rattle.ps_plan.specs.Refusals.{IsValid};
ghost use Rattle.ps_survey.specs.Counts.{all_names};
ghost use Rattle.ps_survey.specs.Flaws.{Flaw, plan_of};
ghost use Rattle.valid_plans.specs.Surveys.{IsSurvey};
ghost use Rattle.ps_walks.specs.Fit.{HasSchemas};
ghost use Rattle.ps_validate.specs.Fit.{HaveOneInput};
ghost use Rattle.valid_plans.specs.Valid.{HaveSchemas, IsValidWith};
ghost use Rattle.ps_validate.specs.Errors.{IsPlanError};

use crate::caches::check_caches;
use crate::nodes::check_node;
use ps_frame::expr::AExpr;
use ps_frame::functions::Functions;
use ps_frame::refusal::PolarsResult;
use ps_plan::ir::IR;
use ps_survey::survey::survey_plan;
use pu_base::{Arena, Node, Steps};
use std::alloc::Global;
use std::sync::ledger::Ledger;
use valid_plans::table::Schemas;
use valid_plans::valid::Valid;

// The schemas of nodes, each of which stands after its inputs.
fn node_schemas<F: Functions, L: Ledger>(
    alloc: Global,
    root: Node,
    order: &[usize],
    ir: &Arena<IR>,
    exprs: &Arena<AExpr>,
    functions: &F,
    steps: &mut Steps<L>,
) -> PolarsResult<Schemas>
    requires survey { IsSurvey (plan_of root ir.now.items exprs.now.items) order.now }
    requires flaws { (n : ℕ) (w : Why) → Reached (plan_of root ir.now.items exprs.now.items) n → ¬ Flaw (plan_of root ir.now.items exprs.now.items) n w }
    requires caches { HaveOneInput ir.now.items order.now }
    ensures valid { OnOk result (IsValid (F.told functions.now) (plan_of root ir.now.items exprs.now.items)) }
    ensures schemas { IfOk result (λ s. HaveSchemas (F.told functions.now) (plan_of root ir.now.items exprs.now.items) s) }
    ensures typed { OnOk result (HasSchemas (F.told functions.now) (plan_of root ir.now.items exprs.now.items)) }
    ensures refused { IfErr result (λ e. IsPlanError (F.told functions.now) (plan_of root ir.now.items exprs.now.items) e) }
    ensures steps { steps.new ≤ steps.old + 2 * 65536 }
{
    let mut schemas = Schemas::new(alloc, ir.len())?;
    for node in order {
        steps.tick();
        let at = Node(*node);
        let schema = check_node(
            alloc,
            root,
            at,
            ir.get(at),
            exprs,
            functions,
            &schemas,
            steps,
        )?;
        schemas.set(at, schema);
    }
    Ok(schemas)
}

/// The plan of a root, if it is valid.
///
/// A refusal stands for one that holds at a node which the root leads to; any one may be answered. Else it fails only
/// for want of memory. No function is called. It looks at each entry and each number that names one at most four
/// times, and at each of the 65536 nodes and expressions to which the root may unfold at most eight times.
pub fn validate<F: Functions, L: Ledger>(
    alloc: Global,
    root: Node,
    ir: Arena<IR>,
    exprs: &Arena<AExpr>,
    functions: &F,
    steps: &mut Steps<L>,
) -> PolarsResult<Valid>
    ensures root { IfOk result (λ v. v.root ≡ root) }
    ensures nodes { IfOk result (λ v. v.nodes ≡ ir.items) }
    ensures valid { IfOk result (λ v. IsValidWith (F.told functions.now) v exprs.now.items) }
    ensures refused { IfErr result (λ e. IsPlanError (F.told functions.now) (plan_of root ir.items exprs.now.items) e) }
    ensures steps { steps.new ≤ steps.old + 4 * (length ir.items + length exprs.now.items + all_names ir.items exprs.now.items) + 8 * 65536 }
{
    let survey = survey_plan(alloc, root, &ir, exprs, steps)?;
    check_caches(alloc, survey.order(), &ir, steps)?;
    let schemas = node_schemas(alloc, root, survey.order(), &ir, exprs, functions, steps)?;
    Ok(Valid::new(root, ir, schemas, survey.into_order()))
}

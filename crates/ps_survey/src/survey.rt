//! The survey of a plan: the nodes that its root leads to, in order, or a flaw.
ghost use Rattle.std.specs.Prelude.{◌≡◌, ◌↔◌, ◌+◌, ◌*◌, ◌≤◌, ◌⊎◌, ℕ, length, Contains, IfOk, IfErr, MatchResult};
ghost use Rattle.ps_frame.specs.Functions.{Functions};
ghost use Rattle.ps_frame.specs.declared.refusal.PolarsError.TheVariants as refusal;
ghost use Rattle.ps_frame.specs.declared.refusal.Why.{Why};
ghost use Rattle.ps_meaning.specs.Errors.{refusal_error};
ghost use Rattle.ps_plan.specs.Graph.{HasNoCircle, IsInRange, Reached};
ghost use Rattle.ps_meaning.specs.PlanTrees.{depth, occurrences};
ghost use Rattle.ps_plan.specs.Plans.{IsPlan, Plan, tree_of};
ghost use Rattle.ps_meaning.specs.StepRefusals.{invalid_plan};
ghost use Rattle.ps_plan.specs.Refusals.{IsRefused};
ghost use Rattle.ps_survey.specs.Counts.{all_names};
ghost use Rattle.ps_survey.specs.Flaws.{Flaw, IsFlawOrMemory, plan_of};
ghost use Rattle.ps_survey.specs.Orders.{inputs_in};
ghost use Rattle.valid_plans.specs.Surveys.{IsSurvey, NamedFirst, Once};

use crate::extents::expr_extents;
use crate::limits::check_limits;
use crate::orders::{order_exprs, order_nodes};
use ps_frame::expr::AExpr;
use ps_frame::refusal::PolarsResult;
use ps_plan::ir::IR;
use pu_base::{Arena, Node, Steps};
use std::alloc::Global;
use std::marker::Model;
use std::sync::ledger::Ledger;

/// The nodes that a plan's root leads to. Contracts see their numbers, each after those of its inputs.
#[derive(Drop)]
pub struct Survey {
    order: Vec<usize>,
}

impl Model for Survey {
    ghost use Rattle.std.specs.Prelude.{List, ℕ};

    ghost Value = { List ℕ };

    ghost view = { λ s. s.order.items };
}

impl Survey {
    /// The numbers of the nodes, each after those of its inputs.
    pub fn order(&self) -> &[usize]
        ensures { result.now ≡ self.now }
    {
        self.order.as_slice()
    }

    /// These numbers, no longer as a survey.
    pub fn into_order(self) -> Vec<usize>
        ensures { result.items ≡ self }
    {
        self.order
    }
}

/// The numbers of the nodes that a root leads to.
fn survey_order<L: Ledger>(
    alloc: Global,
    root: Node,
    ir: &Arena<IR>,
    exprs: &Arena<AExpr>,
    steps: &mut Steps<L>,
) -> PolarsResult<Vec<usize>>
    ensures survey { MatchResult result (λ order. IsSurvey (plan_of root ir.now.items exprs.now.items) order.items) (IsFlawOrMemory (plan_of root ir.now.items exprs.now.items)) }
    ensures steps { steps.new ≤ steps.old + 4 * (length ir.now.items + length exprs.now.items + all_names ir.now.items exprs.now.items) }
{
    // Matches and no `?`, here and below: so the clause of each error is handed on as it stands.
    let order = match order_nodes(alloc, root, ir, steps) {
        Ok(order) => order,
        Err(error) => return Err(error),
    };
    let named = match order_exprs(alloc, &order, ir, exprs, steps) {
        Ok(named) => named,
        Err(error) => return Err(error),
    };
    let extents = match expr_extents(alloc, &named, exprs, steps) {
        Ok(extents) => extents,
        Err(error) => return Err(error),
    };
    match check_limits(alloc, &order, &extents, ir, exprs, steps) {
        Ok(()) => Ok(order),
        Err(error) => Err(error),
    }
}

/// The nodes that a plan's root leads to, where no number is out of range, nothing reaches itself and no node is too deep or too large.
///
/// It looks at each entry and each number that names one at most four times, and its depth in the stack doesn't depend on the plan. A flaw is held against a reached node: any one that is there may be answered. Want of memory is the only other error.
pub fn survey_plan<L: Ledger>(
    alloc: Global,
    root: Node,
    ir: &Arena<IR>,
    exprs: &Arena<AExpr>,
    steps: &mut Steps<L>,
) -> PolarsResult<Survey>
    ensures reached { IfOk result (λ s. (n : ℕ) → Contains s n ↔ Reached (plan_of root ir.now.items exprs.now.items) n) }
    ensures once { IfOk result (λ s. Once s) }
    ensures inputs_first { IfOk result (λ s. NamedFirst (inputs_in ir.now.items) s) }
    ensures complete { IfOk result (λ _. (n : ℕ) → Reached (plan_of root ir.now.items exprs.now.items) n → IsPlan ir.now.items exprs.now.items (record { 0 = n })) }
    ensures in_range { IfOk result (λ _. (n : ℕ) → Reached (plan_of root ir.now.items exprs.now.items) n → IsInRange (plan_of root ir.now.items exprs.now.items) n) }
    ensures no_circle { IfOk result (λ _. (n : ℕ) → Reached (plan_of root ir.now.items exprs.now.items) n → HasNoCircle (plan_of root ir.now.items exprs.now.items) n) }
    ensures depth { IfOk result (λ _. (n : ℕ) → Reached (plan_of root ir.now.items exprs.now.items) n → depth (tree_of (plan_of root ir.now.items exprs.now.items) n) ≤ 256) }
    ensures occurrences { IfOk result (λ _. (n : ℕ) → Reached (plan_of root ir.now.items exprs.now.items) n → occurrences (tree_of (plan_of root ir.now.items exprs.now.items) n) ≤ 65536) }
    ensures no_flaw { IfOk result (λ _. (n : ℕ) (w : Why) → Reached (plan_of root ir.now.items exprs.now.items) n → ¬ Flaw (plan_of root ir.now.items exprs.now.items) n w) }
    ensures flaw { IfErr result (λ e. IsFlawOrMemory (plan_of root ir.now.items exprs.now.items) e) }
    ensures refused { IfErr result (λ e. (e ≡ refusal.OutOfMemory) ⊎ ((n : ℕ) × (w : Why) × (e ≡ refusal_error n (invalid_plan w)) × ((F : Functions) → IsRefused F (plan_of root ir.now.items exprs.now.items) n (invalid_plan w)))) }
    ensures steps { steps.new ≤ steps.old + 4 * (length ir.now.items + length exprs.now.items + all_names ir.now.items exprs.now.items) }
{
    // A match and no `?`: so the clause of the error is handed on as it stands.
    match survey_order(alloc, root, ir, exprs, steps) {
        Ok(order) => Ok(Survey { order }),
        Err(error) => Err(error),
    }
}

/// A flaw of a reached node is a refusal there, whatever the functions.
pub fn flaws_are_refused()
    ensures { (F : Functions) (plan : Plan) (n : ℕ) (w : Why) → Reached plan n → Flaw plan n w → IsRefused F plan n (invalid_plan w) }
{}

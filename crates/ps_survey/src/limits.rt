//! The nodes of a plan against the limits on their depth and their size.
ghost use Rattle.std.specs.Prelude.{◌≡◌, ◌+◌, ◌<◌, ◌≤◌, ◌⊎◌, suc, max, ℕ, length, sum_by, Contains, IfOk, IfErr};
ghost use Rattle.pu_base.specs.declared.arena.Node.{Node};
ghost use Rattle.ps_plan.specs.Graph.{HasNoCircle, Reached};
ghost use Rattle.ps_plan.specs.Plans.{IsPlan};
ghost use Rattle.ps_survey.specs.Counts.{looks_at};
ghost use Rattle.ps_survey.specs.Extents.{HasExtent, IsExtent, expr_depth, expr_size, largest, node_depth, node_size};
ghost use Rattle.valid_plans.specs.Surveys.{IsWithinLimits, NamedFirst};
ghost use Rattle.ps_survey.specs.Flaws.{IsFlawOrMemory, plan_of};
ghost use Rattle.ps_survey.specs.Orders.{all_in, exprs_in, inputs_in};

use crate::extents::{Extent, extent_below};
use crate::names::{Exprs, Inputs};
use ps_frame::expr::AExpr;
use ps_frame::refusal::{PolarsError, PolarsResult, Why};
use ps_plan::ir::IR;
use pu_base::{Arena, Node, Steps};
use std::alloc::Global;
use std::sync::ledger::Ledger;

/// The extent of a node, by those of its inputs and of its expressions.
fn node_extent<L: Ledger>(
    node: usize,
    inputs: &[Extent],
    own: &[Extent],
    nodes: &Arena<IR>,
    steps: &mut Steps<L>,
) -> Extent
    requires node { node < length nodes.now.items }
    requires inputs { (m : ℕ) → Contains (inputs_in nodes.now.items node) m → m < length inputs.now }
    requires own { (e : ℕ) → Contains (exprs_in nodes.now.items node) e → e < length own.now }
    ensures extent { (d s f t : ℕ → ℕ) → ((m : ℕ) → Contains (inputs_in nodes.now.items node) m → HasExtent inputs.now m (d m) (s m)) → ((e : ℕ) → Contains (exprs_in nodes.now.items node) e → HasExtent own.now e (f e) (t e)) → IsExtent (suc (max (largest f (exprs_in nodes.now.items node)) (largest d (inputs_in nodes.now.items node)))) (suc (sum_by t (exprs_in nodes.now.items node) + sum_by s (inputs_in nodes.now.items node))) result }
    ensures steps { steps.new ≡ steps.old + (length (inputs_in nodes.now.items node) + length (exprs_in nodes.now.items node)) }
{
    let below = extent_below(&Inputs { nodes }, node, inputs, steps);
    let beside = extent_below(&Exprs { nodes }, node, own, steps);
    beside.beside(below).above()
}

/// Holds the nodes, which stand after what they name, against the limits.
pub fn check_limits<L: Ledger>(
    alloc: Global,
    order: &[usize],
    own: &[Extent],
    nodes: &Arena<IR>,
    exprs: &Arena<AExpr>,
    steps: &mut Steps<L>,
) -> PolarsResult<()>
    requires complete { (n : ℕ) → Contains order.now n → IsPlan nodes.now.items exprs.now.items (record { 0 = n }) }
    requires first { NamedFirst (inputs_in nodes.now.items) order.now }
    requires own { (n e : ℕ) → Contains order.now n → Contains (exprs_in nodes.now.items n) e → HasExtent own.now e (expr_depth exprs.now.items e) (expr_size exprs.now.items e) }
    ensures within { IfOk result (λ _. (n : ℕ) → Contains order.now n → IsWithinLimits (node_depth nodes.now.items exprs.now.items n) (node_size nodes.now.items exprs.now.items n)) }
    ensures flaw { (root : Node) → ((n : ℕ) → Contains order.now n → Reached (plan_of root nodes.now.items exprs.now.items) n) → ((n : ℕ) → Contains order.now n → HasNoCircle (plan_of root nodes.now.items exprs.now.items) n) → IfErr result (IsFlawOrMemory (plan_of root nodes.now.items exprs.now.items)) }
    ensures steps { steps.new ≤ steps.old + looks_at (all_in nodes.now.items) order.now }
{
    // The clauses alone read the expressions.
    let _exprs = exprs;
    let mut table = match vec![in alloc; Extent::none(); nodes.len()] {
        Ok(table) => table,
        Err(_) => return Err(PolarsError::OutOfMemory),
    };
    for node in order {
        steps.tick();
        let extent = node_extent(*node, &table, own, nodes, steps);
        if extent.is_past_limits() {
            return Err(PolarsError::InvalidPlan {
                node: Node(*node),
                why: Why::Limits,
            });
        }
        table[*node] = extent;
    }
    Ok(())
}

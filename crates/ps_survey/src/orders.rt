//! The nodes that a root leads to, and the expressions that these name.
ghost use Rattle.std.specs.Prelude.{◌≡◌, ◌+◌, ◌*◌, ◌<◌, ◌≤◌, ◌⊎◌, ℕ, List, [], length, Contains, IfOk, IfErr, OnOk, MatchResult};
ghost use Rattle.ps_frame.specs.declared.expr.AExpr.{AExpr};
ghost use Rattle.ps_plan.specs.Graph.{Reached, exprs_at, inputs_at, operands, operands_at};
ghost use Rattle.ps_plan.specs.declared.ir.IR.{IR};
ghost use Rattle.pu_base.specs.declared.arena.Node.{Node};
ghost use Rattle.ps_plan.specs.Entries.{entry_exprs, entry_inputs};
ghost use Rattle.ps_frame.specs.declared.refusal.Why.TheVariants as why;
ghost use Rattle.ps_meaning.specs.Errors.{refusal_error};
ghost use Rattle.ps_plan.specs.Plans.{Plan};
ghost use Rattle.ps_meaning.specs.StepRefusals.{invalid_plan};
ghost use Rattle.ps_survey.specs.Counts.{looks_at, names_in};
ghost use Rattle.ps_survey.specs.Flaws.{IsFlaw, IsFlawOrMemory, plan_of};
ghost use Rattle.ps_survey.specs.Orders.{HasVisited, IsExprOrder, IsNodeOrder, exprs_in, operands_in};
ghost use Rattle.ps_survey.specs.Search.{AtRest, Ended, HasStopped, looks_left};
ghost use Rattle.valid_plans.specs.Surveys.{Once};

use crate::names::{Exprs, Inputs, Operands};
use crate::search::{Names, Search, Stop, order_from};
use ps_frame::expr::AExpr;
use ps_frame::refusal::{PolarsError, PolarsResult, Why};
use ps_plan::ir::IR;
use pu_base::{Arena, Node, Steps};
use std::alloc::Global;
use std::sync::ledger::Ledger;

/// The error of a flaw in a node's shape.
fn misshapen(node: usize) -> PolarsError
    ensures { result ≡ refusal_error node (invalid_plan why.Shape) }
{
    PolarsError::InvalidPlan {
        node: Node(node),
        why: Why::Shape,
    }
}

/// The error of a search over nodes that stopped.
fn stopped(stop: Stop) -> PolarsError
    ensures { (plan : Plan) → HasStopped (inputs_at plan) (length plan.nodes) plan.root.0 stop → IsFlawOrMemory plan result }
{
    match stop {
        Stop::Missing(node) => misshapen(node),
        Stop::Circle(node) => misshapen(node),
        Stop::OutOfMemory => PolarsError::OutOfMemory,
    }
}

/// The nodes that a root leads to.
pub fn order_nodes<L: Ledger>(
    alloc: Global,
    root: Node,
    nodes: &Arena<IR>,
    steps: &mut Steps<L>,
) -> PolarsResult<Vec<usize>>
    ensures order { (exprs : List AExpr) → MatchResult result (λ order. IsNodeOrder (plan_of root nodes.now.items exprs) order.items) (IsFlawOrMemory (plan_of root nodes.now.items exprs)) }
    ensures steps { steps.new ≤ steps.old + 2 * length nodes.now.items + names_in entry_inputs nodes.now.items }
{
    if root.0 >= nodes.len() {
        return Err(misshapen(root.0));
    }
    match order_from(alloc, &Inputs { nodes }, root.0, steps) {
        Ok(order) => Ok(order),
        Err(stop) => Err(stopped(stop)),
    }
}

/// The error of a search over the expressions of a node that stopped.
fn stopped_below(node: usize, stop: Stop) -> PolarsError
    ensures { (plan : Plan) (expr : ℕ) → Reached plan node → Contains (exprs_at plan node) expr → HasStopped (operands_at plan) (length plan.exprs) expr stop → IsFlawOrMemory plan result }
{
    match stop {
        Stop::Missing(_) => misshapen(node),
        Stop::Circle(_) => misshapen(node),
        Stop::OutOfMemory => PolarsError::OutOfMemory,
    }
}

/// Goes on to an expression that a node names.
fn visit_expr<L: Ledger>(
    search: &mut Search,
    node: usize,
    expr: usize,
    exprs: &Arena<AExpr>,
    steps: &mut Steps<L>,
) -> PolarsResult<()>
    requires size { length search.old.marks.items ≡ length exprs.now.items }
    requires trail { search.old.trail.items ≡ [] }
    requires rest { AtRest (operands_in exprs.now.items) search.old.order.items search.old.marks.items }
    ensures size { length search.new.marks.items ≡ length exprs.now.items }
    ensures trail { OnOk result (search.new.trail.items ≡ []) }
    ensures done { IfOk result (λ _. Ended (operands_in exprs.now.items) expr search.old.order.items search.new.order.items search.new.marks.items) }
    ensures flaw { (root : Node) (nodes : List IR) → Reached (plan_of root nodes exprs.now.items) node → Contains (exprs_in nodes node) expr → IfErr result (IsFlawOrMemory (plan_of root nodes exprs.now.items)) }
    ensures steps { MatchResult result (λ _. steps.new + looks_left (operands_in exprs.now.items) 0 search.new.marks.items ≤ steps.old + looks_left (operands_in exprs.now.items) 0 search.old.marks.items) (λ _. steps.new ≤ steps.old + looks_left (operands_in exprs.now.items) 0 search.old.marks.items) }
{
    if expr >= exprs.len() {
        return Err(misshapen(node));
    }
    match search.visit(&Operands { exprs }, expr, steps) {
        Ok(()) => Ok(()),
        Err(stop) => Err(stopped_below(node, stop)),
    }
}

/// Goes on to each expression that a node names.
fn visit_exprs<L: Ledger>(
    search: &mut Search,
    node: usize,
    nodes: &Arena<IR>,
    exprs: &Arena<AExpr>,
    steps: &mut Steps<L>,
) -> PolarsResult<()>
    requires node { node < length nodes.now.items }
    requires size { length search.old.marks.items ≡ length exprs.now.items }
    requires trail { search.old.trail.items ≡ [] }
    requires rest { AtRest (operands_in exprs.now.items) search.old.order.items search.old.marks.items }
    ensures size { length search.new.marks.items ≡ length exprs.now.items }
    ensures trail { OnOk result (search.new.trail.items ≡ []) }
    ensures done { IfOk result (λ _. HasVisited (operands_in exprs.now.items) (exprs_in nodes.now.items node) search.old.order.items search.new.order.items search.new.marks.items) }
    ensures flaw { (root : Node) → Reached (plan_of root nodes.now.items exprs.now.items) node → IfErr result (IsFlawOrMemory (plan_of root nodes.now.items exprs.now.items)) }
    ensures steps { MatchResult result (λ _. steps.new + looks_left (operands_in exprs.now.items) 0 search.new.marks.items ≤ steps.old + looks_left (operands_in exprs.now.items) 0 search.old.marks.items + length (exprs_in nodes.now.items node)) (λ _. steps.new ≤ steps.old + looks_left (operands_in exprs.now.items) 0 search.old.marks.items + length (exprs_in nodes.now.items node)) }
{
    let own = Exprs { nodes };
    let mut place = 0;
    while let Some(expr) = own.name(node, place) {
        steps.tick();
        // A match and no `?`: so the clause of the error is handed on as it stands.
        match visit_expr(search, node, expr, exprs, steps) {
            Ok(()) => place += 1,
            Err(error) => return Err(error),
        }
    }
    Ok(())
}

/// The expressions that some nodes name.
pub fn order_exprs<L: Ledger>(
    alloc: Global,
    order: &[usize],
    nodes: &Arena<IR>,
    exprs: &Arena<AExpr>,
    steps: &mut Steps<L>,
) -> PolarsResult<Vec<usize>>
    requires { (n : ℕ) → Contains order.now n → n < length nodes.now.items }
    ensures exprs { (root : Node) → ((n : ℕ) → Contains order.now n → Reached (plan_of root nodes.now.items exprs.now.items) n) → MatchResult result (λ es. IsExprOrder (plan_of root nodes.now.items exprs.now.items) order.now es.items) (IsFlawOrMemory (plan_of root nodes.now.items exprs.now.items)) }
    ensures steps { steps.new ≤ steps.old + (2 * length exprs.now.items + names_in operands exprs.now.items) + looks_at (exprs_in nodes.now.items) order.now }
{
    let mut search = match Search::new(alloc, exprs.len()) {
        Ok(search) => search,
        Err(_) => return Err(PolarsError::OutOfMemory),
    };
    for node in order {
        steps.tick();
        // A match and no `?`: so the clause of the error is handed on as it stands.
        match visit_exprs(&mut search, *node, nodes, exprs, steps) {
            Ok(()) => {}
            Err(error) => return Err(error),
        }
    }
    Ok(search.into_order())
}

//! The physical plan of a query.
ghost use Rattle.std.specs.Prelude.{◌≡◌, ◌<◌, IfErr, IfOk, IsSome, OnOk};
ghost use Rattle.keyed_slots.specs.Slots.{value_at};
ghost use Rattle.lowering_parts.specs.Gathered.{Begins};
ghost use Rattle.physical_plans.specs.PhysicalPlans.{IsPhysicalPlan};
ghost use Rattle.plan_lowering.specs.Few.{AreFew};
ghost use Rattle.plan_lowering.specs.There.{IsReadOnce};
ghost use Rattle.ps_copies.specs.Copies.{KeepsTrees};
ghost use Rattle.ps_frame.specs.Trees.{Tree, tree_at};
ghost use Rattle.ps_phys.specs.Shown.{ReadsWhatIsThere, nodes_of, shown};
ghost use Rattle.ps_plan.specs.Refusals.{IsValid};
ghost use Rattle.ps_survey.specs.Flaws.{plan_of};
ghost use Rattle.ps_validate.specs.Errors.{IsPlanError};
ghost use Rattle.valid_plans.specs.Valid.{IsValidWith};
ghost use Rattle.pu_base.specs.declared.arena.Node.{Node as ANode};

use keyed_slots::SlotMap;
use plan_lowering::physical::build_physical_plan;
use ps_frame::expr::AExpr;
use ps_frame::functions::Functions;
use ps_frame::refusal::PolarsResult;
use ps_phys::phys::{PhysNode, PhysNodeKey};
use ps_plan::ir::IR;
use ps_validate::validate::validate;
use pu_base::{Arena, Node, Steps};
use std::alloc::Global;
use std::marker::Brand;
use std::sync::ledger::{Blank, Ledger};
use valid_plans::valid::Valid;

/// The physical nodes of a plan and the key of their root, if the plan is valid: the nodes that the root reaches are those
/// that the rules of lowering give, and no stream has two readers among them. There are fewer than 2^31 nodes, and they
/// have fewer than 2^31 inputs in all. No function is called; each is asked whether it streams.
///
/// Takes the root, the nodes and the expressions of a plan; the expressions stay as they are, and some may be added. Fails
/// by a refusal of the plan if it isn't valid, else only for want of memory, also where there would be more nodes or inputs.
pub fn plan_query<F: Functions>(
    alloc: Global,
    node: Node,
    ir_arena: Arena<IR>,
    expr_arena: &mut Arena<AExpr>,
    functions: &F,
) -> PolarsResult<(SlotMap<PhysNodeKey, PhysNode>, PhysNodeKey)>
    ensures valid { OnOk result (IsValid (F.told functions.now) (plan_of node ir_arena.items expr_arena.old.items)) }
    ensures plan { IfOk result (λ r. IsPhysicalPlan (F.told functions.now) (plan_of node ir_arena.items expr_arena.old.items) (shown (tree_at expr_arena.new.items) r.0.slots r.1.0)) }
    ensures root { IfOk result (λ r. IsSome (value_at r.0.slots r.1.0)) }
    ensures whole { IfOk result (λ r. ReadsWhatIsThere r.0.slots) }
    ensures once { (f : ANode → Tree) → IfOk result (λ r. IsReadOnce r.1.0 (nodes_of f r.0.slots)) }
    ensures few { (f : ANode → Tree) → IfOk result (λ r. AreFew (nodes_of f r.0.slots)) }
    ensures refused { IfErr result (IsPlanError (F.told functions.now) (plan_of node ir_arena.items expr_arena.old.items)) }
    ensures entries { Begins expr_arena.old.items expr_arena.new.items }
    ensures kept { KeepsTrees expr_arena.old.items expr_arena.new.items }
{
    // Matches and no `?`: so the clause of each error is handed on as it stands.
    match valid_plan::<F, Brand>(alloc, Blank::new(1), node, ir_arena, expr_arena, functions) {
        Ok(valid) => build_physical_plan(alloc, &valid, expr_arena, functions),
        Err(error) => Err(error),
    }
}

// The plan, if it is valid.
fn valid_plan<F: Functions, L: Ledger>(
    alloc: Global,
    blank: Blank,
    root: Node,
    ir: Arena<IR>,
    exprs: &Arena<AExpr>,
    functions: &F,
) -> PolarsResult<Valid>
    requires name { blank.name ≡ L.name }
    requires parts { blank.parts ≡ L.parts }
    requires some { 0 < L.parts }
    ensures root { IfOk result (λ v. v.root ≡ root) }
    ensures nodes { IfOk result (λ v. v.nodes ≡ ir.items) }
    ensures valid { IfOk result (λ v. IsValidWith (F.told functions.now) v exprs.now.items) }
    ensures refused { IfErr result (IsPlanError (F.told functions.now) (plan_of root ir.items exprs.now.items)) }
{
    let mut steps = Steps::<L>::new(blank);
    // A match and no `?`: so the clause of the error is handed on as it stands.
    match validate(alloc, root, ir, exprs, functions, &mut steps) {
        Ok(valid) => Ok(valid),
        Err(error) => Err(error),
    }
}

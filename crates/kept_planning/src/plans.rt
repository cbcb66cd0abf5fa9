//! The physical plan of a plan, with its promise: it is sound, and it means what the plan means.
ghost use Rattle.std.specs.Prelude.{◌≡◌, ◌-◌, Err, IfErr, IfOk, IsSome, OnErr, OnOk, length};
ghost use Rattle.keyed_slots.specs.Slots.{value_at};
ghost use Rattle.lowering_parts.specs.Gathered.{Begins, Later};
ghost use Rattle.physical_laws.specs.Premises.{KeepsSteps};
ghost use Rattle.physical_plans.specs.PhysicalPlans.{IsPhysicalPlan};
ghost use Rattle.plan_lowering.specs.Few.{AreFew};
ghost use Rattle.ps_copies.specs.Copies.{KeepsTrees};
ghost use Rattle.ps_frame.specs.Trees.{Tree, tree_at};
ghost use Rattle.ps_frame.specs.declared.refusal.PolarsError.{PolarsError};
ghost use Rattle.ps_meaning.specs.Sound.{HasOneReaderEach, IsSound};
ghost use Rattle.ps_phys.specs.Shown.{ReadsWhatIsThere, nodes_of, shown};
ghost use Rattle.ps_plan.specs.Lowering.{IsLoweringOf};
ghost use Rattle.ps_plan.specs.Refusals.{IsValid};
ghost use Rattle.ps_survey.specs.Flaws.{plan_of};
ghost use Rattle.ps_validate.specs.Errors.{IsPlanError};
ghost use Rattle.valid_plans.specs.Valid.{IsValidWith, plan_with};
ghost use Rattle.within_arenas.specs.Lowering.{IsLoweringOrLarge};
ghost use Rattle.pu_base.specs.declared.arena.Node.{Node as ANode};

use keyed_slots::SlotMap;
use physical_laws::laws::{physical_plans_are_lowerings, physical_plans_are_sound};
use plan_lowering::physical::build_physical_plan as build_by_rule;
use plan_queries::query::plan_query as query_by_rule;
use ps_frame::expr::AExpr;
use ps_frame::functions::Functions;
use ps_frame::refusal::PolarsResult;
use ps_phys::phys::{PhysNode, PhysNodeKey};
use ps_plan::ir::IR;
use pu_base::{Arena, Node};
use scanned_tables::tables::tables_fit;
use std::alloc::Global;
use valid_plans::valid::Valid;
use valid_within::laws::valid_plans_stay_within;

/// The physical nodes of a valid plan, and the key of its root: the nodes that the root reaches are those that the rules
/// of lowering give, and they are sound; each of their ports has exactly one reader. There are fewer than 2^31 nodes, and
/// they have fewer than 2^31 inputs in all. Of the functions it asks whether one streams, and calls none.
///
/// They mean what the plan means: each table of the last one, which is the root, is within one that the plan's root means
/// under some choice; a cause that a node shows and that was made at its origin breaks the plan's node of that number, unless
/// some table at or under that one is large; and where a node is large the plan's node is. Where each call that the plan makes
/// keeps its step, no such case is needed.
///
/// What stood in the arena stands after every answer. Fails only for want of memory, also where there would be more nodes
/// or inputs; expressions may then have been added.
pub fn build_physical_plan<F: Functions>(
    alloc: Global,
    valid: &Valid,
    expr_arena: &mut Arena<AExpr>,
    functions: &F,
) -> PolarsResult<(SlotMap<PhysNodeKey, PhysNode>, PhysNodeKey)>
    requires { IsValidWith (F.told functions.now) valid.now expr_arena.old.items }
    ensures plan { IfOk result (λ r. Later expr_arena.new.items (λ f. IsPhysicalPlan (F.told functions.now) (plan_with valid.now expr_arena.old.items) (shown f r.0.slots r.1.0))) }
    ensures readers { IfOk result (λ r. Later expr_arena.new.items (λ f. HasOneReaderEach (shown f r.0.slots r.1.0))) }
    ensures sound { IfOk result (λ r. Later expr_arena.new.items (λ f. IsSound (F.told functions.now) (shown f r.0.slots r.1.0))) }
    ensures means { IfOk result (λ r. Later expr_arena.new.items (λ f. IsLoweringOrLarge (F.told functions.now) (plan_with valid.now expr_arena.old.items) (shown f r.0.slots r.1.0) (length (shown f r.0.slots r.1.0) - 1))) }
    ensures lowering { KeepsSteps (F.told functions.now) (plan_with valid.now expr_arena.old.items) → IfOk result (λ r. Later expr_arena.new.items (λ f. IsLoweringOf (F.told functions.now) (plan_with valid.now expr_arena.old.items) (shown f r.0.slots r.1.0) (length (shown f r.0.slots r.1.0) - 1))) }
    ensures root { IfOk result (λ r. IsSome (value_at r.0.slots r.1.0)) }
    ensures whole { IfOk result (λ r. ReadsWhatIsThere r.0.slots) }
    ensures few { (f : ANode → Tree) → IfOk result (λ r. AreFew (nodes_of f r.0.slots)) }
    ensures entries { Begins expr_arena.old.items expr_arena.new.items }
    ensures kept { KeepsTrees expr_arena.old.items expr_arena.new.items }
    ensures memory { OnErr result (result ≡ Err PolarsError.OutOfMemory) }
{
    // Laws, from which the promise comes.
    tables_fit(valid.ir());
    physical_plans_are_sound();
    physical_plans_are_lowerings();
    valid_plans_stay_within();
    build_by_rule(alloc, valid, expr_arena, functions)
}

/// The physical nodes of a plan and the key of their root, if the plan is valid, with the same promise. No function is
/// called; each is asked whether it streams.
///
/// Takes the root, the nodes and the expressions of a plan; the expressions stay as they are, and some may be added. Fails
/// by a refusal of the plan if it isn't valid, else only for want of memory, also where there would be more nodes or inputs.
pub fn plan_query<F: Functions>(
    alloc: Global,
    node: Node,
    ir_arena: Arena<IR>,
    expr_arena: &mut Arena<AExpr>,
    functions: &F,
) -> PolarsResult<(SlotMap<PhysNodeKey, PhysNode>, PhysNodeKey)>
    ensures valid { OnOk result (IsValid (F.told functions.now) (plan_of node ir_arena.items expr_arena.old.items)) }
    ensures plan { IfOk result (λ r. IsPhysicalPlan (F.told functions.now) (plan_of node ir_arena.items expr_arena.old.items) (shown (tree_at expr_arena.new.items) r.0.slots r.1.0)) }
    ensures readers { IfOk result (λ r. HasOneReaderEach (shown (tree_at expr_arena.new.items) r.0.slots r.1.0)) }
    ensures sound { IfOk result (λ r. IsSound (F.told functions.now) (shown (tree_at expr_arena.new.items) r.0.slots r.1.0)) }
    ensures means { IfOk result (λ r. IsLoweringOrLarge (F.told functions.now) (plan_of node ir_arena.items expr_arena.old.items) (shown (tree_at expr_arena.new.items) r.0.slots r.1.0) (length (shown (tree_at expr_arena.new.items) r.0.slots r.1.0) - 1)) }
    ensures lowering { KeepsSteps (F.told functions.now) (plan_of node ir_arena.items expr_arena.old.items) → IfOk result (λ r. IsLoweringOf (F.told functions.now) (plan_of node ir_arena.items expr_arena.old.items) (shown (tree_at expr_arena.new.items) r.0.slots r.1.0) (length (shown (tree_at expr_arena.new.items) r.0.slots r.1.0) - 1)) }
    ensures root { IfOk result (λ r. IsSome (value_at r.0.slots r.1.0)) }
    ensures whole { IfOk result (λ r. ReadsWhatIsThere r.0.slots) }
    ensures few { (f : ANode → Tree) → IfOk result (λ r. AreFew (nodes_of f r.0.slots)) }
    ensures refused { IfErr result (IsPlanError (F.told functions.now) (plan_of node ir_arena.items expr_arena.old.items)) }
    ensures entries { Begins expr_arena.old.items expr_arena.new.items }
    ensures kept { KeepsTrees expr_arena.old.items expr_arena.new.items }
{
    tables_fit(&ir_arena);
    physical_plans_are_sound();
    physical_plans_are_lowerings();
    valid_plans_stay_within();
    query_by_rule(alloc, node, ir_arena, expr_arena, functions)
}

//! Laws of physical plans, as theorems of functions that do nothing.
ghost use Rattle.std.specs.Prelude.{◌-◌, length};
ghost use Rattle.ps_frame.specs.Functions.{Functions, IsLawful};
ghost use Rattle.ps_meaning.specs.Shape.{Shape};
ghost use Rattle.ps_plan.specs.Graph.{EachReached};
ghost use Rattle.ps_plan.specs.Lowering.{IsLoweringOf};
ghost use Rattle.ps_plan.specs.Plans.{Plan, tree_of};
ghost use Rattle.ps_plan.specs.Refusals.{IsValid};
ghost use Rattle.rule_parts.specs.Good.{HoldsTable};
ghost use Rattle.physical_plans.specs.PhysicalPlans.{IsPhysicalPlan};
ghost use Rattle.physical_laws.specs.Premises.{KeepsSteps};
ghost use Rattle.plans_keep.specs.Kinds.{IsOfKeptKinds};

/// Each call that a valid plan of steps of kept kinds makes keeps its step. So its physical plan is a lowering of it,
/// where the rows of each table that the plan scans fit its schema, in which names differ.
pub fn valid_plans_are_kept()
    ensures steps { (F : Functions) (plan : Plan) → IsValid F plan → IsOfKeptKinds F (tree_of plan plan.root.0) → KeepsSteps F plan }
    ensures lowering { (F : Functions) (plan : Plan) (shape : Shape) → IsLawful F → IsValid F plan → EachReached HoldsTable plan → IsOfKeptKinds F (tree_of plan plan.root.0) → IsPhysicalPlan F plan shape → IsLoweringOf F plan shape (length shape - 1) }
{}

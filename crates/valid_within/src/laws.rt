//! Laws of physical plans, as theorems of functions that do nothing.
ghost use Rattle.std.specs.Prelude.{◌-◌, length};
ghost use Rattle.ps_frame.specs.Functions.{Functions, IsLawful};
ghost use Rattle.ps_meaning.specs.Shape.{Shape};
ghost use Rattle.ps_plan.specs.Graph.{EachReached};
ghost use Rattle.ps_plan.specs.Plans.{Plan};
ghost use Rattle.ps_plan.specs.Refusals.{IsValid};
ghost use Rattle.physical_plans.specs.PhysicalPlans.{IsPhysicalPlan};
ghost use Rattle.rule_parts.specs.Good.{HoldsTable};
ghost use Rattle.within_arenas.specs.Lowering.{IsLoweringOrLarge};

/// The physical plan of a valid plan is a lowering of it, whatever its steps are and however large its tables, where the rows of each table that it scans fit its schema, in which names differ. Each table of its last node lies within one that the plan's root means under some choice, so a whole one is one of these. A cause that a node shows and that was made at its origin breaks the plan's node of that number, unless some table at or under that one is large; and where a node is large that one is.
pub fn valid_plans_stay_within()
    ensures { (F : Functions) (plan : Plan) (shape : Shape) → IsLawful F → IsValid F plan → EachReached HoldsTable plan → IsPhysicalPlan F plan shape → IsLoweringOrLarge F plan shape (length shape - 1) }
{}

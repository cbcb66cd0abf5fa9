//! What a physical plan of a plan in arenas is, as theorems of functions that do nothing.
ghost use Rattle.std.specs.Prelude.{◌≡◌};
ghost use Rattle.ps_frame.specs.Functions.{Functions};
ghost use Rattle.ps_meaning.specs.Shape.{Shape};
ghost use Rattle.ps_plan.specs.Plans.{Plan};
ghost use Rattle.physical_plans.specs.PhysicalPlans.{IsPhysicalPlan};
ghost use Rattle.physical_plans.specs.Worked.{physical_sum_beside_b, sum_beside_b};

/// The physical plan of a sum beside a column.
pub fn physical_plan_of_a_sum()
    ensures { (F : Functions) → IsPhysicalPlan F sum_beside_b physical_sum_beside_b }
{}

/// A plan has at most one physical plan.
pub fn one_physical_plan()
    ensures { (F : Functions) (plan : Plan) (shape other : Shape) → IsPhysicalPlan F plan shape → IsPhysicalPlan F plan other → shape ≡ other }
{}

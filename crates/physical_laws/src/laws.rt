//! Laws of physical plans, as theorems of functions that do nothing.
ghost use Rattle.std.specs.Prelude.{◌-◌, length};
ghost use Rattle.ps_frame.specs.Functions.{Functions, IsLawful};
ghost use Rattle.ps_meaning.specs.Shape.{Shape};
ghost use Rattle.ps_meaning.specs.Sound.{HasOneReaderEach, IsSound};
ghost use Rattle.ps_plan.specs.Graph.{EachReached};
ghost use Rattle.ps_plan.specs.Lowering.{IsLoweringOf};
ghost use Rattle.ps_plan.specs.Plans.{Plan, tree_of};
ghost use Rattle.ps_plan.specs.Refusals.{IsValid};
ghost use Rattle.arena_keeps.specs.Covered.{IsCovered};
ghost use Rattle.physical_plans.specs.PhysicalPlans.{IsPhysicalPlan};
ghost use Rattle.physical_laws.specs.Premises.{KeepsSteps};
ghost use Rattle.rule_parts.specs.Good.{HoldsTable};

use multiplexer_laws::laws::{each_port_has_one_reader, sound_nodes_are_shared_soundly};

/// In the physical plan of a valid plan each port has exactly one reader; and where the rows of each table that the plan scans fit its schema, in which names differ, the physical plan is sound.
pub fn physical_plans_are_sound()
    ensures readers { (F : Functions) (plan : Plan) (shape : Shape) → IsValid F plan → IsPhysicalPlan F plan shape → HasOneReaderEach shape }
    ensures sound { (F : Functions) (plan : Plan) (shape : Shape) → IsValid F plan → EachReached HoldsTable plan → IsPhysicalPlan F plan shape → IsSound F shape }
{
    // Laws of multiplexers; they do nothing.
    each_port_has_one_reader();
    sound_nodes_are_shared_soundly();
}

/// And it is a lowering of the plan, where each call keeps its step too: each table of its last node is within one that the plan's root means under some choice, a cause that a node shows and that was made at its origin breaks the plan's node of that number, and where a node is large the plan's node is. Of a plan of covered steps each call keeps its step.
pub fn physical_plans_are_lowerings()
    ensures kept { (F : Functions) (plan : Plan) (shape : Shape) → IsLawful F → IsValid F plan → EachReached HoldsTable plan → KeepsSteps F plan → IsPhysicalPlan F plan shape → IsLoweringOf F plan shape (length shape - 1) }
    ensures covered { (F : Functions) (plan : Plan) (shape : Shape) → IsLawful F → IsValid F plan → EachReached HoldsTable plan → IsCovered F (tree_of plan plan.root.0) → IsPhysicalPlan F plan shape → IsLoweringOf F plan shape (length shape - 1) }
{}

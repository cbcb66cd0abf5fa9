//! Laws of lowering valid plans, as theorems of functions that do nothing.
ghost use Rattle.std.specs.Prelude.{ℕ};
ghost use Rattle.ps_frame.specs.Functions.{Functions, IsLawful};
ghost use Rattle.ps_meaning.specs.PlanTrees.{PlanTree};
ghost use Rattle.ps_meaning.specs.Sound.{IsSoundButForReaders};
ghost use Rattle.ps_plan.specs.Lowering.{IsLoweringOf};
ghost use Rattle.ps_plan.specs.Plans.{Plan, tree_of};
ghost use Rattle.ps_plan.specs.Refusals.{IsValid};
ghost use Rattle.plan_laws.specs.Laws.{StandsOver};
ghost use Rattle.ps_rules.specs.Names.{Names};
ghost use Rattle.plan_rules.specs.Plans.{lowering_of, nothing_yet};
ghost use Rattle.plan_keeps.specs.Kept.{IsKeptPlan};
ghost use Rattle.arena_keeps.specs.Covered.{IsCovered};

/// Where each call that a valid plan makes keeps its step and the nodes are sound, they are a lowering of the plan: each table of the stream's node is within one that the plan's root means under some choice, a cause that a node shows and that was made at its origin breaks the plan's node of that number, and where a node is large the plan's node is.
pub fn valid_plans_are_lowered()
    ensures kept { (F : Functions) (plan : Plan) (names : Names) → IsLawful F → IsValid F plan → IsKeptPlan F (tree_of plan plan.root.0) (nothing_yet names) → let l = lowering_of F names (tree_of plan plan.root.0) in IsSoundButForReaders F l.progress.state.nodes → IsLoweringOf F plan l.progress.state.nodes l.stream.0 }
    ensures covered { (F : Functions) (plan : Plan) (names : Names) → IsLawful F → IsValid F plan → IsCovered F (tree_of plan plan.root.0) → let l = lowering_of F names (tree_of plan plan.root.0) in IsSoundButForReaders F l.progress.state.nodes → IsLoweringOf F plan l.progress.state.nodes l.stream.0 }
{}

/// Each call that a plan of covered steps makes keeps its step, where caches of one id stand over one tree.
pub fn covered_plans_are_kept()
    ensures { (F : Functions) (stored : ℕ → PlanTree) (t : PlanTree) (names : Names) → StandsOver stored t → IsCovered F t → IsKeptPlan F t (nothing_yet names) }
{}

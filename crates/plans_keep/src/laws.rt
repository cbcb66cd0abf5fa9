//! Laws of lowering whole plans, as theorems of functions that do nothing.
ghost use Rattle.std.specs.Prelude.{◌≤◌, ◌^◌, ℕ};
ghost use Rattle.ps_frame.specs.Functions.{Functions};
ghost use Rattle.ps_meaning.specs.PlanTrees.{PlanTree};
ghost use Rattle.plan_laws.specs.Laws.{StandsOver};
ghost use Rattle.ps_rules.specs.Names.{Names};
ghost use Rattle.plan_rules.specs.Plans.{lowering_of, nothing_yet};
ghost use Rattle.plan_keeps.specs.Kept.{IsKeptPlan};
ghost use Rattle.rule_soundness.specs.Plans.{IsGoodPlan, KnowsPlan};
ghost use Rattle.plans_keep.specs.Kinds.{IsOfKeptKinds};

/// Each call that a plan of steps of kept kinds makes keeps its step, where no rule refuses a step over the schemas of
/// its inputs, the names of all schemas are known, and caches of one id stand over one tree.
pub fn calls_keep_their_steps()
    ensures { (F : Functions) (stored : ℕ → PlanTree) (names : Names) (t : PlanTree) → StandsOver stored t → IsGoodPlan F t → KnowsPlan F names t → IsOfKeptKinds F t → (lowering_of F names t).progress.state.names.next ≤ 2 ^ 64 → IsKeptPlan F t (nothing_yet names) }
{}

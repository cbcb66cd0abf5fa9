//! Laws of lowering whole plans, as theorems of functions that do nothing.
ghost use Rattle.std.specs.Prelude.{[], ℕ};
ghost use Rattle.ps_frame.specs.Functions.{Functions, IsLawful};
ghost use Rattle.ps_meaning.specs.PlanTrees.{PlanTree};
ghost use Rattle.ps_meaning.specs.Sound.{IsSoundButForReaders};
ghost use Rattle.ps_plan.specs.Lowering.{Lowers};
ghost use Rattle.plan_laws.specs.Laws.{StandsOver};
ghost use Rattle.ps_rules.specs.Names.{Names};
ghost use Rattle.plan_rules.specs.Plans.{lowering_of, nothing_yet};
ghost use Rattle.plan_keeps.specs.Kept.{AreMadeOf, IsKeptPlan, IsNumberedApart, MeansWithin};

/// Where each call that a plan makes keeps its step, and caches of one id stand over one tree, the nodes that the rules give lower the plan: whatever tables they mean together, the stream's ends as one that the plan means under some choice. So each table of the stream's node is within one that the plan means, where the nodes are sound.
pub fn kept_plans_are_lowered()
    ensures stream { (F : Functions) (stored : ℕ → PlanTree) (names : Names) (t : PlanTree) → StandsOver stored t → IsKeptPlan F t (nothing_yet names) → let l = lowering_of F names t in Lowers F l.progress.state.nodes [] l.progress.cached t l.stream.0 }
    ensures tables { (F : Functions) (stored : ℕ → PlanTree) (names : Names) (t : PlanTree) → IsLawful F → StandsOver stored t → IsKeptPlan F t (nothing_yet names) → let l = lowering_of F names t in IsSoundButForReaders F l.progress.state.nodes → MeansWithin F l.progress.state.nodes l.stream.0 t }
{}

/// And each of the nodes was made for a node of the plan, where no node of the plan stands below one of its own number: the origin is that number, a cause that the node shows and that was made there breaks the plan's node, and where the node is large the plan's node is.
pub fn kept_plans_tell_of_their_nodes()
    ensures { (F : Functions) (stored : ℕ → PlanTree) (names : Names) (t : PlanTree) → IsLawful F → StandsOver stored t → IsNumberedApart t → IsKeptPlan F t (nothing_yet names) → let l = lowering_of F names t in IsSoundButForReaders F l.progress.state.nodes → AreMadeOf F l.progress.state.nodes t }
{}

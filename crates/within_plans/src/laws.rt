//! Laws of lowering whole plans, as theorems of functions that do nothing.
ghost use Rattle.std.specs.Prelude.{ℕ};
ghost use Rattle.ps_frame.specs.Functions.{Functions, IsLawful};
ghost use Rattle.ps_meaning.specs.PlanTrees.{PlanTree};
ghost use Rattle.ps_meaning.specs.Sound.{IsSoundButForReaders};
ghost use Rattle.plan_laws.specs.Laws.{StandsOver};
ghost use Rattle.ps_rules.specs.Names.{Names};
ghost use Rattle.plan_rules.specs.Plans.{lowering_of, nothing_yet};
ghost use Rattle.plan_keeps.specs.Kept.{IsNumberedApart, MeansWithin};
ghost use Rattle.within_plans.specs.Within.{AreMadeOrLarge, IsWithinPlan};

/// Where each call keeps its step unless an input is large, and the table of its stream lies within one that the step gives, and caches of one id stand over one tree, each table of the lowered root lies within one that the plan means, if the nodes are sound.
pub fn plans_stay_within()
    ensures { (F : Functions) (stored : ℕ → PlanTree) (names : Names) (t : PlanTree) → IsLawful F → StandsOver stored t → IsWithinPlan F t (nothing_yet names) → let l = lowering_of F names t in IsSoundButForReaders F l.progress.state.nodes → MeansWithin F l.progress.state.nodes l.stream.0 t }
{}

/// And each of the nodes was made for a node of the plan, where no node of the plan stands below one of its own number: the origin is that number, a cause that the node shows and that was made there breaks the plan's node, unless some table at or under that one is large, and where the node is large that one is.
pub fn plans_tell_of_their_nodes()
    ensures { (F : Functions) (stored : ℕ → PlanTree) (names : Names) (t : PlanTree) → IsLawful F → StandsOver stored t → IsNumberedApart t → IsWithinPlan F t (nothing_yet names) → let l = lowering_of F names t in IsSoundButForReaders F l.progress.state.nodes → AreMadeOrLarge F l.progress.state.nodes t }
{}

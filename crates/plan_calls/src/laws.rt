//! Laws of single calls on plans, as theorems of functions that do nothing.
ghost use Rattle.lowering_parts.specs.Gathered.{Begins, KeepsNames};
ghost use Rattle.plan_calls.specs.Calls.{HasCome, KeepsNode, StepsStayWithin};
ghost use Rattle.plan_calls.specs.Left.{AreLeftByCalls};
ghost use Rattle.plan_lowering.specs.Lowered.{CacheStreams};
ghost use Rattle.plan_rules.specs.Plans.{Progress, lower_plan};
ghost use Rattle.ps_frame.specs.Functions.{Functions, IsLawful};
ghost use Rattle.ps_frame.specs.Trees.{Tree};
ghost use Rattle.ps_fresh.specs.InPlans.{IsNameUnder};
ghost use Rattle.ps_fresh.specs.declared.lowering.Lowering.{Lowering};
ghost use Rattle.ps_meaning.specs.Sound.{IsSoundButForReaders};
ghost use Rattle.ps_phys.specs.Shown.{nodes_of};
ghost use Rattle.ps_plan.specs.Graph.{EachReached, Reached};
ghost use Rattle.ps_plan.specs.Plans.{Plan, tree_of};
ghost use Rattle.ps_plan.specs.Refusals.{IsValid};
ghost use Rattle.ps_rules.specs.Names.{Knows};
ghost use Rattle.ps_shares.specs.Kept.{IsInRange};
ghost use Rattle.pu_base.specs.declared.arena.Node.{Node};
ghost use Rattle.rule_parts.specs.Good.{HoldsTable};
ghost use Rattle.std.specs.Prelude.{[], ℕ, ◌≡◌};

/// Wherever calls on a valid plan may have come, one more call keeps the node that it lowers, where the rows of each table that the plan scans fit its schema, in which names differ, and the rules on single steps stay within these.
pub fn calls_keep_nodes()
    ensures { (F : Functions) (plan : Plan) (n : ℕ) (p : Progress) → IsLawful F → IsValid F plan → EachReached HoldsTable plan → StepsStayWithin F → Reached plan n → HasCome F (tree_of plan plan.root.0) p → let l = lower_plan F (tree_of plan n) p in IsInRange l.progress.state → KeepsNode F plan n p.state.nodes l.progress.state.nodes l.stream }
{}

/// A lowering that has no nodes, knows the names under the root of a valid plan and has no stream for a cache id is as calls on the plan leave it: none was made yet. So is one in which sound nodes stand already.
pub fn no_call_was_made()
    ensures nothing { (F : Functions) (plan : Plan) (f : Node → Tree) (low : Lowering) (caches : CacheStreams) → IsValid F plan → Knows low.names (IsNameUnder F plan) → low.phys_sm.slots ≡ [] → caches.entries ≡ [] → AreLeftByCalls F plan f low caches }
    ensures nodes { (F : Functions) (plan : Plan) (f : Node → Tree) (low : Lowering) (caches : CacheStreams) → IsValid F plan → Knows low.names (IsNameUnder F plan) → IsSoundButForReaders F (nodes_of f low.phys_sm.slots) → caches.entries ≡ [] → AreLeftByCalls F plan f low caches }
{}

/// It is still so where other nodes were added, over which the shape is sound but for its readers, and the names that were known are.
pub fn others_were_added()
    ensures { (F : Functions) (plan : Plan) (f : Node → Tree) (low later : Lowering) (caches : CacheStreams) → AreLeftByCalls F plan f low caches → Begins low.phys_sm.slots later.phys_sm.slots → KeepsNames low.names later.names → IsSoundButForReaders F (nodes_of f later.phys_sm.slots) → AreLeftByCalls F plan f later caches }
{}

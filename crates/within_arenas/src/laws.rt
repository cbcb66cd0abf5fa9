//! Laws of lowering valid plans, as theorems of functions that do nothing.
ghost use Rattle.std.specs.Prelude.{◌-◌, ◌<◌, length};
ghost use Rattle.ps_frame.specs.Functions.{Functions, IsLawful};
ghost use Rattle.ps_meaning.specs.Sound.{IsSoundButForReaders};
ghost use Rattle.ps_plan.specs.Plans.{Plan, tree_of};
ghost use Rattle.ps_plan.specs.Refusals.{IsValid};
ghost use Rattle.ps_rules.specs.Names.{Names};
ghost use Rattle.plan_rules.specs.Plans.{lowering_of, nothing_yet};
ghost use Rattle.multiplexer_laws.specs.Shared.{ReadFirstPortsBefore, shared_shape};
ghost use Rattle.within_plans.specs.Within.{IsWithinPlan};
ghost use Rattle.within_arenas.specs.Lowering.{IsLoweringOrLarge};

/// Where each call that a valid plan makes keeps its step unless an input is large, and its stream's table stays within those that the step gives, the nodes with multiplexers are a lowering of the plan, or some table is large: if the nodes are sound, and read first ports of nodes before them.
pub fn valid_plans_are_lowered_or_large()
    ensures { (F : Functions) (plan : Plan) (names : Names) → IsLawful F → IsValid F plan → IsWithinPlan F (tree_of plan plan.root.0) (nothing_yet names) → let l = lowering_of F names (tree_of plan plan.root.0) in IsSoundButForReaders F l.progress.state.nodes → l.stream.0 < length l.progress.state.nodes → ReadFirstPortsBefore l.progress.state.nodes → let x = shared_shape l.progress.state.nodes l.stream.0 in IsLoweringOrLarge F plan x (length x - 1) }
{}

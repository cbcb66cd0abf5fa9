//! What the nodes of lowered plans read, as theorems of functions that do nothing.
ghost use Rattle.std.specs.Prelude.{◌<◌, length};
ghost use Rattle.ps_frame.specs.Functions.{Functions};
ghost use Rattle.ps_meaning.specs.PlanTrees.{PlanTree};
ghost use Rattle.ps_rules.specs.Names.{Names};
ghost use Rattle.plan_rules.specs.Plans.{lowering_of};
ghost use Rattle.multiplexer_laws.specs.Shared.{IsOnlySink, ReadFirstPortsBefore};
ghost use Rattle.rule_ports.specs.Fed.{IsFedPlan, IsSunk};

/// Of a sink over a plan without sinks, each node reads first ports of nodes before it, the stream's node is there, and it is the only sink.
pub fn sunk_plans_read_first_ports()
    ensures there { (F : Functions) (names : Names) (t : PlanTree) → IsFedPlan t → IsSunk t → let l = lowering_of F names t in l.stream.0 < length l.progress.state.nodes }
    ensures reads { (F : Functions) (names : Names) (t : PlanTree) → IsFedPlan t → IsSunk t → ReadFirstPortsBefore (lowering_of F names t).progress.state.nodes }
    ensures sink { (F : Functions) (names : Names) (t : PlanTree) → IsFedPlan t → IsSunk t → let l = lowering_of F names t in IsOnlySink l.stream.0 l.progress.state.nodes }
{}

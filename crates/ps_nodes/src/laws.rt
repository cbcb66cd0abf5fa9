//! Laws of the nodes of a graph, as theorems of functions that do nothing.
ghost use Rattle.bare_nodes.specs.Uncalled.{no_functions};
ghost use Rattle.ps_frame.specs.Causes.{Cause};
ghost use Rattle.ps_nodes.specs.Seen.{Finds, options_of, seen};
ghost use Rattle.ps_nodes.specs.declared.flow.FlowNode.{FlowNode};
ghost use Rattle.ps_ports.specs.Ports.{Sides};
ghost use Rattle.turn_laws.specs.Updating.{FindsFault};

/// What an update of a node finds is a fault that the definitions of a run have it find.
pub fn faults_are_those_of_runs()
    ensures { (a : FlowNode) (given : Sides) (c : Cause) → Finds a given c → FindsFault no_functions (options_of a) (seen a) given c }
{}

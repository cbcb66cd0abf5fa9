//! What one update of a node does, as theorems of functions that do nothing.
ghost use Rattle.std.specs.Prelude.{◌⊎◌};
ghost use Rattle.ps_frame.specs.Causes.{Cause};
ghost use Rattle.ps_frame.specs.Functions.{Functions};
ghost use Rattle.ps_meaning.specs.Sound.{HasFitParameters};
ghost use Rattle.ps_options.specs.declared.options.Options.{Options};
ghost use Rattle.ps_ports.specs.Ports.{Sides};
ghost use Rattle.ps_ports.specs.UpdateLaws.{KeepsUpdateLaws};
ghost use Rattle.turn_laws.specs.Updating.{FillsAndUpdates, FindsFault, HasPorts, SeenNode, UpdatesTo, stages_behind};

/// The updates of nodes of every kind keep the laws by which a graph comes to rest, also where a map that waits for its table is filled first.
pub fn updates_keep_their_laws()
    ensures updates { (F : Functions) (o : Options) → KeepsUpdateLaws stages_behind (UpdatesTo F o) }
    ensures fills { (F : Functions) (o : Options) → KeepsUpdateLaws stages_behind (FillsAndUpdates F o) }
{}

/// A node that is given a state of each of its ports goes on, filled first where it waits for its table, or finds a fault.
pub fn each_update_goes_on()
    ensures { (F : Functions) (o : Options) (a : SeenNode) (given : Sides) → HasFitParameters F a.node.kind → HasPorts a given → ((b : SeenNode) × (answer : Sides) × FillsAndUpdates F o a given b answer) ⊎ ((c : Cause) × FindsFault F o a given c) }
{}

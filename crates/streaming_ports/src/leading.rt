// Which ports of streaming nodes are ready between phases.
ghost use Rattle.std.specs.Prelude.{◌≡◌, Some, slice_get, ℕ};
ghost use Rattle.ps_frame.specs.Functions.{Functions};
ghost use Rattle.ps_meaning.specs.Shape.{PhysicalNode};
ghost use Rattle.ps_world.specs.Laws.{PortLaw};
ghost use Rattle.ps_world.specs.Updates.{IsSettled};
ghost use Rattle.ps_world.specs.World.{World, shape_of};
ghost use Rattle.world_claims.specs.Numbering.{Known};
ghost use Rattle.world_families.specs.Kinds.{IsStreaming};

/// In a settled world between phases a streaming node that takes is ready to a live input and blocked to its outputs; a live input of another one leads on to a live output; and where all its live inputs are sent ready, so is its live output: the third part of its law.
pub fn streaming_nodes_lead_on()
    ensures { (F : Functions) (s : World) (n : ℕ) (p : PhysicalNode) → Known F s → slice_get (shape_of s) n ≡ Some p → IsStreaming p.kind → IsSettled s → PortLaw s n }
{}

// Every step and update keeps what the family of sources says.
ghost use Rattle.std.specs.Prelude.{◌≡◌, ℕ, IsFalse, Some, slice_get};
ghost use Rattle.ps_frame.specs.Functions.{Functions};
ghost use Rattle.ps_meaning.specs.Shape.{PhysicalNode};
ghost use Rattle.ps_world.specs.Step.{Steps};
ghost use Rattle.ps_world.specs.Updates.{Updates};
ghost use Rattle.ps_world.specs.World.{Record, World, shape_of};
ghost use Rattle.world_claims.specs.Numbering.{Known};
ghost use Rattle.world_families.specs.Holds.{Holds};
ghost use Rattle.world_families.specs.Sources.{IsSource};

/// Every step keeps it of a source, and so do updates and fills between phases.
pub fn sources_keep()
    ensures steps { (F : Functions) (w v : World) (r : Record) (n : ℕ) (p : PhysicalNode) → Known F w → slice_get (shape_of w) n ≡ Some p → IsSource p.kind → Steps F w r v → Holds F w n → Holds F v n }
    ensures updates { (F : Functions) (w s : World) (n : ℕ) (p : PhysicalNode) → Known F w → slice_get (shape_of w) n ≡ Some p → IsSource p.kind → IsFalse w.is_open → Updates F w s → Holds F w n → Holds F s n }
{}

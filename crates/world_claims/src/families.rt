// The laws of the families of nodes, and what follows of every reached world, as a theorem of a function that does nothing.
ghost use Rattle.std.specs.Prelude.{ℕ};
ghost use Rattle.ps_frame.specs.Functions.{Functions, IsLawful};
ghost use Rattle.ps_meaning.specs.Shape.{Shape};
ghost use Rattle.ps_meaning.specs.Sound.{IsSound};
ghost use Rattle.ps_options.specs.declared.options.Options.{Options};
ghost use Rattle.ps_world.specs.Laws.{AnyKind, ComesToRest, FamilyLaw};
ghost use Rattle.ps_world.specs.Opening.{Reaches};
ghost use Rattle.ps_world.specs.Promises.{Promises};
ghost use Rattle.ps_world.specs.World.{World};
ghost use Rattle.world_claims.specs.Numbering.{Known};

/// What the families of nodes keep, with their law, and that updates come to rest. Whoever proves these of every kind of node has what is promised of every reached world.
pub trait Families {
    /// What a world keeps of the node of a number and its own pipes, where these are the handed-in functions.
    ghost holds: { Functions → World → ℕ → Type 0 };

    /// It begins, is kept by every step, and gives the three parts of the law, for nodes of every kind.
    ghost law: { (F : Functions) → IsLawful F → FamilyLaw F AnyKind (Known F) (holds F) };

    /// Between phases a list of updates and fills comes to rest, or finds a fault.
    ghost rests: { (F : Functions) → IsLawful F → ComesToRest F (Known F) };
}

/// Every world that the opening of a sound shape reaches keeps what is promised: one choice of tables serves all its pipes, a run that ended has the answer, and one that goes on may step or has a piece out.
pub fn every_reached<L: Families>()
    ensures { (F : Functions) (shape : Shape) (o : Options) (w : World) → IsLawful F → IsSound F shape → Reaches F shape o w → Promises F shape w }
{}

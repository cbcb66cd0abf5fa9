// What families of nodes say of the pipes of a node: what is complete, what came and was sent, what each step does to them; and that all families' sentences hold at the opening.
ghost use Rattle.std.specs.Prelude.{ℕ};
ghost use Rattle.ps_frame.specs.Functions.{Functions};
ghost use Rattle.ps_meaning.specs.Shape.{Shape};
ghost use Rattle.ps_options.specs.declared.options.Options.{Options};
ghost use Rattle.ps_world.specs.Opening.{opening};
ghost use Rattle.world_families.specs.Holds.{Holds};

/// The opening of a shape keeps it of every node.
pub fn openings_hold()
    ensures { (F : Functions) (shape : Shape) (o : Options) (n : ℕ) → Holds F (opening shape o) n }
{}

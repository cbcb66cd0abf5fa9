// Where no phase is idle, every run ends: a theorem of a function that does nothing.
ghost use Rattle.ps_frame.specs.Functions.{Functions};
ghost use Rattle.ps_meaning.specs.Shape.{Shape};
ghost use Rattle.ps_meaning.specs.Sound.{IsSound};
ghost use Rattle.ps_options.specs.declared.options.Options.{Options};
ghost use Rattle.ps_world.specs.Opening.{Reaches};
ghost use Rattle.ps_world.specs.World.{World};
ghost use Rattle.world_measure.specs.Driving.{NoPhaseIsIdle, StepsTo};
ghost use Rattle.world_measure.specs.Order.{Ends};

/// Given that after a phase in which nothing was claimed or pulled the next Open changes something, every run of steps of every kind ends, from every reached world. That no phase is idle so is proved where more is known of the kinds of nodes (`world_ends`).
pub fn runs_end()
    ensures { (F : Functions) (shape : Shape) (o : Options) (w : World) → IsSound F shape → NoPhaseIsIdle F shape o → Reaches F shape o w → Ends (StepsTo F) w }
{}

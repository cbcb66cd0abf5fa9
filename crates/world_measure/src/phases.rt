// What is left over all phases, as theorems of functions that do nothing.
ghost use Rattle.std.specs.Prelude.{◌≡◌, ◌⊎◌, [], ◌∷◌, IsTrue, ℕ};
ghost use Rattle.ps_frame.specs.Functions.{Functions};
ghost use Rattle.ps_meaning.specs.Shape.{Shape};
ghost use Rattle.ps_meaning.specs.Sound.{IsSound};
ghost use Rattle.ps_options.specs.declared.options.Options.{Options};
ghost use Rattle.ps_world.specs.Opening.{Reaches};
ghost use Rattle.ps_world.specs.Step.{Steps};
ghost use Rattle.ps_world.specs.World.{Record, World};
ghost use Rattle.world_measure.specs.Examples.{done_pipe, in_its_phase, made, the_pipe};
ghost use Rattle.world_measure.specs.Order.{Ends, IsLess};
ghost use Rattle.world_measure.specs.Turns.{TakesLater, ends_left, left_over_phases, takes, turns_of};

/// In every world that the opening of a sound shape reaches, a step leaves less over all phases, or as much; a claim and a pull leave less. An Open so leaves as much to take only where it changes no end, no stage and no table.
pub fn no_step_leaves_more()
    ensures no_more { (F : Functions) (shape : Shape) (o : Options) (w v : World) (r : Record) → IsSound F shape → Reaches F shape o w → Steps F w r v → IsLess (left_over_phases v) (left_over_phases w) ⊎ (left_over_phases v ≡ left_over_phases w) }
    ensures less { (F : Functions) (shape : Shape) (o : Options) (w v : World) (r : Record) → IsSound F shape → Reaches F shape o w → IsTrue (takes r) → Steps F w r v → IsLess (left_over_phases v) (left_over_phases w) }
{}

/// No run claims and pulls for ever, over however many phases: from every reached world on, claims and pulls, with any steps between them, come to an end.
pub fn takes_end()
    ensures { (F : Functions) (shape : Shape) (o : Options) (w : World) → IsSound F shape → Reaches F shape o w → Ends (TakesLater F) w }
{}

/// A source before a sink, in their first phase: both ends of the pipe may still be done, each node has two stages and a table to come, and the source four cuts.
/// Ends that are done count for nothing, nor does a table that was made.
pub fn small_turns()
    ensures over_phases { left_over_phases in_its_phase ≡ 8 ∷ 0 ∷ 4 ∷ 0 ∷ 0 ∷ [] }
    ensures one_done { ends_left (the_pipe ∷ done_pipe ∷ []) ≡ 3 }
    ensures gives { turns_of made ≡ 1 }
{}

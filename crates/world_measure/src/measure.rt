// What is left to do falls at each step of a phase, as theorems of functions that do nothing.
ghost use Rattle.std.specs.Prelude.{◌≡◌, ◌⊎◌, [], ◌∷◌, IsFalse, List, true, ℕ};
ghost use Rattle.ps_frame.specs.Functions.{Functions};
ghost use Rattle.ps_meaning.specs.Shape.{Shape, zip_node};
ghost use Rattle.ps_meaning.specs.Sound.{IsSound};
ghost use Rattle.ps_options.specs.declared.options.Options.{Options};
ghost use Rattle.ps_world.specs.Opening.{Reaches};
ghost use Rattle.ps_world.specs.Step.{Steps};
ghost use Rattle.ps_world.specs.World.{Record, World};
ghost use Rattle.world_measure.specs.Examples.{after_first_claim, half_taken, in_its_phase, zipped};
ghost use Rattle.world_measure.specs.Left.{left_to_do, own_left, untaken};
ghost use Rattle.world_measure.specs.Order.{Ends, IsLess};
ghost use Rattle.world_measure.specs.Runs.{StepsInPhase, opens};

/// In every world that the opening of a sound shape reaches, each step but an Open leaves less to do: a claim, a hand-in, a pull, a close, and the end of the phase.
pub fn steps_leave_less()
    ensures { (F : Functions) (shape : Shape) (o : Options) (w v : World) (r : Record) → IsSound F shape → Reaches F shape o w → IsFalse (opens r) → Steps F w r v → IsLess (left_to_do v) (left_to_do w) }
{}

/// Lists of numbers go down finitely often.
pub fn lists_end()
    ensures { (ns : List ℕ) → Ends IsLess ns }
{}

/// From every reached world each run of steps without an Open ends, in whatever order workers take them.
pub fn phases_end()
    ensures { (F : Functions) (shape : Shape) (o : Options) (w : World) → IsSound F shape → Reaches F shape o w → Ends (StepsInPhase F) w }
{}

/// A source of three rows has four cuts to claim at most, and the sink nothing to take. Its first claim leaves it three, and the sink one morsel that is to come: no piece was out, and one is.
/// A zip counts the rows that it has not booked; a pipe what was not taken, and nothing once it is dropped.
pub fn small_worlds()
    ensures before { left_to_do in_its_phase ≡ 0 ∷ 4 ∷ 0 ∷ 0 ∷ 0 ∷ 2 ∷ 1 ∷ [] }
    ensures after { left_to_do after_first_claim ≡ 0 ∷ 3 ∷ 1 ∷ 0 ∷ 1 ∷ 2 ∷ 1 ∷ [] }
    ensures less { IsLess (left_to_do after_first_claim) (left_to_do in_its_phase) }
    ensures rows { own_left (zip_node true) zipped ≡ 1 }
    ensures waits { untaken half_taken ≡ 2 }
    ensures lost { untaken (record half_taken { is_dropped = true }) ≡ 0 }
{}

/// Lists of different lengths are not compared.
pub fn lengths_differ()
    ensures { IsLess (0 ∷ []) (1 ∷ 1 ∷ []) → ⊥ }
{}

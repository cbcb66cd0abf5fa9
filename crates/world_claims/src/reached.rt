// What every reached world keeps, as theorems of functions that do nothing.
ghost use Rattle.std.specs.Prelude.{◌≡◌, ◌&&◌, [], IsTrue, Some, not, slice_get, ℕ};
ghost use Rattle.ps_frame.specs.Functions.{Functions};
ghost use Rattle.ps_meaning.specs.Shape.{Shape};
ghost use Rattle.ps_meaning.specs.Sound.{IsSound};
ghost use Rattle.ps_options.specs.declared.options.Options.{Options};
ghost use Rattle.ps_turns.specs.Claims.{Claim};
ghost use Rattle.ps_world.specs.Claims.{claim_at};
ghost use Rattle.ps_world.specs.Facts.{Facts};
ghost use Rattle.ps_world.specs.Fits.{FitsWhole};
ghost use Rattle.ps_world.specs.Laws.{FactsLaw};
ghost use Rattle.ps_world.specs.Opening.{Reaches};
ghost use Rattle.ps_world.specs.Promises.{Halts};
ghost use Rattle.ps_world.specs.Step.{Steps};
ghost use Rattle.ps_world.specs.World.{Node, World, ended};
ghost use Rattle.world_claims.specs.Numbering.{IsNumbered, Known, OutsFit};

/// Every world that the opening of a sound shape reaches keeps the facts, whatever its nodes do. The numbers of each node's answers hang together with its pipes, and in an open phase the outputs of each node fit it.
pub fn every_reached_world()
    ensures facts { (F : Functions) (shape : Shape) (o : Options) (w : World) → IsSound F shape → Reaches F shape o w → Facts F w }
    ensures numbers { (F : Functions) (shape : Shape) (o : Options) (w : World) → IsSound F shape → Reaches F shape o w → IsNumbered w }
    ensures outs { (F : Functions) (shape : Shape) (o : Options) (w : World) → IsSound F shape → Reaches F shape o w → OutsFit w }
{}

/// What is known of every reached world is what the induction over a graph asks of it: it holds at the opening, each step and each list of updates keeps it, and it gives what phases need.
pub fn facts_serve_the_induction()
    ensures { (F : Functions) → FactsLaw F (Known F) }
{}

/// Every claim of a node at work fits what it names: the next place of each pipe that its answer goes into, or the next slot of what it keeps.
pub fn claims_fit_their_pipes()
    ensures { (F : Functions) (shape : Shape) (o : Options) (w : World) (n i : ℕ) (node : Node) (c : Claim) → IsSound F shape → Reaches F shape o w → slice_get w.nodes n ≡ Some node → IsTrue (w.is_open && (node.in_phase && not node.is_closed)) → claim_at w n i node ≡ Some c → FitsWhole w n i node c }
{}

/// In every reached world a node whose every way on in the phase meets a dropped pipe claims nothing.
pub fn satisfied_slices_halt()
    ensures { (F : Functions) (shape : Shape) (o : Options) (w : World) → IsSound F shape → Reaches F shape o w → Halts F w }
{}

/// In every reached world, where a phase ends no piece is out: what was claimed in it was handed in.
pub fn phases_end_with_nothing_out()
    ensures { (F : Functions) (shape : Shape) (o : Options) (w v : World) (phase : ℕ) → IsSound F shape → Reaches F shape o w → Steps F w (ended phase) v → w.outs ≡ [] }
{}

// What every reached world keeps of its pipes and pieces, step by step, as theorems of functions that do nothing.
ghost use Rattle.std.specs.Prelude.{◌≡◌, ◌<◌, [], ℕ, Contains, IsFalse, IsTrue, Some, length, slice_get, true};
ghost use Rattle.ps_frame.specs.Functions.{Functions};
ghost use Rattle.ps_meaning.specs.Shape.{Shape};
ghost use Rattle.ps_meaning.specs.Sound.{IsSound};
ghost use Rattle.ps_options.specs.declared.options.Options.{Options};
ghost use Rattle.ps_ports.specs.Wires.{Wire};
ghost use Rattle.ps_turns.specs.Tasks.{Handed, Piece};
ghost use Rattle.ps_world.specs.Facts.{Facts};
ghost use Rattle.ps_world.specs.Fits.{ClaimsFit, DropsAreDone};
ghost use Rattle.ps_world.specs.Laws.{EndsAgree, IsForward, IsFull, IsStarved};
ghost use Rattle.ps_world.specs.Opening.{opening};
ghost use Rattle.ps_world.specs.Step.{Opens, Steps};
ghost use Rattle.ps_world.specs.Updates.{IsSettled, Updates};
ghost use Rattle.ps_world.specs.World.{Node, Pipe, World, claimed, closed, ended, handed_in, has_next, pulled, running, shape_of, wires_of, IsWorking};

/// A claim that fits what it names keeps the facts.
pub fn claims_keep()
    ensures { (F : Functions) (w v : World) (n i number worker : ℕ) → ClaimsFit w n i → Facts F w → Steps F w (claimed n i number worker) v → Facts F v }
{}

/// What is handed in keeps the facts.
pub fn hand_ins_keep()
    ensures { (F : Functions) (w v : World) (n i number worker : ℕ) (handed : Handed) → Facts F w → Steps F w (handed_in n i number worker handed) v → Facts F v }
{}

/// A pull keeps the facts.
pub fn pulls_keep()
    ensures { (F : Functions) (w v : World) (n i number : ℕ) → Facts F w → Steps F w (pulled n i number) v → Facts F v }
{}

/// A node that closes keeps the facts.
pub fn closes_keep()
    ensures { (F : Functions) (w v : World) (n : ℕ) → Facts F w → Steps F w (closed n) v → Facts F v }
{}

/// The end of a phase keeps the facts.
pub fn ends_keep()
    ensures { (F : Functions) (w v : World) (phase : ℕ) → Facts F w → Steps F w (ended phase) v → Facts F v }
{}

/// The opening of a sound shape has the facts.
pub fn openings_have_facts()
    ensures { (F : Functions) (shape : Shape) (o : Options) → IsSound F shape → Facts F (opening shape o) }
{}

/// An Open keeps the facts.
pub fn opens_keep()
    ensures { (F : Functions) (w s v : World) (phase : ℕ) → Updates F w s → Facts F w → IsFalse w.is_open → Opens F s phase v → Facts F v }
{}

/// Updates and fills between phases keep the facts.
pub fn updates_keep()
    ensures { (F : Functions) (w s : World) → Updates F w s → Facts F w → IsFalse w.is_open → Facts F s }
{}

/// In a settled world both ends of a pipe are done together, and what is dropped is done.
pub fn settled_ends()
    ensures agree { (F : Functions) (w : World) → Facts F w → IsSettled w → EndsAgree w }
    ensures dropped { (F : Functions) (w : World) → Facts F w → IsSettled w → DropsAreDone w }
{}

/// Inputs come from earlier nodes. Pieces stand in the open phase, at nodes. What may still come has a sender at work; a pipe without a place has a reader at work and a next morsel, where no piece is out.
pub fn facts_of_phases()
    ensures forward { (F : Functions) (w : World) → Facts F w → IsForward (shape_of w) }
    ensures wires { (F : Functions) (w : World) → Facts F w → (p : Wire) → Contains (wires_of w) p → (p.sender < p.receiver) × (p.receiver < length w.nodes) }
    ensures pieces { (F : Functions) (w : World) → Facts F w → (q : Piece) → Contains w.outs q → (w.is_open ≡ true) × ((node : Node) × (slice_get w.nodes q.node ≡ Some node)) }
    ensures starved { (F : Functions) (w : World) → Facts F w → w.ending ≡ running → (p : Pipe) → IsStarved w p → IsWorking w p.wire.sender }
    ensures full { (F : Functions) (w : World) → Facts F w → w.ending ≡ running → (p : Pipe) → IsFull w p → w.outs ≡ [] → IsWorking w p.wire.receiver × IsTrue (has_next p) }
{}

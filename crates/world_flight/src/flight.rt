// How much is in flight in a reached world, as theorems of functions that do nothing.
ghost use Rattle.std.specs.Prelude.{◌+◌, ◌-◌, ◌≤◌, ℕ, count_by, length};
ghost use Rattle.ps_frame.specs.Functions.{Functions};
ghost use Rattle.ps_meaning.specs.Shape.{Shape};
ghost use Rattle.ps_meaning.specs.Sound.{IsSound};
ghost use Rattle.ps_options.specs.declared.options.Options.{Options};
ghost use Rattle.ps_world.specs.Facts.{is_filled_by};
ghost use Rattle.ps_world.specs.Opening.{Reaches};
ghost use Rattle.ps_world.specs.Promises.{HandsAllIn, StaysHalted};
ghost use Rattle.ps_world.specs.World.{Pipe, World, waiting};
ghost use Rattle.world_flight.specs.Places.{empty_places, gives_into};

/// In every reached world no more pieces are out than there are workers.
pub fn pieces_are_few()
    ensures { (F : Functions) (shape : Shape) (o : Options) (w : World) → IsSound F shape → Reaches F shape o w → length w.outs ≤ w.options.workers }
{}

/// Each piece out that gives into a pipe has a place of its own there that waits for it.
pub fn places_wait_for_pieces()
    ensures { (F : Functions) (shape : Shape) (o : Options) (w : World) (n : ℕ) (p : Pipe) → IsSound F shape → Reaches F shape o w → is_filled_by w n p → count_by (gives_into n) w.outs ≤ empty_places p }
{}

/// What waits in a pipe and the pieces that give into it are at most its places from the next number on.
pub fn what_is_to_come_has_a_place()
    ensures { (F : Functions) (shape : Shape) (o : Options) (w : World) (n : ℕ) (p : Pipe) → IsSound F shape → Reaches F shape o w → is_filled_by w n p → waiting p + count_by (gives_into n) w.outs ≤ length p.got - p.next }
{}

/// In every reached world, where a phase ends, every number that was claimed was handed in.
pub fn claims_are_handed_in()
    ensures { (F : Functions) (shape : Shape) (o : Options) (w : World) → IsSound F shape → Reaches F shape o w → HandsAllIn F w }
{}

/// A node whose every way on in the phase meets a dropped pipe claims nothing to the end of that phase.
pub fn halted_nodes_stay_so()
    ensures { (F : Functions) (shape : Shape) (o : Options) (w : World) → IsSound F shape → Reaches F shape o w → StaysHalted F w }
{}

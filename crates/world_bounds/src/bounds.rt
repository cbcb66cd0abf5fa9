// Two promises of every reached world, as theorems of functions that do nothing.
ghost use Rattle.std.specs.Prelude.{◌≡◌, ◌-◌, ◌≤◌, Contains, IsTrue, length, true, ℕ};
ghost use Rattle.ps_frame.specs.Functions.{Functions};
ghost use Rattle.ps_meaning.specs.Shape.{Shape, multiplexer};
ghost use Rattle.ps_meaning.specs.Sound.{IsSound};
ghost use Rattle.ps_options.specs.declared.options.Options.{Options};
ghost use Rattle.ps_world.specs.Opening.{Reaches};
ghost use Rattle.ps_world.specs.Promises.{ClaimsAll, IsBounded};
ghost use Rattle.ps_world.specs.World.{Pipe, World, in_flight, is_bounded, places_taken, room};
ghost use Rattle.world_bounds.specs.Examples.{a_source, behind, half_read, reducing};

/// In every reached world the morsels in bounded pipes and the pieces out are at most pipes × (workers + 4).
pub fn little_is_in_flight()
    ensures { (F : Functions) (shape : Shape) (o : Options) (w : World) → IsSound F shape → Reaches F shape o w → IsBounded w }
{}

/// No bounded pipe has more morsels that wait or are to come than it has room for, in the phase or not.
pub fn pipes_keep_within_their_room()
    ensures { (F : Functions) (shape : Shape) (o : Options) (w : World) (p : Pipe) → Reaches F shape o w → Contains w.pipes p → IsTrue (is_bounded w p) → length p.got - p.next ≤ room w }
{}

/// In every reached world, where a phase ends, a source of that phase that isn't cut off has no number left to claim.
pub fn sources_claim_all()
    ensures { (F : Functions) (shape : Shape) (o : Options) (w : World) → IsSound F shape → Reaches F shape o w → ClaimsAll F w }
{}

/// Three morsels wait for a reduce that has one out: four are in flight, and four places are taken, since the reduce gives nothing on yet. What waits in a dropped pipe, or behind a multiplexer, isn't in flight.
pub fn a_reduce_takes_its_input()
    ensures flight { (o : Options) → in_flight (reducing o) ≡ 4 }
    ensures places { (o : Options) → places_taken (reducing o) half_read ≡ 4 }
    ensures dropped { (o : Options) → in_flight (behind a_source (record half_read { is_dropped = true }) o) ≡ 1 }
    ensures unbounded { (o : Options) → in_flight (behind multiplexer half_read o) ≡ 1 }
{}

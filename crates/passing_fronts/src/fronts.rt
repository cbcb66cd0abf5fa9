// What passing nodes have sent begins what they may give, as a theorem of a function that does nothing.
ghost use Rattle.std.specs.Prelude.{◌≡◌, Some, slice_get, ℕ};
ghost use Rattle.ps_frame.specs.Functions.{Functions};
ghost use Rattle.ps_meaning.specs.Shape.{PhysicalNode};
ghost use Rattle.ps_meaning.specs.Sound.{input_schemas};
ghost use Rattle.ps_world.specs.Booking.{IsPassing};
ghost use Rattle.ps_world.specs.Laws.{Justified, sent_at, sent_to};
ghost use Rattle.ps_world.specs.World.{World, shape_of};
ghost use Rattle.world_claims.specs.Numbering.{Known};
ghost use Rattle.world_families.specs.Holds.{Holds};

/// What a filter, a select, a projection, a streamable map, a row index or a slice has sent is a front of a table that it may give over any table that begins with what came, and all of it where it is complete.
pub fn passing_nodes_are_justified()
    ensures { (F : Functions) (w : World) (n : ℕ) (p : PhysicalNode) → Known F w → slice_get (shape_of w) n ≡ Some p → IsPassing p.kind → Holds F w n → Justified F p (input_schemas (shape_of w) p) (sent_to (sent_at w) p) (sent_at w n) }
{}

//! Updates come to rest, as a theorem of a function that does nothing.
ghost use Rattle.ps_frame.specs.Functions.{Functions};
ghost use Rattle.ps_world.specs.Facts.{Facts};
ghost use Rattle.ps_world.specs.Laws.{ComesToRest};
ghost use Rattle.world_claims.specs.Numbering.{Known};

/// From every world between phases that goes on and keeps the facts, some list of updates and fills leads to a world in which none would change anything and no table is missing, or to one in which a node finds a fault.
/// What is known of every reached world is more than these facts.
pub fn updates_come_to_rest()
    ensures facts { (F : Functions) → ComesToRest F (Facts F) }
    ensures known { (F : Functions) → ComesToRest F (Known F) }
{}

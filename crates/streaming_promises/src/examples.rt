// Small worlds that keep what is promised, and others, different in one place, that don't, as theorems of functions that do nothing.
ghost use Rattle.std.specs.Prelude.{◌∷◌, []};
ghost use Rattle.ps_frame.specs.Functions.{Functions};
ghost use Rattle.world_families.specs.Examples.{row};
ghost use Rattle.streaming_promises.specs.Examples.{piece_world, sink_world};
ghost use Rattle.streaming_promises.specs.Kept.{EachPieceHasResult, SinksHold};

/// A sink that took two morsels holds their rows in number order, and not the other way round.
pub fn sinks_hold_what_they_took()
    ensures in_order { SinksHold (sink_world ((row 1 ∷ []) ∷ (row 2 ∷ []) ∷ [])) }
    ensures not_turned_round { ¬ SinksHold (sink_world ((row 2 ∷ []) ∷ (row 1 ∷ []) ∷ [])) }
{}

/// A piece that hands on one table has a result; one that were to hand on two has none.
pub fn pieces_have_results_or_not()
    ensures one_table { (F : Functions) → EachPieceHasResult F (piece_world ((row 1 ∷ []) ∷ [])) }
    ensures not_two_tables { (F : Functions) → ¬ EachPieceHasResult F (piece_world ((row 1 ∷ []) ∷ (row 2 ∷ []) ∷ [])) }
{}

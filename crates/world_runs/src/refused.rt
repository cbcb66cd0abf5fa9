// Steps that are refused, each beside one that is made, as theorems of functions that do nothing.
ghost use Rattle.std.specs.Prelude.{◌∷◌, [], None};
ghost use Rattle.ps_frame.specs.Functions.{Functions};
ghost use Rattle.ps_turns.specs.Tasks.{rows};
ghost use Rattle.ps_world.specs.Opening.{opening};
ghost use Rattle.ps_world.specs.Updates.{IsSettled};
ghost use Rattle.ps_world.specs.World.{claimed, closed, handed_in};
ghost use Rattle.world_runs.specs.Examples.{filter_shape, one_worker};
ghost use Rattle.world_runs.specs.Refused.{IsMade, IsRefused, first_piece, scan_world, waiting_morsels};

/// With one worker a pipe has room for five morsels: a claim takes the fifth place, and there is no sixth.
pub fn claims_want_a_place()
    ensures fifth { (F : Functions) → IsMade F (scan_world 4 (waiting_morsels 4) []) (claimed 0 0 4 0) }
    ensures sixth { (F : Functions) → IsRefused F (scan_world 5 (waiting_morsels 5) []) (claimed 0 0 5 0) }
{}

/// A worker with a piece out claims nothing, nor does one that isn't there; and a claim names the next number.
pub fn claims_want_a_free_worker()
    ensures free { (F : Functions) → IsMade F (scan_world 1 (waiting_morsels 1) []) (claimed 0 0 1 0) }
    ensures busy { (F : Functions) → IsRefused F (scan_world 1 (None ∷ []) (first_piece ∷ [])) (claimed 0 0 1 0) }
    ensures absent { (F : Functions) → IsRefused F (scan_world 1 (waiting_morsels 1) []) (claimed 0 0 1 1) }
    ensures other_number { (F : Functions) → IsRefused F (scan_world 1 (waiting_morsels 1) []) (claimed 0 0 2 0) }
{}

/// What is handed in is one of the piece's results, for a piece that is out.
pub fn hand_ins_want_a_result()
    ensures its_row { (F : Functions) → IsMade F (scan_world 1 (None ∷ []) (first_piece ∷ [])) (handed_in 0 0 0 0 (rows 1)) }
    ensures two_rows { (F : Functions) → IsRefused F (scan_world 1 (None ∷ []) (first_piece ∷ [])) (handed_in 0 0 0 0 (rows 2)) }
    ensures other_worker { (F : Functions) → IsRefused F (scan_world 1 (None ∷ []) (first_piece ∷ [])) (handed_in 0 0 0 1 (rows 1)) }
    ensures nothing_out { (F : Functions) → IsRefused F (scan_world 1 (waiting_morsels 1) []) (handed_in 0 0 0 0 (rows 1)) }
{}

/// A scan closes once it gave all its morsels and none is out.
pub fn closes_want_an_end()
    ensures all_given { (F : Functions) → IsMade F (scan_world 7 (waiting_morsels 7) []) (closed 0) }
    ensures one_left { (F : Functions) → IsRefused F (scan_world 6 (waiting_morsels 6) []) (closed 0) }
    ensures one_out { (F : Functions) → IsRefused F (scan_world 7 (None ∷ waiting_morsels 6) (first_piece ∷ [])) (closed 0) }
{}

/// The opening isn't settled: an update changes its states, so that no Open takes it as it is.
pub fn openings_are_unsettled()
    ensures { ¬ IsSettled (opening filter_shape one_worker) }
{}

// Slices from the end: what a store lets go of, and that what it keeps is enough, as theorems of functions that do nothing.
ghost use Rattle.std.specs.Prelude.{◌≡◌, true, false, [], ◌∷◌, map};
ghost use Rattle.ps_turns.specs.Ends.{rows_at_end};
ghost use Rattle.ps_turns.specs.Progress.{giving, is_intensive, spent, taking};
ghost use Rattle.ps_turns.specs.Pulls.{after_store};
ghost use Rattle.ps_world.specs.Pulls.{after_pull};
ghost use Rattle.ps_world.specs.World.{Node};
ghost use Rattle.world_runs.specs.Ends.{row, two_before, stored, a_slice, the_pipe, before};

/// A slice of one row from two before the end pulls morsels of one, one and two rows. It then lets go of the first two, and has counted four; what is left gives its row. It is memory intensive while it takes.
pub fn stores_let_go()
    ensures keeps_both { after_store two_before 0 (row 2 ∷ []) (stored 1 ((row 1 ∷ []) ∷ [])) ≡ stored 2 ((row 1 ∷ []) ∷ (row 2 ∷ []) ∷ []) }
    ensures lets_go { after_store two_before 0 (row 3 ∷ row 4 ∷ []) (stored 2 ((row 1 ∷ []) ∷ (row 2 ∷ []) ∷ [])) ≡ stored 4 ((row 3 ∷ row 4 ∷ []) ∷ []) }
    ensures its_row { rows_at_end 2 1 4 (row 3 ∷ row 4 ∷ []) ≡ row 3 ∷ [] }
    ensures heavy_while_taking { map (is_intensive two_before) (taking ∷ giving ∷ spent ∷ []) ≡ true ∷ false ∷ false ∷ [] }
{}

/// The same by a pull in a world.
pub fn pulls_let_go()
    ensures { map (λ (n : Node). n.progress) (after_pull before 0 0 (record a_slice { progress = stored 1 ((row 1 ∷ []) ∷ []) }) the_pipe (row 2 ∷ row 3 ∷ [])).nodes ≡ stored 3 ((row 2 ∷ row 3 ∷ []) ∷ []) ∷ [] }
{}

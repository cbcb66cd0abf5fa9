//! Whole runs, record by record, as theorems of functions that do nothing.
ghost use Rattle.std.specs.Prelude.{◌≡◌, [], ◌∷◌, false, Some};
ghost use Rattle.ps_frame.specs.Functions.{Functions};
ghost use Rattle.world_runs.specs.Examples.{Leaves, given, one_worker};
ghost use Rattle.world_samples.specs.GroupRun.{counted, group_journal, group_shape, in_two_lists};
ghost use Rattle.world_samples.specs.MapRun.{map_journal, map_shape, turned_round};

/// A run that counts the rows of each key, with one worker and two lists of keys. In the first phase the group-by keeps its one morsel; the second Open splits its two keys into two lists, and each list gives a morsel of its own.
pub fn counts_in_two_lists()
    ensures { (F : Functions) → Leaves F group_shape in_two_lists group_journal ([] ∷ ([] ∷ []) ∷ (((counted 1 2 ∷ []) ∷ (counted 2 1 ∷ []) ∷ []) ∷ []) ∷ []) }
{}

/// A run of a map of a function that the caller handed in, with one worker. In the first phase the map stores its one morsel; the second Open fills it with what the function answers to all rows, and from then on it gives these.
pub fn fills_a_map()
    ensures { (F : Functions) → F.streams 0 ≡ false → F.answer 0 given ≡ Some turned_round → Leaves F map_shape one_worker map_journal ([] ∷ ((given.rows ∷ []) ∷ []) ∷ ((turned_round.rows ∷ []) ∷ []) ∷ []) }
{}

// What is promised of every reached world whatever its nodes mean, as theorems of functions that do nothing.
ghost use Rattle.std.specs.Prelude.{◌≡◌, ◌+◌, ◌++◌, ◌∷◌, List, [], length, ℕ};
ghost use Rattle.ps_frame.specs.Functions.{Functions};
ghost use Rattle.ps_frame.specs.Tables.{Row};
ghost use Rattle.ps_meaning.specs.Cases.{rows_from_end};
ghost use Rattle.ps_meaning.specs.Shape.{Shape};
ghost use Rattle.ps_meaning.specs.Sound.{IsSound};
ghost use Rattle.ps_options.specs.declared.options.Options.{Options};
ghost use Rattle.ps_turns.specs.Ends.{HoldsEnd, last_kept, rows_at_end};
ghost use Rattle.ps_turns.specs.Heads.{stored_rows};
ghost use Rattle.ps_world.specs.Facts.{Facts};
ghost use Rattle.ps_world.specs.Opening.{Reaches};
ghost use Rattle.ps_world.specs.Promises.{DropsAtLast, Halts, IsClaimedOnce, StoresFew};
ghost use Rattle.ps_world.specs.World.{World};

/// Each number of a source is claimed at most once, and handed in at most once, after its claim.
pub fn numbers_come_once()
    ensures { (F : Functions) (shape : Shape) → IsSound F shape → (o : Options) (w : World) → Reaches F shape o w → IsClaimedOnce w }
{}

/// The claim in which a slice has its last row drops its input. A node whose every way on in the phase meets a dropped pipe claims nothing more in it.
pub fn slices_halt_sources()
    ensures drops { (F : Functions) (w : World) → DropsAtLast F w }
    ensures halts { (F : Functions) (w : World) → Facts F w → Halts F w }
{}

/// A slice from the end stores few rows beside its first morsel. What it stores is enough: a pull keeps that, and the rows that it makes are those of all that came.
pub fn ends_are_enough()
    ensures few { (F : Functions) (shape : Shape) (o : Options) (w : World) → Reaches F shape o w → StoresFew w }
    ensures pulled { (back : ℕ) (came m : List Row) (count : ℕ) (store : List (List Row)) → HoldsEnd back came count store → HoldsEnd back (came ++ m) (count + length m) (last_kept back (store ++ m ∷ [])) }
    ensures made { (back n : ℕ) (came : List Row) (count : ℕ) (store : List (List Row)) → HoldsEnd back came count store → rows_at_end back n count (stored_rows store) ≡ rows_from_end back n came }
{}

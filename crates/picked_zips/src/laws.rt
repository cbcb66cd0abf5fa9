//! Laws of zips, as theorems of functions that do nothing.
ghost use Rattle.std.specs.Prelude.{List, ℕ};
ghost use Rattle.ps_frame.specs.Causes.{Column};
ghost use Rattle.picked_zips.specs.Picked.{StandForAll, ZipsAlike};

/// Where columns at some places stand for all, their zip has the picked values of the rows of all, and is broken and loses by the same causes.
pub fn picked_zips_stand_for_all()
    ensures { (at : ℕ) (cs : List Column) (js : List ℕ) → StandForAll cs js → ZipsAlike at cs js }
{}

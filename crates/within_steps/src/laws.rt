//! Laws of steps over tables that lie within others, as theorems of functions that do nothing.
ghost use Rattle.std.specs.Prelude.{List, ℕ};
ghost use Rattle.ps_frame.specs.Functions.{Functions, IsLawful};
ghost use Rattle.ps_frame.specs.Tables.{Table};
ghost use Rattle.ps_meaning.specs.Cases.{Case};
ghost use Rattle.ps_meaning.specs.Steps.{Step};
ghost use Rattle.ps_meaning.specs.Within.{Within};
ghost use Rattle.within_steps.specs.Within.{AreWithin};

/// A step over tables that are within others gives a table that is within one which it gives over those, in whatever order its rows come.
pub fn steps_stay_within()
    ensures { (F : Functions) (at : ℕ) (step : Step) (ps ls : List Table) (T : Table) → IsLawful F → AreWithin ps ls → Case F at step ps T → (K : Table) × Case F at step ls K × Within T K }
{}

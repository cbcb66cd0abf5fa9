//! A law of the columns of a distinct, as a theorem of a function that does nothing.
ghost use Rattle.std.specs.Prelude.{◌≡◌, ◌++◌, true, List};
ghost use Rattle.ps_meaning.specs.Schemas.{is_among};
ghost use Rattle.ps_meaning.specs.Steps.{Name};
ghost use Rattle.plan_rules.specs.Distinct.{other_than};

/// Each name among all is a key's, or one of the others.
pub fn names_are_of_keys_or_others()
    ensures { (n : Name) (keys all : List Name) → is_among n all ≡ true → is_among n (keys ++ other_than keys all) ≡ true }
{}

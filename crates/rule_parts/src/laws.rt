//! Laws of the parts of steps, as theorems of functions that do nothing.
ghost use Rattle.rule_parts.specs.Good.{KnownNamesStay};

/// While the rules lower a step, each name that is known stays known: fresh names are only added.
pub fn known_names_stay()
    ensures { KnownNamesStay }
{}

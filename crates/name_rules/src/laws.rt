//! Laws of rules on names and kinds, as theorems of functions that do nothing.
ghost use Rattle.name_rules.specs.Lawful.{FiltersKeepRules};

/// A filter by an expression that is a truth value over columns, whose names differ, keeps the rules on names and kinds.
pub fn filters_keep_rules()
    ensures { FiltersKeepRules }
{}

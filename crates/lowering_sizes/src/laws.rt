//! Laws of sizes, as theorems of functions that do nothing.
ghost use Rattle.lowering_sizes.specs.Sizes.{ExprsStaySmall, SelectsStaySmall};

/// What a call makes for expressions is large only where the select of these over the input is, or the input's table.
/// So is what a select makes.
pub fn calls_stay_small()
    ensures exprs { ExprsStaySmall }
    ensures selects { SelectsStaySmall }
{}

//! Laws of kinds, as theorems of functions that do nothing.
ghost use Rattle.lowering_kinds.specs.Kinds.{KindsStay, SelectsHaveFields};

/// Over the schema of the answered stream the answered expressions have the kinds of the asked ones, and the stream of a
/// select has the fields of its expressions, whether or not the nodes mean tables.
pub fn calls_keep_kinds()
    ensures exprs { KindsStay }
    ensures selects { SelectsHaveFields }
{}

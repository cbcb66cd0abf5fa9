//! Laws of names and kinds in new nodes, as theorems of functions that do nothing.
ghost use Rattle.lowering_names.specs.Lawful.{ExprsKeepRules, SelectsKeepRules};

/// Each node that a call makes for expressions, or that a select of expressions under different names makes, has a schema
/// with a column, which its kind gives; no name stands twice in it, each column that the node reads is there, and each of
/// its expressions has a kind.
pub fn calls_keep_rules()
    ensures exprs { ExprsKeepRules }
    ensures selects { SelectsKeepRules }
{}

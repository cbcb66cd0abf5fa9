//! Laws of nodes, as theorems of functions that do nothing.
ghost use Rattle.lowering_nodes.specs.Formed.{ExprsFormNodes, SelectsFormNodes};

/// Each node that a call makes for expressions reads earlier nodes, as many as its kind takes, its parameters fit its
/// kind, and its schema is the one that its kind gives, if it gives one. So it is with each that a select makes.
pub fn calls_form_nodes()
    ensures exprs { ExprsFormNodes }
    ensures selects { SelectsFormNodes }
{}

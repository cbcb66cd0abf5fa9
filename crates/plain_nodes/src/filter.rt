//! The filter.
ghost use Rattle.std.specs.Prelude.{◌≡◌};
ghost use Rattle.plain_nodes.specs.Exprs.{expr_shown};
ghost use Rattle.plain_nodes.specs.Seen.{IsNew};
ghost use Rattle.plain_nodes.specs.Plain as plain;
ghost use Rattle.ps_meaning.specs.Shape.{filter_node};

use crate::stream_expr::StreamExpr;

/// Keeps the rows of which the predicate is true.
#[derive(Drop)]
pub struct FilterNode {
    pub(crate) predicate: StreamExpr,
}

impl FilterNode {
    /// The filter by this predicate.
    pub fn new(predicate: StreamExpr) -> FilterNode
        ensures { IsNew (filter_node (expr_shown predicate).1) (plain.filter result) }
    {
        FilterNode { predicate }
    }

    /// Which rows it keeps.
    pub fn predicate(&self) -> &StreamExpr
        ensures { result.now ≡ self.now.predicate }
    {
        &self.predicate
    }
}

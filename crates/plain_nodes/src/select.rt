//! Selects.
ghost use Rattle.std.specs.Prelude.{◌≡◌, map};
ghost use Rattle.plain_nodes.specs.Exprs.{expr_shown};
ghost use Rattle.plain_nodes.specs.Seen.{IsNew};
ghost use Rattle.plain_nodes.specs.Plain as plain;
ghost use Rattle.ps_meaning.specs.Shape.{select_node};

use crate::stream_expr::StreamExpr;
use ps_frame::schema::Schema;

/// Gives columns of expressions, alone or put beside those of its input.
#[derive(Drop)]
pub struct SelectNode {
    pub(crate) selectors: Vec<StreamExpr>,
    pub(crate) schema: Schema,
    pub(crate) extend_original: bool,
}

impl SelectNode {
    /// The select of these expressions, whose output has this schema.
    pub fn new(selectors: Vec<StreamExpr>, schema: Schema, extend_original: bool) -> SelectNode
        ensures new { IsNew (select_node (map expr_shown selectors.items) extend_original) (plain.select result) }
        ensures schema { result.schema ≡ schema }
    {
        SelectNode {
            selectors,
            schema,
            extend_original,
        }
    }

    /// The expressions of its columns.
    pub fn selectors(&self) -> &[StreamExpr]
        ensures { result.now ≡ self.now.selectors.items }
    {
        self.selectors.as_slice()
    }

    /// The schema of what it gives.
    pub fn schema(&self) -> &Schema
        ensures { result.now ≡ self.now.schema }
    {
        &self.schema
    }

    /// Whether its columns are put beside those of its input.
    pub fn extends_original(&self) -> bool
        ensures { result ≡ self.now.extend_original }
    {
        self.extend_original
    }
}

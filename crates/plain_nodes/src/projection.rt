//! The projection.
ghost use Rattle.std.specs.Prelude.{◌≡◌};
ghost use Rattle.ps_meaning.specs.Shape.{simple_projection};
ghost use Rattle.plain_nodes.specs.Seen.{IsNew};
ghost use Rattle.plain_nodes.specs.Plain as plain;

use ps_frame::schema::Schema;
use pu_base::PlSmallStr;

/// Gives some columns of its input.
#[derive(Drop)]
pub struct SimpleProjectionNode {
    pub(crate) columns: Vec<PlSmallStr>,
    pub(crate) input_schema: Schema,
}

impl SimpleProjectionNode {
    /// The projection on these columns of inputs with this schema.
    pub fn new(columns: Vec<PlSmallStr>, input_schema: Schema) -> SimpleProjectionNode
        ensures new { IsNew (simple_projection columns.items) (plain.simple_projection result) }
        ensures input_schema { result.input_schema ≡ input_schema }
    {
        SimpleProjectionNode {
            columns,
            input_schema,
        }
    }

    /// The columns that it gives, in their order.
    pub fn columns(&self) -> &[PlSmallStr]
        ensures { result.now ≡ self.now.columns.items }
    {
        self.columns.as_slice()
    }

    /// The schema of its input.
    pub fn input_schema(&self) -> &Schema
        ensures { result.now ≡ self.now.input_schema }
    {
        &self.input_schema
    }
}

//! The sink.
ghost use Rattle.std.specs.Prelude.{◌≡◌, ◌≢◌, ◌+◌, ◌++◌, ◌<◌, ◌≤◌, [], Err, IfOk, None, OnErr, OnOk, length};
ghost use Rattle.ps_frame.specs.Aggregates.{max_rows};
ghost use Rattle.ps_frame.specs.declared.error.FrameError.{FrameError};
ghost use Rattle.node_states.specs.Views.{sides_of};
ghost use Rattle.ps_meaning.specs.Shape.{in_memory_sink};
ghost use Rattle.plain_nodes.specs.Seen.{IsNew, Updates};
ghost use Rattle.plain_nodes.specs.Kept.{rows_kept, schema_kept};
ghost use Rattle.plain_nodes.specs.Plain as plain;

use node_states::sink;
use ps_frame::error::FrameError;
use ps_frame::frame::DataFrame;
use ps_frame::frame_builder::FrameBuilder;
use ps_frame::schema::Schema;
use ps_ports::port_state::PortState;
use std::alloc::Global;

/// Keeps all of its input, as the answer of its graph.
#[derive(Drop)]
pub struct InMemorySinkNode {
    pub(crate) schema: Schema,
    pub(crate) kept: Option<FrameBuilder>,
}

/// The rows of a table behind those that were kept before.
fn with_rows(
    alloc: Global,
    schema: &Schema,
    kept: Option<FrameBuilder>,
    df: &DataFrame,
) -> Result<FrameBuilder, FrameError>
    ensures kept { IfOk result (λ b. b.rows ≡ rows_kept kept ++ df.now.rows) }
    ensures kind { result ≡ Err FrameError.Kind → schema_kept schema.now kept ≢ df.now.schema }
    ensures too_many { result ≡ Err FrameError.Rows → max_rows < length (rows_kept kept) + length df.now.rows }
    ensures memory { OnErr result (schema_kept schema.now kept ≡ df.now.schema → length (rows_kept kept) + length df.now.rows ≤ max_rows → result ≡ Err FrameError.OutOfMemory) }
{
    let builder = match kept {
        Some(builder) => builder,
        None => FrameBuilder::new(alloc, schema)?,
    };
    builder.with_table(alloc, df)
}

impl InMemorySinkNode {
    /// The sink of rows with this schema.
    pub fn new(schema: Schema) -> InMemorySinkNode
        ensures new { IsNew in_memory_sink (plain.in_memory_sink result) }
        ensures schema { result.schema ≡ schema }
    {
        InMemorySinkNode { schema, kept: None }
    }

    /// Keeps the rows of a table behind those that it kept before. Where that fails it keeps none.
    ///
    /// Fails where the table has another schema, where there are more rows than `u32::MAX`, or for want of memory.
    pub fn store(&mut self, alloc: Global, df: &DataFrame) -> Result<(), FrameError>
        ensures kept { OnOk result (rows_kept self.new.kept ≡ rows_kept self.old.kept ++ df.now.rows) }
        ensures kind { result ≡ Err FrameError.Kind → schema_kept self.old.schema self.old.kept ≢ df.now.schema }
        ensures too_many { result ≡ Err FrameError.Rows → max_rows < length (rows_kept self.old.kept) + length df.now.rows }
        ensures memory { OnErr result (schema_kept self.old.schema self.old.kept ≡ df.now.schema → length (rows_kept self.old.kept) + length df.now.rows ≤ max_rows → result ≡ Err FrameError.OutOfMemory) }
        ensures dropped { OnErr result (self.new.kept ≡ None) }
        ensures schema { self.new.schema ≡ self.old.schema }
    {
        let kept = self.kept.take();
        let builder = with_rows(alloc, &self.schema, kept, df)?;
        self.kept = Some(builder);
        Ok(())
    }

    /// The rows that it kept, as a table; it then keeps none.
    ///
    /// Fails only for want of memory.
    pub fn output(&mut self, alloc: Global) -> Result<DataFrame, FrameError>
        ensures rows { IfOk result (λ t. t.rows ≡ rows_kept self.old.kept) }
        ensures memory { OnErr result (result ≡ Err FrameError.OutOfMemory) }
        ensures given { self.new ≡ record self.old { kept = None } }
    {
        match self.kept.take() {
            Some(builder) => builder.finish(alloc),
            None => DataFrame::empty_with_schema(alloc, &self.schema),
        }
    }

    /// Ready until its input is done.
    pub fn update(&self, recv: &mut [PortState])
        requires { length recv.old ≡ 1 }
        ensures { Updates (plain.in_memory_sink self.now) (sides_of recv.old []) (plain.in_memory_sink self.now) (sides_of recv.new []) }
    {
        sink::answer(recv);
    }
}

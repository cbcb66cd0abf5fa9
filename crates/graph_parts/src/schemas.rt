//! Schemas of physical nodes and of what they read.
ghost use Rattle.std.specs.Prelude.{◌≡◌, Err, IfOk, OnErr, map};
ghost use Rattle.keyed_slots.specs.Slots.{value_at};
ghost use Rattle.ps_frame.specs.declared.refusal.PolarsError.{PolarsError};
ghost use Rattle.ps_phys.specs.Shown.{stream_of, streams_of};
ghost use Rattle.graph_parts.specs.Read.{schemas_read, slot_schema};

use keyed_slots::SlotMap;
use ps_frame::frame::DataFrame;
use ps_frame::refusal::{PolarsError, PolarsResult};
use ps_frame::schema::Schema;
use ps_phys::phys::{PhysNode, PhysNodeKey, PhysStream};
use std::alloc::Global;

/// An equal schema. Its own error is another one, and stands for want of memory alone.
pub fn shared(alloc: Global, schema: &Schema) -> PolarsResult<Schema>
    ensures same { IfOk result (λ s. s ≡ schema.now) }
    ensures memory { OnErr result (result ≡ Err PolarsError.OutOfMemory) }
{
    match schema.try_share(alloc) {
        Ok(schema) => Ok(schema),
        Err(_error) => Err(PolarsError::OutOfMemory),
    }
}

/// An equal table, which shares its columns. Its own error is another one, and stands for want of memory alone.
pub fn shared_table(alloc: Global, table: &DataFrame) -> PolarsResult<DataFrame>
    ensures same { IfOk result (λ t. t ≡ table.now) }
    ensures memory { OnErr result (result ≡ Err PolarsError.OutOfMemory) }
{
    match table.share(alloc) {
        Ok(table) => Ok(table),
        Err(_error) => Err(PolarsError::OutOfMemory),
    }
}

/// The schema of a stream; one without fields where its node isn't there.
pub fn schema_of(
    alloc: Global,
    phys: &SlotMap<PhysNodeKey, PhysNode>,
    input: PhysStream,
) -> PolarsResult<Schema>
    ensures schema { IfOk result (λ s. s ≡ slot_schema (value_at phys.now.slots (stream_of input).0)) }
    ensures memory { OnErr result (result ≡ Err PolarsError.OutOfMemory) }
{
    match phys.get(input.node) {
        Some(node) => shared(alloc, &node.output_schema),
        None => Ok(Schema::new(alloc)),
    }
}

/// The schemas of streams, in order.
pub fn schemas_of(
    alloc: Global,
    phys: &SlotMap<PhysNodeKey, PhysNode>,
    inputs: &[PhysStream],
) -> PolarsResult<Vec<Schema>>
    ensures schemas { IfOk result (λ schemas. schemas.items ≡ schemas_read phys.now.slots (streams_of inputs.now)) }
    ensures memory { OnErr result (result ≡ Err PolarsError.OutOfMemory) }
{
    let mut schemas = Vec::new(alloc);
    for input in inputs {
        let schema = schema_of(alloc, phys, *input)?;
        schemas.push(schema)?;
    }
    Ok(schemas)
}

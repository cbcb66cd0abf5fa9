//! The schemas of physical nodes, in order.
ghost use Rattle.std.specs.Prelude.{◌≡◌, Err, IfOk, OnErr, map};
ghost use Rattle.graph_parts.specs.Read.{slot_schema};
ghost use Rattle.keyed_slots.specs.Slots.{value_at};
ghost use Rattle.ps_frame.specs.declared.refusal.PolarsError.{PolarsError};
ghost use Rattle.ps_phys.specs.declared.phys.PhysNodeKey.{PhysNodeKey as NodeKey};

use graph_parts::schemas::shared;
use keyed_slots::SlotMap;
use ps_frame::refusal::PolarsResult;
use ps_frame::schema::Schema;
use ps_phys::phys::{PhysNode, PhysNodeKey};
use std::alloc::Global;

/// The schema of a node; one without fields where it isn't there.
fn schema_at(
    alloc: Global,
    phys: &SlotMap<PhysNodeKey, PhysNode>,
    key: PhysNodeKey,
) -> PolarsResult<Schema>
    ensures schema { IfOk result (λ s. s ≡ slot_schema (value_at phys.now.slots key.0)) }
    ensures memory { OnErr result (result ≡ Err PolarsError.OutOfMemory) }
{
    match phys.get(key) {
        Some(node) => shared(alloc, &node.output_schema),
        None => Ok(Schema::new(alloc)),
    }
}

/// The schemas of the nodes of these keys, in order.
///
/// Fails only for want of memory.
pub(crate) fn schemas_in(
    alloc: Global,
    phys: &SlotMap<PhysNodeKey, PhysNode>,
    order: &[PhysNodeKey],
) -> PolarsResult<Vec<Schema>>
    ensures schemas { IfOk result (λ schemas. schemas.items ≡ map (λ (k : NodeKey). slot_schema (value_at phys.now.slots k.0)) order.now) }
    ensures memory { OnErr result (result ≡ Err PolarsError.OutOfMemory) }
{
    let mut schemas = Vec::new(alloc);
    for key in order {
        let schema = schema_at(alloc, phys, *key)?;
        schemas.push(schema)?;
    }
    Ok(schemas)
}

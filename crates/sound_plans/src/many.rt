//! Nodes over any number of inputs, and the schemas that nodes read.
ghost use Rattle.std.specs.Prelude.{◌≡◌, ◌++◌, Bool, Err, IfOk, IfSome, IsTrue, OnErr};
ghost use Rattle.keyed_slots.specs.Slots.{value_at};
ghost use Rattle.ps_frame.specs.Functions.{Functions as AllFunctions};
ghost use Rattle.ps_frame.specs.declared.refusal.PolarsError.{PolarsError};
ghost use Rattle.ps_meaning.specs.Shape.{ordered_union, zip_node};
ghost use Rattle.ps_phys.specs.Shown.{streams_of};
ghost use Rattle.sound_plans.specs.Fit.{IsFitOver};
ghost use Rattle.sound_plans.specs.Read.{schemas_read, slot_schema};

use keyed_slots::SlotMap;
use ps_frame::refusal::{PolarsError, PolarsResult};
use ps_frame::schema::Schema;
use ps_phys::phys::{PhysNode, PhysNodeKey, PhysStream};
use ps_validate::columns::push_all;
use pu_base::Node;
use std::alloc::Global;

/// The schema of a stream, if its node is there.
pub fn schema_of(phys: &SlotMap<PhysNodeKey, PhysNode>, input: PhysStream) -> Option<&Schema>
    ensures { IfSome result (λ s. s.now ≡ slot_schema (value_at phys.now.slots input.node.0)) }
{
    match phys.get(input.node) {
        Some(node) => Some(&node.output_schema),
        None => None,
    }
}

/// Whether a union of streams is fit: each has the union's schema.
pub fn union(phys: &SlotMap<PhysNodeKey, PhysNode>, inputs: &[PhysStream], schema: &Schema) -> bool
    ensures { IsTrue result → (F : AllFunctions) → IsFitOver F ordered_union schema.now (schemas_read phys.now.slots (streams_of inputs.now)) }
{
    // A law: no name stands twice in it.
    schema.names_differ();
    if inputs.is_empty() {
        return false;
    }
    if schema.is_empty() {
        return false;
    }
    for input in inputs {
        let Some(other) = schema_of(phys, *input) else {
            return false;
        };
        let same = other.same(schema);
        if !same {
            return false;
        }
    }
    true
}

// Adds the fields of a schema, unless a name would stand twice. Fails only for want of memory.
fn add_fields(alloc: Global, schema: &mut Schema, other: &Schema) -> PolarsResult<bool>
    ensures added { IfOk result (λ added. IsTrue added → schema.new ≡ schema.old ++ other.now) }
    ensures memory { OnErr result (result ≡ Err PolarsError.OutOfMemory) }
{
    match push_all(alloc, Node(0), schema, other) {
        Ok(()) => Ok(true),
        Err(PolarsError::OutOfMemory) => Err(PolarsError::OutOfMemory),
        Err(_error) => Ok(false),
    }
}

/// Whether a zip of streams is fit: it has the fields of all, in order.
///
/// Fails only for want of memory.
pub fn zip(
    alloc: Global,
    phys: &SlotMap<PhysNodeKey, PhysNode>,
    inputs: &[PhysStream],
    schema: &Schema,
) -> PolarsResult<bool>
    ensures fit { IfOk result (λ fit. IsTrue fit → (F : AllFunctions) (extend : Bool) → IsFitOver F (zip_node extend) schema.now (schemas_read phys.now.slots (streams_of inputs.now))) }
    ensures memory { OnErr result (result ≡ Err PolarsError.OutOfMemory) }
{
    // A law: no name stands twice in it.
    schema.names_differ();
    if inputs.is_empty() {
        return Ok(false);
    }
    if schema.is_empty() {
        return Ok(false);
    }
    let mut joined = Schema::new(alloc);
    for input in inputs {
        let Some(other) = schema_of(phys, *input) else {
            return Ok(false);
        };
        let added = add_fields(alloc, &mut joined, other)?;
        if !added {
            return Ok(false);
        }
    }
    Ok(joined.same(schema))
}

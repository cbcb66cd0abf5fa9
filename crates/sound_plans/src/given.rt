//! Schemas that steps give, beside those that nodes have.
ghost use Rattle.std.specs.Prelude.{◌≡◌, Contains, Err, IfOk, IsTrue, Ok, OnErr};
ghost use Rattle.ps_frame.specs.Tables.{Fields};
ghost use Rattle.ps_frame.specs.declared.refusal.PolarsError.{PolarsError};
ghost use Rattle.ps_meaning.specs.Sound.{HasFieldsOf};

use ps_frame::refusal::{PolarsError, PolarsResult};
use ps_frame::schema::Schema;
use ps_frame::value::DataType;
use pu_base::PlSmallStr;

/// Whether a schema is the one that was given. A step that was refused gave none.
///
/// Fails only for want of memory.
pub fn is_given(given: PolarsResult<Schema>, schema: &Schema) -> PolarsResult<bool>
    ensures given { IfOk result (λ is. IsTrue is → given ≡ Ok schema.now) }
    ensures memory { OnErr result (result ≡ Err PolarsError.OutOfMemory) }
{
    match given {
        Ok(given) => Ok(given.same(schema)),
        Err(PolarsError::OutOfMemory) => Err(PolarsError::OutOfMemory),
        Err(_error) => Ok(false),
    }
}

/// Whether each field of a schema is one of those that were given. A step that was refused gave none.
///
/// Fails only for want of memory.
pub fn has_fields_of(given: PolarsResult<Schema>, schema: &Schema) -> PolarsResult<bool>
    ensures has { IfOk result (λ has. IsTrue has → (fields : Fields) × (given ≡ Ok fields) × HasFieldsOf fields schema.now) }
    ensures memory { OnErr result (result ≡ Err PolarsError.OutOfMemory) }
{
    match given {
        Ok(given) => Ok(are_fields_of(&given, schema)),
        Err(PolarsError::OutOfMemory) => Err(PolarsError::OutOfMemory),
        Err(_error) => Ok(false),
    }
}

// Whether a schema has a field of this name and kind.
fn has_field(given: &Schema, name: &PlSmallStr, kind: DataType) -> bool
    ensures { IsTrue result → Contains given.now (name.now, kind) }
{
    match given.index_of(name.as_str()) {
        Some(place) => given.kind(place) == kind,
        None => false,
    }
}

// Whether each field of a schema is one of another's.
fn are_fields_of(given: &Schema, schema: &Schema) -> bool
    ensures { IsTrue result → HasFieldsOf given.now schema.now }
{
    // A law: no name stands twice.
    schema.names_differ();
    for place in 0..schema.len() {
        let has = has_field(given, schema.name(place), schema.kind(place));
        if !has {
            return false;
        }
    }
    true
}

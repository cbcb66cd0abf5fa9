// Equal copies of what a plan's nodes say, whose want of memory is the lowering's.
ghost use Rattle.std.specs.Prelude.{◌≡◌, Err, IfOk, OnErr};
ghost use Rattle.ps_frame.specs.declared.refusal.PolarsError.{PolarsError};
ghost use Rattle.ps_meaning.specs.Schemas.{names_of};

use lowering_parts::names::copied;
use ps_copies::try_clone::TryClone;
use ps_frame::frame::DataFrame;
use ps_frame::refusal::{PolarsError, PolarsResult};
use ps_frame::schema::Schema;
use pu_base::PlSmallStr;
use std::alloc::Global;

/// An equal value.
///
/// Fails only for want of memory.
pub(crate) fn equal<T: TryClone>(alloc: Global, value: &T) -> PolarsResult<T>
    ensures same { IfOk result (λ copy. copy ≡ value.now) }
    ensures memory { OnErr result (result ≡ Err PolarsError.OutOfMemory) }
{
    // A match and no `?`: an error of copies doesn't convert, and is want of memory alone.
    match value.try_clone(alloc) {
        Ok(copy) => Ok(copy),
        Err(_error) => Err(PolarsError::OutOfMemory),
    }
}

/// The same table; its values are not copied.
///
/// Fails only for want of memory.
pub(crate) fn shared(alloc: Global, df: &DataFrame) -> PolarsResult<DataFrame>
    ensures same { IfOk result (λ copy. copy ≡ df.now) }
    ensures memory { OnErr result (result ≡ Err PolarsError.OutOfMemory) }
{
    match df.share(alloc) {
        Ok(copy) => Ok(copy),
        Err(_error) => Err(PolarsError::OutOfMemory),
    }
}

/// The names of a schema's columns, in order.
///
/// Fails only for want of memory.
pub(crate) fn names_in(alloc: Global, schema: &Schema) -> PolarsResult<Vec<PlSmallStr>>
    ensures names { IfOk result (λ names. names.items ≡ names_of schema.now) }
    ensures memory { OnErr result (result ≡ Err PolarsError.OutOfMemory) }
{
    let mut names = Vec::with_capacity(alloc, schema.len())?;
    for i in 0..schema.len() {
        names.push(copied(alloc, schema.name(i))?)?;
    }
    Ok(names)
}

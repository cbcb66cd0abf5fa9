// Values at places of a whole operand.
ghost use Rattle.std.specs.Prelude.{◌≡◌, ◌+ℤ◌, ℕ, IfOk, OnErr, Err, map, reverse};
ghost use Rattle.std.specs.List.{AllZip};
ghost use Rattle.ps_frame.specs.Eval.{clipped, picked, picked_at, slice_start};
ghost use Rattle.ps_frame.specs.Evaluated.{Holds};

use crate::values::ValueList;
use ps_frame::error::FrameError;
use ps_frame::value::{Cell, DataFault, Value};
use std::alloc::Global;

/// The same values.
///
/// Fails only for want of memory.
pub fn copies(alloc: Global, values: &[Value]) -> Result<Vec<Value>, FrameError>
    ensures same { IfOk result (λ copy. copy.items ≡ values.now) }
    ensures memory { OnErr result (result ≡ Err FrameError.OutOfMemory) }
{
    let mut out = Vec::with_capacity(alloc, values.len())?;
    for value in values {
        out.push(value.try_clone(alloc)?)?;
    }
    Ok(out)
}

/// The values in the opposite order.
///
/// Fails only for want of memory.
pub fn reversed(alloc: Global, values: &[Value]) -> Result<Vec<Value>, FrameError>
    ensures turned { IfOk result (λ out. out.items ≡ reverse values.now) }
    ensures memory { OnErr result (result ≡ Err FrameError.OutOfMemory) }
{
    let mut out = copies(alloc, values)?;
    out.reverse();
    Ok(out)
}

/// The values at these indices: null for a null index, and the fault `Gather` for an index below 0 or
/// not below the number of values.
///
/// Fails only for want of memory.
pub fn gathered<V: ValueList, I: ValueList>(
    alloc: Global,
    values: &V,
    indices: &I,
) -> Result<Vec<Cell>, FrameError>
    ensures cells { IfOk result (λ cells. (node : ℕ) → AllZip Holds cells.items (map (picked node (V.values values.now)) (I.values indices.now))) }
    ensures memory { OnErr result (result ≡ Err FrameError.OutOfMemory) }
{
    let mut cells = Vec::with_capacity(alloc, indices.len())?;
    for i in 0..indices.len() {
        cells.push(pick(alloc, values, indices.value(i))?)?;
    }
    Ok(cells)
}

fn pick<V: ValueList>(alloc: Global, values: &V, index: &Value) -> Result<Cell, FrameError>
    ensures cell { IfOk result (λ cell. (node : ℕ) → Holds cell (picked node (V.values values.now) index.now)) }
    ensures memory { OnErr result (result ≡ Err FrameError.OutOfMemory) }
{
    match index {
        Value::Int64(z) => match usize::try_from(*z) {
            Ok(place) => pick_at(alloc, values, place),
            Err(_) => Ok(Cell::Bad(DataFault::Gather)),
        },
        Value::IdxSize(n) => pick_at(alloc, values, *n as usize),
        Value::Null | Value::Boolean(_) | Value::String(_) => Ok(Cell::Val(Value::Null)),
    }
}

#[tactic(auto, using(std::proofs::lemmas::Option::get_or_from_slice_get))]
fn pick_at<V: ValueList>(alloc: Global, values: &V, place: usize) -> Result<Cell, FrameError>
    ensures cell { IfOk result (λ cell. (node : ℕ) → Holds cell (picked_at node (V.values values.now) place)) }
    ensures memory { OnErr result (result ≡ Err FrameError.OutOfMemory) }
{
    if place < values.len() {
        Ok(Cell::Val(values.value(place).try_clone(alloc)?))
    } else {
        Ok(Cell::Bad(DataFault::Gather))
    }
}

/// Where a slice of a number of values begins and ends: from the offset on, which counts from the end where
/// it is negative, as many as the length says, and both clipped to the values that there are.
pub fn slice_bounds(count: usize, offset: i64, length: i64) -> (usize, usize)
    ensures from { result.0 ≡ clipped count (slice_start count offset) }
    ensures to { result.1 ≡ clipped count (slice_start count offset +ℤ length) }
{
    let start = slice_from(count, offset);
    (clip(count, start), clip(count, start + length as i128))
}

fn slice_from(count: usize, offset: i64) -> i128
    ensures { result ≡ slice_start count offset }
{
    if offset < 0 {
        offset as i128 + count as i128
    } else {
        offset as i128
    }
}

fn clip(count: usize, place: i128) -> usize
    ensures { result ≡ clipped count place }
{
    if place < 0 {
        0
    } else if count as i128 <= place {
        count
    } else {
        place as usize
    }
}

// What takes whole columns: where one has a fault there are no cells.
ghost use Rattle.std.specs.Prelude.{◌≡◌, ◌∷◌, [], ℕ, IfOk, reverse};
ghost use Rattle.ps_expr_eval.specs.Held.{Keeps, values_of};
ghost use Rattle.ps_expr_eval.specs.Wholes.{IsOfWhole, called_kind, gathers, int_of, picked_column, slice_of, slices, sorts};
ghost use Rattle.ps_frame.specs.Causes.{Column as AColumn, whole_column};
ghost use Rattle.ps_frame.specs.Sorting.{values_in_order};
ghost use Rattle.ps_frame.specs.Eval.{at, function_column, operand, slice_column};
ghost use Rattle.ps_frame.specs.declared.value.Value.TheVariants as val;

use crate::computed::{Cells, ComputedColumn, Values, computed_ended, computed_whole};
use crate::elementwise::{Unary, unary_part};
use ps_compute::order::{Direction, sorted_column, sorted_values};
use ps_compute::selection::{gathered, slice_bounds};
use ps_frame::expr::FunctionExpr;
use ps_frame::value::{DataFault, DataType, Value};
use std::alloc::{AllocError, Global};

/// The values in the opposite order.
///
/// Fails only for want of memory.
pub fn reversed_part(alloc: Global, input: ComputedColumn) -> Result<ComputedColumn, AllocError>
    ensures kind { IfOk result (λ part. part.dtype ≡ input.dtype) }
    ensures cells { IfOk result (λ part. IsOfWhole (λ vs. whole_column (reverse (operand 0 vs))) (input ∷ []) part) }
{
    let dtype = input.dtype;
    let outcome = input.settled(alloc)?;
    match outcome {
        Ok(values) => reversed_values(alloc, dtype, values),
        Err(fault) => Ok(computed_ended(alloc, dtype, fault)),
    }
}

fn reversed_values(
    alloc: Global,
    dtype: DataType,
    values: Values,
) -> Result<ComputedColumn, AllocError>
    ensures kind { IfOk result (λ part. part.dtype ≡ dtype) }
    ensures cells { IfOk result (λ part. Keeps part (whole_column (reverse (values_of values)))) }
{
    let mut values = values.into_vec(alloc)?;
    values.reverse();
    Ok(computed_whole(dtype, values))
}

/// What a function gives of its input.
///
/// Fails only for want of memory.
pub fn function_part(
    alloc: Global,
    function: FunctionExpr,
    input: ComputedColumn,
) -> Result<ComputedColumn, AllocError>
    ensures kind { IfOk result (λ part. part.dtype ≡ called_kind function input.dtype) }
    ensures cells { IfOk result (λ part. (node : ℕ) (c : AColumn) → Keeps input c → Keeps part (function_column node function c)) }
{
    match function {
        FunctionExpr::Not => unary_part(alloc, Unary::Not, &input),
        FunctionExpr::IsNull => unary_part(alloc, Unary::IsNull, &input),
        FunctionExpr::IsNotNull => unary_part(alloc, Unary::IsNotNull, &input),
        FunctionExpr::Reverse => reversed_part(alloc, input),
    }
}

/// The values in their stable order.
///
/// Fails only for want of memory.
pub fn sorted_part(
    alloc: Global,
    descending: bool,
    nulls_last: bool,
    input: ComputedColumn,
) -> Result<ComputedColumn, AllocError>
    ensures kind { IfOk result (λ part. part.dtype ≡ input.dtype) }
    ensures cells { IfOk result (λ part. IsOfWhole (sorts descending nulls_last) (input ∷ []) part) }
{
    let dtype = input.dtype;
    let outcome = input.settled(alloc)?;
    match outcome {
        Ok(values) => sorted_whole(alloc, Direction::new(descending, nulls_last), dtype, values),
        Err(fault) => Ok(computed_ended(alloc, dtype, fault)),
    }
}

fn sorted_whole(
    alloc: Global,
    direction: Direction,
    dtype: DataType,
    values: Values,
) -> Result<ComputedColumn, AllocError>
    ensures kind { IfOk result (λ part. part.dtype ≡ dtype) }
    ensures cells { IfOk result (λ part. Keeps part (whole_column (values_in_order direction (values_of values)))) }
{
    let values = sorted_of(alloc, direction, values)?;
    Ok(ComputedColumn {
        dtype,
        cells: Cells::Whole(values),
        fault: None,
    })
}

// Values in their stable order; those of a column stay shared.
fn sorted_of(alloc: Global, direction: Direction, values: Values) -> Result<Values, AllocError>
    ensures { IfOk result (λ sorted. values_of sorted ≡ values_in_order direction (values_of values)) }
{
    match values {
        Values::Shared(column) => match sorted_column(alloc, direction, &column) {
            Ok(sorted) => Ok(Values::Shared(sorted)),
            // It fails for want of memory alone.
            Err(_) => Err(AllocError),
        },
        Values::Owned(values) => match sorted_values(direction, values) {
            Ok(sorted) => Ok(Values::Owned(sorted)),
            // It fails for want of memory alone.
            Err(_) => Err(AllocError),
        },
    }
}

/// The values at the places that indices name, null for a null index, and the fault `Gather` where
/// there is no such place.
///
/// Fails only for want of memory.
pub fn gathered_part(
    alloc: Global,
    input: ComputedColumn,
    indices: ComputedColumn,
) -> Result<ComputedColumn, AllocError>
    ensures kind { IfOk result (λ part. part.dtype ≡ input.dtype) }
    ensures cells { IfOk result (λ part. (node : ℕ) → IsOfWhole (gathers node) (input ∷ indices ∷ []) part) }
{
    let dtype = input.dtype;
    let input = input.settled(alloc)?;
    let values = match input {
        Ok(values) => values,
        Err(fault) => return Ok(computed_ended(alloc, dtype, fault)),
    };
    let indices = indices.settled(alloc)?;
    match indices {
        Ok(places) => gathered_cells(alloc, dtype, &values, &places),
        Err(fault) => Ok(computed_ended(alloc, dtype, fault)),
    }
}

fn gathered_cells(
    alloc: Global,
    dtype: DataType,
    values: &Values,
    indices: &Values,
) -> Result<ComputedColumn, AllocError>
    ensures kind { IfOk result (λ part. part.dtype ≡ dtype) }
    ensures cells { IfOk result (λ part. (node : ℕ) → Keeps part (picked_column node (values_of values.now) (values_of indices.now))) }
{
    match gathered(alloc, values, indices) {
        Ok(cells) => Ok(ComputedColumn {
            dtype,
            cells: Cells::Mixed(cells),
            fault: None,
        }),
        // It fails for want of memory alone.
        Err(_) => Err(AllocError),
    }
}

/// The values from an offset on, as many as a length says, or the fault `SliceBound` where one of
/// them is null or the length is negative.
///
/// Fails only for want of memory.
pub fn sliced_part(
    alloc: Global,
    input: ComputedColumn,
    offset: ComputedColumn,
    length: ComputedColumn,
) -> Result<ComputedColumn, AllocError>
    ensures kind { IfOk result (λ part. part.dtype ≡ input.dtype) }
    ensures cells { IfOk result (λ part. (node : ℕ) → IsOfWhole (slices node) (input ∷ offset ∷ length ∷ []) part) }
{
    let dtype = input.dtype;
    let input = input.settled(alloc)?;
    let values = match input {
        Ok(values) => values,
        Err(fault) => return Ok(computed_ended(alloc, dtype, fault)),
    };
    let offset = offset.settled(alloc)?;
    let offsets = match offset {
        Ok(offsets) => offsets,
        Err(fault) => return Ok(computed_ended(alloc, dtype, fault)),
    };
    let length = length.settled(alloc)?;
    match length {
        Ok(lengths) => {
            let from = number_in(&offsets);
            let count = number_in(&lengths);
            sliced_values(alloc, dtype, &values, from, count)
        }
        Err(fault) => Ok(computed_ended(alloc, dtype, fault)),
    }
}

// The first value, if it is an `Int64`.
fn number_in(values: &Values) -> Option<i64>
    ensures { result ≡ int_of (at 0 (values_of values.now)) }
{
    match values.first() {
        Some(Value::Int64(z)) => Some(*z),
        _ => None,
    }
}

fn sliced_values(
    alloc: Global,
    dtype: DataType,
    values: &Values,
    offset: Option<i64>,
    length: Option<i64>,
) -> Result<ComputedColumn, AllocError>
    ensures kind { IfOk result (λ part. part.dtype ≡ dtype) }
    ensures cells { IfOk result (λ part. (node : ℕ) → Keeps part (slice_of node (values_of values.now) offset length)) }
{
    match (offset, length) {
        (Some(offset), Some(length)) => slice_whole(alloc, dtype, values, offset, length),
        (None, _) => Ok(computed_ended(alloc, dtype, DataFault::SliceBound)),
        (Some(_), None) => Ok(computed_ended(alloc, dtype, DataFault::SliceBound)),
    }
}

fn slice_whole(
    alloc: Global,
    dtype: DataType,
    values: &Values,
    offset: i64,
    length: i64,
) -> Result<ComputedColumn, AllocError>
    ensures kind { IfOk result (λ part. part.dtype ≡ dtype) }
    ensures cells { IfOk result (λ part. (node : ℕ) → Keeps part (slice_column node (values_of values.now) (val.Int64 offset) (val.Int64 length))) }
{
    if length < 0 {
        return Ok(computed_ended(alloc, dtype, DataFault::SliceBound));
    }
    let (from, to) = slice_bounds(values.len(), offset, length);
    let values = values.between(alloc, from, to)?;
    Ok(ComputedColumn {
        dtype,
        cells: Cells::Whole(values),
        fault: None,
    })
}

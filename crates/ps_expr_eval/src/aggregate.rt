// Aggregates of whole columns.
ghost use Rattle.std.specs.Prelude.{◌≡◌, ◌∷◌, [], ℕ, IfOk, Some, filter, if◌then◌else◌, length, not, option_copied};
ghost use Rattle.ps_compute.specs.Nullable.{or_null};
ghost use Rattle.ps_expr_eval.specs.Held.{Keeps, values_of};
ghost use Rattle.ps_expr_eval.specs.Wholes.{IsOfWhole, aggregated_kind, aggregated_of, aggregates, aggregation_of, summed_kind};
ghost use Rattle.ps_frame.specs.Aggregates.{aggregate_column};
ghost use Rattle.ps_frame.specs.Causes.{whole_column};
ghost use Rattle.ps_frame.specs.Values.{is_null};

use crate::computed::{ComputedColumn, Values, computed_ended};
use crate::sources::{count_part, one_part};
use ps_compute::aggregates::{
    copy_or_null, count_distinct, count_not_null, first, greatest, last, least, sum,
};
use ps_frame::expr::IRAggExpr;
use ps_frame::value::{DataType, Value};
use pu_base::Node;
use std::alloc::{AllocError, Global};

/// The entry that an aggregate takes.
pub fn aggregated(aggregate: IRAggExpr) -> Node
    ensures { result ≡ aggregated_of aggregate }
{
    match aggregate {
        IRAggExpr::Min(input)
        | IRAggExpr::Max(input)
        | IRAggExpr::First(input)
        | IRAggExpr::Last(input)
        | IRAggExpr::Sum(input)
        | IRAggExpr::NUnique(input)
        | IRAggExpr::Count(input, _) => input,
    }
}

/// What an aggregate gives of its input: one cell.
///
/// Fails only for want of memory.
pub fn aggregated_part(
    alloc: Global,
    aggregate: IRAggExpr,
    input: ComputedColumn,
) -> Result<ComputedColumn, AllocError>
    ensures kind { IfOk result (λ part. part.dtype ≡ aggregated_kind (aggregation_of aggregate) input.dtype) }
    ensures cells { IfOk result (λ part. (node : ℕ) → IsOfWhole (aggregates node (aggregation_of aggregate) input.dtype) (input ∷ []) part) }
{
    let dtype = input.dtype;
    let outcome = input.settled(alloc)?;
    match outcome {
        Ok(values) => aggregate_of(alloc, aggregate, dtype, &values),
        Err(fault) => Ok(computed_ended(alloc, kind_of(aggregate, dtype), fault)),
    }
}

fn kind_of(aggregate: IRAggExpr, dtype: DataType) -> DataType
    ensures { result ≡ aggregated_kind (aggregation_of aggregate) dtype }
{
    match aggregate {
        IRAggExpr::Min(_) | IRAggExpr::Max(_) | IRAggExpr::First(_) | IRAggExpr::Last(_) => dtype,
        IRAggExpr::Sum(_) => summed(dtype),
        IRAggExpr::NUnique(_) | IRAggExpr::Count(_, _) => DataType::IdxSize,
    }
}

fn summed(dtype: DataType) -> DataType
    ensures { result ≡ summed_kind dtype }
{
    match dtype {
        DataType::Boolean => DataType::IdxSize,
        DataType::Int64 | DataType::IdxSize | DataType::String => dtype,
    }
}

fn aggregate_of(
    alloc: Global,
    aggregate: IRAggExpr,
    dtype: DataType,
    values: &Values,
) -> Result<ComputedColumn, AllocError>
    ensures kind { IfOk result (λ part. part.dtype ≡ aggregated_kind (aggregation_of aggregate) dtype) }
    ensures cells { IfOk result (λ part. (node : ℕ) → Keeps part (aggregate_column node (aggregation_of aggregate) (Some dtype) (values_of values.now))) }
{
    match aggregate {
        IRAggExpr::Min(_) => chosen_part(alloc, dtype, least(values)),
        IRAggExpr::Max(_) => chosen_part(alloc, dtype, greatest(values)),
        IRAggExpr::First(_) => chosen_part(alloc, dtype, first(values)),
        IRAggExpr::Last(_) => chosen_part(alloc, dtype, last(values)),
        IRAggExpr::Sum(_) => one_part(alloc, summed(dtype), sum(dtype, values)),
        IRAggExpr::NUnique(_) => match count_distinct(alloc, values) {
            Ok(count) => count_part(alloc, count),
            // It fails for want of memory alone.
            Err(_) => Err(AllocError),
        },
        IRAggExpr::Count(_, all) => count_part(alloc, counted(values, all)),
    }
}

fn counted(values: &Values, all: bool) -> usize
    ensures { result ≡ length (if all then values_of values.now else filter (λ v. not (is_null v)) (values_of values.now)) }
{
    if all {
        values.len()
    } else {
        count_not_null(values)
    }
}

fn chosen_part(
    alloc: Global,
    dtype: DataType,
    value: Option<&Value>,
) -> Result<ComputedColumn, AllocError>
    ensures kind { IfOk result (λ part. part.dtype ≡ dtype) }
    ensures cells { IfOk result (λ part. Keeps part (whole_column (or_null (option_copied value.entry) ∷ []))) }
{
    match copy_or_null(alloc, value) {
        Ok(value) => one_part(alloc, dtype, value),
        // It fails for want of memory alone.
        Err(_) => Err(AllocError),
    }
}

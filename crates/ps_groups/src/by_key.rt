// Counts and sums of the rows of each key, in one pass over the rows in their order.
ghost use Rattle.std.specs.Prelude.{◌≡◌, ◌∷◌, [], ◌≤◌, IfOk, Some, length, map};
ghost use Rattle.std.specs.List.{All};
ghost use Rattle.ps_frame.specs.Aggregates.{max_rows, sum_value};
ghost use Rattle.ps_frame.specs.Zip.{below};
ghost use Rattle.ps_frame.specs.declared.value.Value.TheVariants as val;
ghost use Rattle.ps_groups.specs.Reductions.{AreCounts, AreSums, count_values, values_of_key};
ghost use Rattle.ps_keys.specs.KeyRows.{AreBelow};
ghost use Rattle.ps_keys.specs.Numbering.{places_of};

use ps_compute::aggregates::{number, sum_of_kind};
use ps_compute::operators::int64_sum;
use ps_frame::column::Column;
use ps_frame::value::Value;
use ps_keys::key_rows::counts_of;
use std::alloc::{AllocError, Global};

/// How many rows each of so many keys has, where each row's key is given by its number.
///
/// Fails only for want of memory.
pub(crate) fn row_counts(
    alloc: Global,
    keys: &[usize],
    count: usize,
) -> Result<Vec<Value>, AllocError>
    requires below { AreBelow count keys.now }
    requires few { length keys.now ≤ max_rows }
    ensures { IfOk result (λ values. values.items ≡ map (λ k. val.IdxSize (length (places_of k keys.now))) (below count)) }
{
    let counts = counts_of(alloc, keys, count)?;
    counts_as_values(alloc, counts.as_slice())
}

/// How many values of a column in the rows of each key aren't null.
///
/// Fails only for want of memory.
pub(crate) fn value_counts(
    alloc: Global,
    column: &Column,
    keys: &[usize],
    count: usize,
) -> Result<Vec<Value>, AllocError>
    requires below { AreBelow count keys.now }
    requires long { length keys.now ≡ length column.now.values }
    requires few { length keys.now ≤ max_rows }
    ensures { IfOk result (λ values. values.items ≡ map (λ k. val.IdxSize (count_values (values_of_key column.now.values keys.now k))) (below count)) }
{
    let counts = counts_not_null(alloc, column, keys, count)?;
    counts_as_values(alloc, counts.as_slice())
}

/// The sum of a column's values in the rows of each key.
///
/// Fails only for want of memory.
pub(crate) fn sums(
    alloc: Global,
    column: &Column,
    keys: &[usize],
    count: usize,
) -> Result<Vec<Value>, AllocError>
    requires below { AreBelow count keys.now }
    requires long { length keys.now ≡ length column.now.values }
    ensures { IfOk result (λ values. values.items ≡ map (λ k. sum_value (Some column.now.kind) (values_of_key column.now.values keys.now k)) (below count)) }
{
    let sums = wrapped_sums(alloc, column, keys, count)?;
    let mut values = Vec::with_capacity(alloc, sums.len())?;
    for sum in &sums {
        values.push(sum_of_kind(column.dtype(), sum))?;
    }
    Ok(values)
}

fn counts_not_null(
    alloc: Global,
    column: &Column,
    keys: &[usize],
    count: usize,
) -> Result<Vec<usize>, AllocError>
    requires below { AreBelow count keys.now }
    requires long { length keys.now ≡ length column.now.values }
    requires few { length keys.now ≤ max_rows }
    ensures { IfOk result (λ counts. AreCounts count column.now.values keys.now counts.items) }
{
    let mut counts = vec![in alloc; 0usize; count]?;
    for (row, key) in keys.iter().enumerate() {
        counts[*key] += counted(column.value(row));
    }
    Ok(counts)
}

fn wrapped_sums(
    alloc: Global,
    column: &Column,
    keys: &[usize],
    count: usize,
) -> Result<Vec<i64>, AllocError>
    requires below { AreBelow count keys.now }
    requires long { length keys.now ≡ length column.now.values }
    ensures { IfOk result (λ sums. AreSums count column.now.values keys.now sums.items) }
{
    let mut sums = vec![in alloc; 0i64; count]?;
    for (row, key) in keys.iter().enumerate() {
        sums[*key] = int64_sum(sums[*key], number(column.value(row)));
    }
    Ok(sums)
}

fn counts_as_values(alloc: Global, counts: &[usize]) -> Result<Vec<Value>, AllocError>
    requires { All (λ n. n ≤ max_rows) counts.now }
    ensures { IfOk result (λ values. values.items ≡ map val.IdxSize counts.now) }
{
    let mut values = Vec::with_capacity(alloc, counts.len())?;
    for count in counts {
        values.push(Value::IdxSize(*count as u32))?;
    }
    Ok(values)
}

// What a value adds to a count of those that aren't null.
fn counted(value: &Value) -> usize
    ensures { result ≡ count_values (value.now ∷ []) }
{
    match value {
        Value::Null => 0,
        Value::Boolean(_) | Value::Int64(_) | Value::IdxSize(_) | Value::String(_) => 1,
    }
}

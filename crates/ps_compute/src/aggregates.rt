// Aggregates of the values of a whole operand.
ghost use Rattle.std.specs.Prelude.{◌≡◌, ◌<◌, ◌+◌, List, IfOk, OnErr, Err, Some, drop, filter, length, map, not, if◌then◌else◌};
ghost use Rattle.std.specs.Int.{int_wrap, w64};
ghost use Rattle.std.specs.Option.{option_copied};
ghost use Rattle.ps_compute.specs.Nullable.{or_null};
ghost use Rattle.ps_compute.specs.Runs.{runs};
ghost use Rattle.ps_frame.specs.Aggregates.{distinct_values, greater as greater_value, greatest_value, last_value, least_value, lesser as lesser_value, number_of, sum_value, total as exact_sum};
ghost use Rattle.ps_frame.specs.Operators.{wrap_idx};
ghost use Rattle.ps_frame.specs.Sorting.{first_key};
ghost use Rattle.ps_frame.specs.Values.{is_null as is_null_value, same_value};
ghost use Rattle.ps_frame.specs.declared.value.Value.{Value as AValue};

use crate::operators::{compare, int64_sum, is_null};
use crate::values::ValueList;
use ps_frame::error::FrameError;
use ps_frame::value::{DataType, Value};
use std::alloc::Global;

/// The lesser of two values, where null doesn't count and none stands for null.
fn lesser<'a>(value: &'a Value, best: Option<&'a Value>) -> Option<&'a Value>
    ensures { or_null (option_copied result) ≡ lesser_value value.now (or_null (option_copied best.entry)) }
{
    match best {
        Some(best) if !is_null(best) => {
            if is_null(value) || compare(value, best).is_gt() {
                Some(best)
            } else {
                Some(value)
            }
        }
        _ => Some(value),
    }
}

/// The greater of two values, where null doesn't count and none stands for null.
fn greater<'a>(value: &'a Value, best: Option<&'a Value>) -> Option<&'a Value>
    ensures { or_null (option_copied result) ≡ greater_value value.now (or_null (option_copied best.entry)) }
{
    match best {
        Some(best) if !is_null(best) => {
            if is_null(value) || compare(value, best).is_lt() {
                Some(best)
            } else {
                Some(value)
            }
        }
        _ => Some(value),
    }
}

/// The least value that isn't null; null or none where there is no such value.
pub fn least<L: ValueList>(values: &L) -> Option<&Value>
    ensures { or_null (option_copied result) ≡ least_value (L.values values.now) }
{
    let mut best = None;
    let mut from = values.len();
    while 0 < from {
        from -= 1;
        best = lesser(values.value(from), best);
    }
    best
}

/// The greatest value that isn't null; null or none where there is no such value.
pub fn greatest<L: ValueList>(values: &L) -> Option<&Value>
    ensures { or_null (option_copied result) ≡ greatest_value (L.values values.now) }
{
    let mut best = None;
    let mut from = values.len();
    while 0 < from {
        from -= 1;
        best = greater(values.value(from), best);
    }
    best
}

/// The first value, and none where there is no value.
pub fn first<L: ValueList>(values: &L) -> Option<&Value>
    ensures { or_null (option_copied result) ≡ first_key (L.values values.now) }
{
    if values.len() == 0 {
        None
    } else {
        Some(values.value(0))
    }
}

/// The last value, and none where there is no value.
pub fn last<L: ValueList>(values: &L) -> Option<&Value>
    ensures { or_null (option_copied result) ≡ last_value (L.values values.now) }
{
    let count = values.len();
    if count == 0 {
        None
    } else {
        Some(values.value(count - 1))
    }
}

/// An equal value, and null for none.
///
/// Fails only for want of memory.
pub fn copy_or_null(alloc: Global, value: Option<&Value>) -> Result<Value, FrameError>
    ensures same { IfOk result (λ v. v ≡ or_null (option_copied value.entry)) }
    ensures memory { OnErr result (result ≡ Err FrameError.OutOfMemory) }
{
    match value {
        Some(value) => value.try_clone(alloc),
        None => Ok(Value::Null),
    }
}

/// What a value adds to a sum: a number itself, a truth value 0 or 1, null and a text nothing.
pub fn number(value: &Value) -> i64
    ensures { result ≡ number_of value.now }
{
    match value {
        Value::Boolean(b) => i64::from(*b),
        Value::Int64(z) => *z,
        Value::IdxSize(n) => i64::from(*n),
        Value::Null | Value::String(_) => 0,
    }
}

fn total<L: ValueList>(values: &L) -> i64
    ensures { result ≡ int_wrap w64 (exact_sum (L.values values.now)) }
{
    let mut sum = 0;
    for i in 0..values.len() {
        sum = int64_sum(sum, number(values.value(i)));
    }
    sum
}

fn low_bits(number: &i64) -> u32
    ensures { result ≡ wrap_idx number.now }
{
    number.rem_euclid(1 << 32) as u32
}

/// The sum of values of a kind, wrapped: of Int64 as an Int64, and of IdxSize and of truth values as an IdxSize.
///
/// Null adds nothing, and the sum of nothing is 0.
pub fn sum<L: ValueList>(dtype: DataType, values: &L) -> Value
    ensures { result ≡ sum_value (Some dtype) (L.values values.now) }
{
    let sum = total(values);
    sum_of_kind(dtype, &sum)
}

/// The sum of values of a kind, by what is left of it in 64 bits.
pub fn sum_of_kind(dtype: DataType, sum: &i64) -> Value
    ensures { (vs : List AValue) → sum.now ≡ int_wrap w64 (exact_sum vs) → result ≡ sum_value (Some dtype) vs }
{
    match dtype {
        DataType::Int64 => Value::Int64(*sum),
        DataType::Boolean | DataType::IdxSize | DataType::String => Value::IdxSize(low_bits(sum)),
    }
}

/// How many values aren't null.
pub fn count_not_null<L: ValueList>(values: &L) -> usize
    ensures { result ≡ length (filter (λ v. not (is_null_value v)) (L.values values.now)) }
{
    let mut count = 0;
    for i in 0..values.len() {
        if !is_null(values.value(i)) {
            count += 1;
        }
    }
    count
}

/// How many values there are of which no two are the same; null is one value.
///
/// Fails only for want of memory.
pub fn count_distinct<L: ValueList>(alloc: Global, values: &L) -> Result<usize, FrameError>
    ensures count { IfOk result (λ n. n ≡ length (distinct_values (L.values values.now))) }
    ensures memory { OnErr result (result ≡ Err FrameError.OutOfMemory) }
{
    let mut sorted = references(alloc, values)?;
    sorted.sort_by(|a, b| compare(a, b))?;
    Ok(count_runs(sorted.as_slice()))
}

fn references<L: ValueList>(alloc: Global, values: &L) -> Result<Vec<&Value>, FrameError>
    ensures same { IfOk result (λ all. map (λ v. v.now) all.items ≡ L.values values.now) }
    ensures memory { OnErr result (result ≡ Err FrameError.OutOfMemory) }
{
    let mut all = Vec::with_capacity(alloc, values.len())?;
    for i in 0..values.len() {
        all.push(values.value(i))?;
    }
    Ok(all)
}

// How many runs of equal values there are, from the last one on.
fn count_runs(sorted: &[&Value]) -> usize
    ensures { result ≡ runs sorted.now (λ a b. same_value a.now b.now) }
{
    let mut runs = 0;
    let mut from = sorted.len();
    while 0 < from {
        from -= 1;
        if ends_run(sorted, from) {
            runs += 1;
        }
    }
    runs
}

// Whether the value after this place is another one, or there is none.
fn ends_run(sorted: &[&Value], i: usize) -> bool
    requires { i < length sorted.now }
    ensures { runs (drop i sorted.now) (λ a b. same_value a.now b.now) ≡ runs (drop (i + 1) sorted.now) (λ a b. same_value a.now b.now) + (if result then 1 else 0) }
{
    i + 1 == sorted.len() || compare(sorted[i], sorted[i + 1]).is_ne()
}

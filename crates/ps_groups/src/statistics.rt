// What is told of a column's values in the rows of each key. The values are read where they stand, each key's in the
// order of its rows, so that all keys together take one pass over the rows.
ghost use Rattle.std.specs.Prelude.{◌≡◌, ◌<◌, ◌≤◌, IfOk, length, map};
ghost use Rattle.std.specs.Option.{option_copied};
ghost use Rattle.std.specs.List.{All};
ghost use Rattle.ps_compute.specs.Nullable.{or_null};
ghost use Rattle.ps_frame.specs.Aggregates.{max_rows};
ghost use Rattle.ps_groups.specs.Statistics.{told, values_in};
ghost use Rattle.ps_groups.specs.declared.statistics.Statistic.TheVariants as told_of;

use ps_compute::aggregates::{copy_or_null, count_distinct, first, greatest, last, least};
use ps_compute::values::ValueList;
use ps_frame::column::Column;
use ps_frame::value::Value;
use ps_keys::key_rows::RowsByKey;
use std::alloc::{AllocError, Global};

/// What is told of values.
#[derive(Clone, Copy)]
pub(crate) enum Statistic {
    /// The least value that isn't null.
    Least,
    /// The greatest value that isn't null.
    Greatest,
    /// The first value.
    First,
    /// The last value.
    Last,
    /// How many different values there are, of which null is one.
    Distinct,
}

// The values of a column in some rows.
#[derive(Drop)]
struct RowValues<'a> {
    column: &'a Column,
    rows: &'a [usize],
    ghost inside: { All (λ i. i < length column.now.values) rows.now },
}

impl ValueList for RowValues<'_> {
    ghost use Rattle.ps_groups.specs.Statistics.{values_in};

    ghost values = { λ v. values_in v.column.now.values v.rows.now };

    fn len(&self) -> usize {
        self.rows.len()
    }

    fn value(&self, i: usize) -> &Value {
        self.column.value(self.rows[i])
    }
}

/// What is told of a column's values in the rows of each key.
///
/// Fails only for want of memory.
pub(crate) fn statistics(
    alloc: Global,
    statistic: Statistic,
    column: &Column,
    rows_of_keys: &RowsByKey,
) -> Result<Vec<Value>, AllocError>
    requires inside { All (λ rows. All (λ i. i < length column.now.values) rows) rows_of_keys.now }
    requires few { All (λ rows. length rows ≤ max_rows) rows_of_keys.now }
    ensures { IfOk result (λ values. values.items ≡ map (λ rows. told statistic (values_in column.now.values rows)) rows_of_keys.now) }
{
    let mut values = Vec::with_capacity(alloc, rows_of_keys.len())?;
    for key in 0..rows_of_keys.len() {
        values.push(statistic_of(alloc, statistic, column, rows_of_keys.rows(key))?)?;
    }
    Ok(values)
}

fn statistic_of(
    alloc: Global,
    statistic: Statistic,
    column: &Column,
    rows: &[usize],
) -> Result<Value, AllocError>
    requires inside { All (λ i. i < length column.now.values) rows.now }
    requires few { length rows.now ≤ max_rows }
    ensures { IfOk result (λ value. value ≡ told statistic (values_in column.now.values rows.now)) }
{
    let values = RowValues { column, rows };
    match statistic {
        Statistic::Least => copied(alloc, least(&values)),
        Statistic::Greatest => copied(alloc, greatest(&values)),
        Statistic::First => copied(alloc, first(&values)),
        Statistic::Last => copied(alloc, last(&values)),
        Statistic::Distinct => distinct_count(alloc, &values),
    }
}

fn copied(alloc: Global, value: Option<&Value>) -> Result<Value, AllocError>
    ensures { IfOk result (λ copy. copy ≡ or_null (option_copied value.entry)) }
{
    match copy_or_null(alloc, value) {
        Ok(copy) => Ok(copy),
        // It fails for want of memory alone.
        Err(_error) => Err(AllocError),
    }
}

// How many different values there are, which are few enough to be counted in 4 bytes.
fn distinct_count(alloc: Global, values: &RowValues) -> Result<Value, AllocError>
    requires { length values.now.rows.now ≤ max_rows }
    ensures { IfOk result (λ value. value ≡ told told_of.Distinct (values_in values.now.column.now.values values.now.rows.now)) }
{
    match count_distinct(alloc, values) {
        Ok(count) => Ok(Value::IdxSize(count as u32)),
        // It fails for want of memory alone.
        Err(_error) => Err(AllocError),
    }
}

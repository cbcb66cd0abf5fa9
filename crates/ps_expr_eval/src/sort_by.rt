// Columns in the order of others.
ghost use Rattle.std.specs.Prelude.{◌≡◌, ◌<◌, ◌∷◌, ℕ, IfOk, List, MatchResult, None, Some, false, get_or, if◌then◌else◌, length, map};
ghost use Rattle.std.specs.List.{All, AllZip, range_with_len};
ghost use Rattle.ps_compute.specs.Rows.{beside_keys, key_row};
ghost use Rattle.ps_expr_eval.specs.Held.{Keeps, cells_of, ending_of, first_bad};
ghost use Rattle.ps_expr_eval.specs.Lanes.{AllFill, AreLanes, key_columns, lane, lanes_fault, seen_values, sorted_first};
ghost use Rattle.ps_expr_eval.specs.Lengths.{ending_fault, extent_held};
ghost use Rattle.ps_expr_eval.specs.Rows.{FillsRows, repeats as repeats_in};
ghost use Rattle.ps_frame.specs.Causes.{Column as AColumn, whole_column};
ghost use Rattle.ps_frame.specs.Eval.{at, sorted_by_keys};
ghost use Rattle.ps_frame.specs.Sorting.{directions_of, in_order_of_keys, key_cmp, keys_cmp};
ghost use Rattle.ps_frame.specs.Zip.{zip_length, zipped};
ghost use Rattle.ps_frame.specs.declared.value.Cell.TheVariants as held;
ghost use Rattle.ps_frame.specs.declared.value.Value.{Value as AValue};

use crate::computed::{ComputedColumn, computed_ended};
use crate::elementwise::cell_in_row;
use crate::lengths::{Ending, count_rows, early_fault};
use crate::picked_cells::cells_at;
use ps_compute::order::{Direction, directions_for};
use ps_frame::value::{DataFault, Value};
use std::alloc::{AllocError, Global};
use std::cmp::Ordering;

/// The values of a column in the stable order of the values of others beside them. Shared values stay
/// shared.
///
/// Fails only for want of memory.
pub fn sorted_by_part(
    alloc: Global,
    descending: &[bool],
    nulls_last: &[bool],
    input: ComputedColumn,
    keys: Vec<ComputedColumn>,
) -> Result<ComputedColumn, AllocError>
    ensures kind { IfOk result (λ part. part.dtype ≡ input.dtype) }
    ensures cells { IfOk result (λ part. (node : ℕ) (c : AColumn) (cs : List AColumn) → Keeps input c → AllZip Keeps keys.items cs → Keeps part (sorted_by_keys (directions_of (length keys.items) descending.now nulls_last.now) (zipped false node (c ∷ cs)))) }
{
    match directions_for(alloc, keys.len(), descending, nulls_last) {
        Ok(directions) => sorted_parts(alloc, directions.as_slice(), &input, keys.as_slice()),
        // It fails for want of memory alone.
        Err(_) => Err(AllocError),
    }
}

fn sorted_parts(
    alloc: Global,
    directions: &[Direction],
    input: &ComputedColumn,
    keys: &[ComputedColumn],
) -> Result<ComputedColumn, AllocError>
    ensures kind { IfOk result (λ part. part.dtype ≡ input.now.dtype) }
    ensures cells { IfOk result (λ part. (node : ℕ) (cs : List AColumn) → AllZip Keeps (input.now ∷ keys.now) cs → Keeps part (sorted_by_keys directions.now (zipped false node cs))) }
{
    let endings = endings_of(alloc, input, keys)?;
    let rows = count_rows(endings.as_slice());
    match early_fault(endings.as_slice()) {
        Some(fault) => Ok(computed_ended(alloc, input.dtype, fault)),
        None => sorted_whole(alloc, directions, rows, input, keys),
    }
}

fn endings_of(
    alloc: Global,
    input: &ComputedColumn,
    keys: &[ComputedColumn],
) -> Result<Vec<Ending>, AllocError>
    ensures { IfOk result (λ endings. endings.items ≡ map ending_of (input.now ∷ keys.now)) }
{
    let mut endings = Vec::new(alloc);
    endings.push(input.ending())?;
    for key in keys {
        endings.push(key.ending())?;
    }
    Ok(endings)
}

// The order of so many rows of columns that nothing ends early.
fn sorted_whole(
    alloc: Global,
    directions: &[Direction],
    rows: usize,
    input: &ComputedColumn,
    keys: &[ComputedColumn],
) -> Result<ComputedColumn, AllocError>
    requires rows { rows ≡ zip_length false (map extent_held (map ending_of (input.now ∷ keys.now))) }
    requires whole { ending_fault (map ending_of (input.now ∷ keys.now)) ≡ None }
    ensures kind { IfOk result (λ part. part.dtype ≡ input.now.dtype) }
    ensures cells { IfOk result (λ part. (node : ℕ) (cs : List AColumn) → AllZip Keeps (input.now ∷ keys.now) cs → Keeps part (sorted_by_keys directions.now (zipped false node cs))) }
{
    if let Some(fault) = lane_fault(input, rows) {
        return Ok(computed_ended(alloc, input.dtype, fault));
    }
    let outcome = lanes_of(alloc, keys, rows)?;
    match outcome {
        Ok(lanes) => sorted_lanes(alloc, directions, rows, input, lanes.as_slice()),
        Err(fault) => Ok(computed_ended(alloc, input.dtype, fault)),
    }
}

// The fault of the first faulty cell in the first rows.
fn lane_fault(part: &ComputedColumn, rows: usize) -> Option<DataFault>
    requires { FillsRows (cells_of part.now.cells) (repeats_in part.now) rows }
    ensures { result ≡ first_bad (lane part.now rows) }
{
    let repeats = part.repeats();
    for i in 0..rows {
        if let Err(fault) = cell_in_row(&part.cells, repeats, i) {
            return Some(fault);
        }
    }
    None
}

// The values of columns in the first rows, or the fault of the first that has one there.
fn lanes_of(
    alloc: Global,
    parts: &[ComputedColumn],
    rows: usize,
) -> Result<Result<Vec<Vec<&Value>>, DataFault>, AllocError>
    requires { AllFill parts.now rows }
    ensures { IfOk result (λ outcome. MatchResult outcome (λ lanes. AreLanes parts.now rows (map (λ lane. seen_values lane.items) lanes.items)) (λ fault. lanes_fault parts.now rows ≡ Some fault)) }
{
    let mut lanes = Vec::with_capacity(alloc, parts.len())?;
    for part in parts {
        let outcome = lane_of(alloc, part, rows)?;
        match outcome {
            Ok(lane) => lanes.push(lane)?,
            Err(fault) => return Ok(Err(fault)),
        }
    }
    Ok(Ok(lanes))
}

// The values of a column in the first rows, or the fault of the first that is faulty.
fn lane_of(
    alloc: Global,
    part: &ComputedColumn,
    rows: usize,
) -> Result<Result<Vec<&Value>, DataFault>, AllocError>
    requires { FillsRows (cells_of part.now.cells) (repeats_in part.now) rows }
    ensures { IfOk result (λ outcome. MatchResult outcome (λ values. lane part.now rows ≡ map held.Val (seen_values values.items)) (λ fault. first_bad (lane part.now rows) ≡ Some fault)) }
{
    let repeats = part.repeats();
    let mut values = Vec::with_capacity(alloc, rows)?;
    for i in 0..rows {
        match cell_in_row(&part.cells, repeats, i) {
            Ok(value) => values.push(value)?,
            Err(fault) => return Ok(Err(fault)),
        }
    }
    Ok(Ok(values))
}

// A column without a fault in the order of the lists beside it.
fn sorted_lanes(
    alloc: Global,
    directions: &[Direction],
    rows: usize,
    input: &ComputedColumn,
    keys: &[Vec<&Value>],
) -> Result<ComputedColumn, AllocError>
    requires { FillsRows (cells_of input.now.cells) (repeats_in input.now) rows }
    ensures kind { IfOk result (λ part. part.dtype ≡ input.now.dtype) }
    ensures cells { IfOk result (λ part. (values : List AValue) → lane input.now rows ≡ map held.Val values → Keeps part (whole_column (sorted_first directions.now rows (values ∷ map (λ key. seen_values key.items) keys.now)))) }
{
    let order = sorted_rows(alloc, rows, keys, directions)?;
    let places = places_in_rows(alloc, input.repeats(), order)?;
    Ok(ComputedColumn {
        dtype: input.dtype,
        cells: cells_at(alloc, input, places.as_slice())?,
        fault: None,
    })
}

// The places of the cells that give rows: the first where that one repeats.
fn places_in_rows(alloc: Global, repeats: bool, rows: Vec<usize>) -> Result<Vec<usize>, AllocError>
    ensures { IfOk result (λ places. places.items ≡ map (λ i. if repeats then 0 else i) rows.items) }
{
    if repeats {
        vec![in alloc; 0; rows.len()]
    } else {
        Ok(rows)
    }
}

// The numbers of rows in the stable order of their keys.
fn sorted_rows(
    alloc: Global,
    count: usize,
    keys: &[Vec<&Value>],
    directions: &[Direction],
) -> Result<Vec<usize>, AllocError>
    ensures there { IfOk result (λ rows. All (λ i. i < count) rows.items) }
    ensures order { IfOk result (λ rows. (values : List AValue) → map (λ i. at i values) rows.items ≡ in_order_of_keys directions.now (beside_keys (key_columns (map (λ key. seen_values key.items) keys.now)) (λ i. at i values) count)) }
{
    let mut rows = row_numbers(alloc, count)?;
    rows.sort_by(|a, b| compare_rows(keys, directions, *a, *b))?;
    Ok(rows)
}

fn row_numbers(alloc: Global, count: usize) -> Result<Vec<usize>, AllocError>
    ensures { IfOk result (λ rows. rows.items ≡ range_with_len 0 count) }
{
    let mut rows = Vec::with_capacity(alloc, count)?;
    for i in 0..count {
        rows.push(i)?;
    }
    Ok(rows)
}

// The order of two rows by their keys: the first key that tells them apart decides.
fn compare_rows(keys: &[Vec<&Value>], directions: &[Direction], a: usize, b: usize) -> Ordering
    ensures { result ≡ keys_cmp directions.now (key_row (key_columns (map (λ key. seen_values key.items) keys.now)) a) (key_row (key_columns (map (λ key. seen_values key.items) keys.now)) b) }
{
    for i in 0..keys.len().min(directions.len()) {
        let order = compare_at(directions[i], keys[i].as_slice(), a, b);
        if order.is_ne() {
            return order;
        }
    }
    Ordering::Equal
}

fn compare_at(direction: Direction, key: &[&Value], a: usize, b: usize) -> Ordering
    ensures { result ≡ key_cmp direction (at a (seen_values key.now)) (at b (seen_values key.now)) }
{
    let null = Value::Null;
    direction.compare(value_or(key, a, &null), value_or(key, b, &null))
}

fn value_or<'a>(values: &'a [&Value], i: usize, default: &'a Value) -> &'a Value
    ensures { result.now ≡ get_or (seen_values values.now) i default.now }
{
    if i < values.len() { values[i] } else { default }
}

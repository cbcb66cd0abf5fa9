// Rows beside which a column is true.
ghost use Rattle.std.specs.Prelude.{◌≡◌, ◌++◌, ◌∷◌, [], IfOk, MatchResult, None, OnOk, Some, if◌then◌else◌};
ghost use Rattle.ps_expr_eval.specs.Held.{cells_of, first_bad, held_values, or_else};
ghost use Rattle.ps_expr_eval.specs.Rows.{FillsRows, IsKept, StandAt, faulty_row, kept_of, repeats as repeats_in, rows_of_parts, seen};
ghost use Rattle.ps_frame.specs.Values.{is_true};

use crate::computed::ComputedColumn;
use crate::elementwise::{cell_in_row, place_in_row};
use crate::lengths::{count_rows, early_fault};
use crate::picked_cells::cells_at;
use ps_frame::value::{DataFault, Value};
use std::alloc::{AllocError, Global};

/// The values of a column in the rows where another one is true, up to the first row with a faulty
/// cell. Shared values stay shared.
///
/// Fails only for want of memory.
pub fn kept_part(
    alloc: Global,
    input: &ComputedColumn,
    by: &ComputedColumn,
) -> Result<ComputedColumn, AllocError>
    ensures kind { IfOk result (λ part. part.dtype ≡ input.now.dtype) }
    ensures cells { IfOk result (λ part. IsKept (input.now ∷ by.now ∷ []) part) }
{
    let endings = [input.ending(), by.ending()];
    let rows = count_rows(&endings);
    let (places, fault) = kept_places(alloc, input, by, rows)?;
    Ok(ComputedColumn {
        dtype: input.dtype,
        cells: cells_at(alloc, input, places.as_slice())?,
        fault: or_fault(early_fault(&endings), fault),
    })
}

fn or_fault(first: Option<DataFault>, second: Option<DataFault>) -> Option<DataFault>
    ensures { result ≡ or_else first second }
{
    match first {
        Some(fault) => Some(fault),
        None => second,
    }
}

// The places of the cells in these rows, and the fault of the first row with a faulty cell.
fn kept_places(
    alloc: Global,
    input: &ComputedColumn,
    by: &ComputedColumn,
    rows: usize,
) -> Result<(Vec<usize>, Option<DataFault>), AllocError>
    requires input { FillsRows (cells_of input.now.cells) (repeats_in input.now) rows }
    requires by { FillsRows (cells_of by.now.cells) (repeats_in by.now) rows }
    ensures places { IfOk result (λ r. StandAt (cells_of input.now.cells) r.0.items (kept_of (rows_of_parts (input.now ∷ by.now ∷ []) rows))) }
    ensures fault { IfOk result (λ r. r.1 ≡ faulty_row (rows_of_parts (input.now ∷ by.now ∷ []) rows)) }
{
    let input_repeats = input.repeats();
    let by_repeats = by.repeats();
    let mut places = Vec::new(alloc);
    for i in 0..rows {
        let a = cell_in_row(&input.cells, input_repeats, i);
        let b = cell_in_row(&by.cells, by_repeats, i);
        let place = place_in_row(input_repeats, i);
        match both(a, b) {
            Ok((_value, mark)) => push_kept(&mut places, place, mark)?,
            Err(fault) => return Ok((places, Some(fault))),
        }
    }
    Ok((places, None))
}

fn both<'a>(
    first: Result<&'a Value, DataFault>,
    second: Result<&'a Value, DataFault>,
) -> Result<(&'a Value, &'a Value), DataFault>
    ensures { MatchResult result (λ r. (first_bad (seen first.entry ∷ seen second.entry ∷ []) ≡ None) × (held_values (seen first.entry ∷ seen second.entry ∷ []) ≡ r.0.now ∷ r.1.now ∷ [])) (λ fault. first_bad (seen first.entry ∷ seen second.entry ∷ []) ≡ Some fault) }
{
    match (first, second) {
        (Err(fault), _) => Err(fault),
        (Ok(_), Err(fault)) => Err(fault),
        (Ok(a), Ok(b)) => Ok((a, b)),
    }
}

fn push_kept(places: &mut Vec<usize>, place: usize, mark: &Value) -> Result<(), AllocError>
    ensures { OnOk result (places.new.items ≡ places.old.items ++ (if is_true mark.now then place ∷ [] else [])) }
{
    if mark.is_true() {
        places.push(place)?;
    }
    Ok(())
}

// The slice of a table.
ghost use Rattle.std.specs.Prelude.{◌≡◌, ◌+◌, ◌-◌, ◌<ℤ◌, ◌≤ℤ◌, ◌∷◌, [], Err, IfOk, OnErr, ℕ, pos, unsigned_abs};
ghost use Rattle.ps_frame.specs.Functions.{Functions};
ghost use Rattle.ps_frame.specs.Tables.{whole};
ghost use Rattle.ps_meaning.specs.Cases.{cut_at, cut_by};
ghost use Rattle.ps_meaning.specs.Nodes.{GivesFrame};
ghost use Rattle.ps_meaning.specs.Steps.{slice as slice_step};
ghost use Rattle.ps_tables.specs.Cuts.{cut_end, cut_start};

use ps_frame::frame::DataFrame;
use ps_frame::refusal::{PolarsError, PolarsResult};
use std::alloc::Global;

/// The rows of a slice, an offset and a length, and the table itself where there is none. An offset below 0 counts
/// from the end. The values are not copied.
///
/// Fails only for want of memory.
pub fn cut(alloc: Global, df: DataFrame, slice: Option<(i64, usize)>) -> PolarsResult<DataFrame>
    ensures part { IfOk result (λ f. whole f ≡ cut_by slice (whole df)) }
    ensures memory { OnErr result (result ≡ Err PolarsError.OutOfMemory) }
{
    match slice {
        Some((offset, len)) => rows_at(alloc, &df, &offset, len),
        None => Ok(df),
    }
}

/// The table of a slice: the rows from an offset on, as many as asked at most. An offset below 0 counts from the end:
/// -1 is the last row. Where that is before the first row, the rows that aren't there count towards the length too.
/// The values are not copied.
///
/// Fails only for want of memory.
pub fn slice(alloc: Global, df: &DataFrame, offset: i64, len: usize) -> PolarsResult<DataFrame>
    ensures table { IfOk result (λ f. (F : Functions) (at : ℕ) → GivesFrame F at (slice_step offset len) (df.now ∷ []) f) }
    ensures memory { OnErr result (result ≡ Err PolarsError.OutOfMemory) }
{
    rows_at(alloc, df, &offset, len)
}

/// The place of a slice's first row among so many, and how many rows the slice has from there on at most; all rows
/// where there is no slice. An offset below 0 counts from the end, and rows of the slice that would stand before the
/// first row aren't counted.
pub fn span(height: usize, slice: Option<(i64, usize)>) -> (usize, usize)
    ensures start { result.0 ≡ cut_start slice height }
    ensures end { result.0 + result.1 ≡ cut_end slice height }
{
    match slice {
        Some((offset, len)) => bounds(height, &offset, len),
        None => (0, height),
    }
}

// The rows from an offset on, as many as asked at most.
fn rows_at(alloc: Global, df: &DataFrame, offset: &i64, len: usize) -> PolarsResult<DataFrame>
    ensures part { IfOk result (λ f. whole f ≡ cut_at offset.now len (whole df.now)) }
    ensures memory { OnErr result (result ≡ Err PolarsError.OutOfMemory) }
{
    let (start, count) = bounds(df.height(), offset, len);
    match df.slice(alloc, start, count) {
        Ok(part) => Ok(part),
        Err(_) => Err(PolarsError::OutOfMemory),
    }
}

// The place of a slice's first row, and how many rows it has from there on at most.
fn bounds(height: usize, offset: &i64, len: usize) -> (usize, usize)
    ensures from_start { pos 0 ≤ℤ offset.now → (pos result.0 ≡ offset.now) × (result.1 ≡ len) }
    ensures from_end { offset.now <ℤ pos 0 → (result.0 ≡ height - unsigned_abs offset.now) × (result.0 + result.1 ≡ height + len - unsigned_abs offset.now) }
{
    if *offset < 0 {
        let back = offset.unsigned_abs() as usize;
        // Rows of the slice that would stand before the first.
        let missing = back.saturating_sub(height);
        (height.saturating_sub(back), len.saturating_sub(missing))
    } else {
        (*offset as usize, len)
    }
}

//! The rows of pieces that are handed on, as views: their values are not copied.
ghost use Rattle.std.specs.Prelude.{◌≡◌, Err, IfOk, OnErr, drop, take};
ghost use Rattle.ps_frame.specs.declared.refusal.PolarsError.{PolarsError};
ghost use Rattle.ps_turns.specs.Claims.{sliced};
ghost use Rattle.ps_turns.specs.Cuts.{cut_of_source};

use node_states::cuts::rows_per_morsel;
use ps_frame::frame::DataFrame;
use ps_frame::refusal::{PolarsError, PolarsResult};
use ps_options::options::Options;
use std::alloc::Global;

/// The morsel of a number of a source's table.
///
/// Fails only for want of memory.
pub fn source_morsel(
    alloc: Global,
    table: &DataFrame,
    options: &Options,
    number: u64,
) -> PolarsResult<DataFrame>
    ensures schema { IfOk result (λ f. f.schema ≡ table.now.schema) }
    ensures rows { IfOk result (λ f. f.rows ≡ cut_of_source options.now table.now.rows number) }
    ensures memory { OnErr result (result ≡ Err PolarsError.OutOfMemory) }
{
    let size = rows_per_morsel(options, table.height());
    view(alloc, table, (number as usize).saturating_mul(size), size)
}

/// The rows of a morsel that a slice keeps, where it booked so many rows before.
///
/// Fails only for want of memory.
pub fn sliced_morsel(
    alloc: Global,
    morsel: &DataFrame,
    offset: usize,
    length: usize,
    booked: usize,
) -> PolarsResult<DataFrame>
    ensures schema { IfOk result (λ f. f.schema ≡ morsel.now.schema) }
    ensures rows { IfOk result (λ f. f.rows ≡ sliced offset length booked morsel.now.rows) }
    ensures memory { OnErr result (result ≡ Err PolarsError.OutOfMemory) }
{
    let start = offset.saturating_sub(booked);
    let end = offset.saturating_add(length).saturating_sub(booked);
    view(alloc, morsel, start, end.saturating_sub(start))
}

fn view(alloc: Global, table: &DataFrame, offset: usize, length: usize) -> PolarsResult<DataFrame>
    ensures schema { IfOk result (λ f. f.schema ≡ table.now.schema) }
    ensures rows { IfOk result (λ f. f.rows ≡ take length (drop offset table.now.rows)) }
    ensures memory { OnErr result (result ≡ Err PolarsError.OutOfMemory) }
{
    match table.slice(alloc, offset, length) {
        Ok(part) => Ok(part),
        Err(_) => Err(PolarsError::OutOfMemory),
    }
}

//! What is to be done for the pieces that nodes give out. Each call fails only for want of memory.
ghost use Rattle.std.specs.Prelude.{◌≡◌, ◌+◌, ◌<◌, ◌^◌, [], Err, IfOk, OnErr, OnOk, length, nat_le};
ghost use Rattle.node_work.specs.Tasks.{ComputesOver, kept_part, next_cut};
ghost use Rattle.ps_frame.specs.Lawful.{empty_frame};
ghost use Rattle.ps_frame.specs.declared.refusal.PolarsError.{PolarsError};
ghost use Rattle.ps_meaning.specs.Cases.{end_of};
ghost use Rattle.ps_pieces.specs.declared.piece.Task.TheVariants as task;
ghost use Rattle.ps_turns.specs.Cuts.{is_exhausted};

use node_states::cuts::gave_all;
use node_states::streaming_slice::SliceState;
use plain_nodes::source::InMemorySourceNode;
use ps_frame::frame::DataFrame;
use ps_frame::refusal::{PolarsError, PolarsResult};
use ps_frame::schema::Schema;
use ps_pieces::parameters::Parameters;
use ps_pieces::piece::Task;
use ps_pieces::views::{sliced_morsel, source_morsel};
use std::alloc::Global;
use std::sync::Arc;

/// One more than a count, where 64 bits hold it. No run counts as far.
pub fn one_more(count: usize) -> PolarsResult<usize>
    ensures count { IfOk result (λ n. n ≡ count + 1) }
    ensures memory { OnErr result (result ≡ Err PolarsError.OutOfMemory) }
{
    match count.checked_add(1) {
        Some(more) => Ok(more),
        None => Err(PolarsError::OutOfMemory),
    }
}

/// So many rows behind others, where 64 bits hold their number. No run counts as far.
pub fn rows_behind(before: usize, morsel: &DataFrame) -> PolarsResult<usize>
    ensures rows { IfOk result (λ n. n ≡ before + length morsel.now.rows) }
    ensures memory { OnErr result (result ≡ Err PolarsError.OutOfMemory) }
{
    match before.checked_add(morsel.height()) {
        Some(rows) => Ok(rows),
        None => Err(PolarsError::OutOfMemory),
    }
}

/// Whether a source has given its whole table.
pub fn is_spent(source: &InMemorySourceNode) -> bool
    ensures { result ≡ is_exhausted source.now.options source.now.source.rows source.now.sent }
{
    gave_all(source.options(), source.source().height(), source.sent())
}

/// The next cut of a source's table is handed on.
pub fn cut(alloc: Global, source: &InMemorySourceNode) -> PolarsResult<Task>
    ensures task { IfOk result (λ t. t ≡ next_cut source.now) }
    ensures memory { OnErr result (result ≡ Err PolarsError.OutOfMemory) }
{
    match source_morsel(
        alloc,
        source.source(),
        source.options(),
        source.sent() as u64,
    ) {
        Ok(rows) => Ok(Task::HandsOn(rows)),
        Err(error) => Err(error),
    }
}

/// What a slice keeps of a morsel is handed on.
pub fn kept(alloc: Global, slice: SliceState, morsel: &DataFrame) -> PolarsResult<Task>
    ensures task { IfOk result (λ t. t ≡ kept_part slice morsel.now) }
    ensures memory { OnErr result (result ≡ Err PolarsError.OutOfMemory) }
{
    match sliced_morsel(alloc, morsel, slice.offset, slice.length, slice.booked) {
        Ok(rows) => Ok(Task::HandsOn(rows)),
        Err(error) => Err(error),
    }
}

/// Whether a slice has its rows once it has booked so many.
pub fn has_rows(slice: SliceState, booked: usize) -> bool
    ensures { result ≡ nat_le (end_of slice.offset slice.length) booked }
{
    slice.offset.saturating_add(slice.length) <= booked
}

/// A morsel is handed on as it is.
pub fn whole(alloc: Global, morsel: &DataFrame) -> PolarsResult<Task>
    ensures task { IfOk result (λ t. t ≡ task.HandsOn morsel.now) }
    ensures memory { OnErr result (result ≡ Err PolarsError.OutOfMemory) }
{
    match morsel.share(alloc) {
        Ok(rows) => Ok(Task::HandsOn(rows)),
        Err(_error) => Err(PolarsError::OutOfMemory),
    }
}

/// Parameters are computed over a table, which comes behind so many rows.
fn over(parameters: &Arc<Parameters>, before: usize, table: DataFrame) -> PolarsResult<Task>
    ensures task { IfOk result (ComputesOver parameters.now.value before table) }
    ensures memory { OnErr result (result ≡ Err PolarsError.OutOfMemory) }
{
    match parameters.clone() {
        Ok(parameters) => Ok(Task::Computes {
            parameters,
            before,
            table,
        }),
        Err(_error) => Err(PolarsError::OutOfMemory),
    }
}

/// Parameters are computed over a morsel, which comes behind so many rows.
pub fn computed(
    alloc: Global,
    parameters: &Arc<Parameters>,
    before: usize,
    morsel: &DataFrame,
) -> PolarsResult<Task>
    ensures task { IfOk result (ComputesOver parameters.now.value before morsel.now) }
    ensures memory { OnErr result (result ≡ Err PolarsError.OutOfMemory) }
{
    match morsel.share(alloc) {
        Ok(table) => over(parameters, before, table),
        Err(_error) => Err(PolarsError::OutOfMemory),
    }
}

/// The parameters of a select that reads no input are computed: over a table without columns.
pub fn computed_alone(alloc: Global, parameters: &Arc<Parameters>) -> PolarsResult<Task>
    ensures task { IfOk result (ComputesOver parameters.now.value 0 (empty_frame [])) }
    ensures memory { OnErr result (result ≡ Err PolarsError.OutOfMemory) }
{
    match DataFrame::empty_with_schema(alloc, &Schema::new(alloc)) {
        Ok(table) => over(parameters, 0, table),
        Err(_error) => Err(PolarsError::OutOfMemory),
    }
}

//! Scans, and nodes over one stream.
ghost use Rattle.std.specs.Prelude.{◌≡◌, [], if◌then◌else◌, Err, IfOk, OnErr};
ghost use Rattle.ps_frame.specs.Trees.{Tree};
ghost use Rattle.ps_frame.specs.declared.refusal.PolarsError.{PolarsError};
ghost use Rattle.ps_meaning.specs.Shape.{in_memory_map, in_memory_sink, in_memory_source, stream_map, with_row_index};
ghost use Rattle.ps_meaning.specs.Steps.{sort_step, user};
ghost use Rattle.ps_phys.specs.Shown.{stream_of};
ghost use Rattle.ps_rules.specs.Slots.{over, over_same, projection};
ghost use Rattle.plan_rules.specs.Nodes.{over_all, scan_stream as scanned};
ghost use Rattle.lowering_parts.specs.Gathered.{Begins, made_of, state_of};
ghost use Rattle.pu_base.specs.declared.arena.Node.{Node as ANode};

use crate::copies::{equal, names_in, shared};
use crate::parts::{node_of, node_over};
use lowering_parts::nodes::{columns_of, insert, over_same_columns, schema_of};
use lowering_parts::schemas::projected_schema;
use ps_frame::frame::DataFrame;
use ps_frame::items::Items;
use ps_frame::refusal::PolarsResult;
use ps_frame::schema::Schema;
use ps_fresh::lowering::Lowering;
use ps_meaning::map::MapKind;
use ps_meaning::options::{ExprIR, SortMultipleOptions};
use ps_phys::phys::{PhysNodeKind, PhysStream};
use pu_base::PlSmallStr;
use std::alloc::Global;

/// A scan of this schema: the whole table, and the columns that are asked for, where these aren't all, in order.
///
/// Fails only for want of memory; a node may then have been added.
pub fn scan_stream(
    alloc: Global,
    low: &mut Lowering,
    df: &DataFrame,
    schema: &Schema,
) -> PolarsResult<PhysStream>
    ensures made { (f : ANode → Tree) → IfOk result (λ s. made_of f low.new s ≡ scanned low.old.origin.0 df.now schema.now (state_of f low.old)) }
    ensures nodes { Begins low.old.phys_sm.slots low.new.phys_sm.slots }
    ensures others { low.new ≡ record low.old { phys_sm = low.new.phys_sm } }
    ensures memory { OnErr result (result ≡ Err PolarsError.OutOfMemory) }
{
    let names = names_in(alloc, schema)?;
    let source = source_of(alloc, low, df)?;
    let columns = columns_of(alloc, low, source, names)?;
    Ok(columns)
}

// The whole table.
fn source_of(alloc: Global, low: &mut Lowering, df: &DataFrame) -> PolarsResult<PhysStream>
    ensures made { (f : ANode → Tree) → IfOk result (λ s. made_of f low.new s ≡ over_all low.old.origin.0 (in_memory_source df.now) df.now.schema [] (state_of f low.old)) }
    ensures nodes { Begins low.old.phys_sm.slots low.new.phys_sm.slots }
    ensures same { OnErr result (low.new ≡ low.old) }
    ensures others { low.new ≡ record low.old { phys_sm = low.new.phys_sm } }
    ensures memory { OnErr result (result ≡ Err PolarsError.OutOfMemory) }
{
    let table = shared(alloc, df)?;
    node_of(
        alloc,
        low,
        df.schema(),
        PhysNodeKind::InMemorySource { df: table },
    )
}

/// A projection to columns of the stream, always a node.
///
/// Fails only for want of memory; nothing was then added.
pub fn projection_stream(
    alloc: Global,
    low: &mut Lowering,
    input: PhysStream,
    columns: &Items<PlSmallStr>,
) -> PolarsResult<PhysStream>
    ensures made { (f : ANode → Tree) → IfOk result (λ s. made_of f low.new s ≡ projection low.old.origin.0 columns.now (stream_of input) (state_of f low.old)) }
    ensures nodes { Begins low.old.phys_sm.slots low.new.phys_sm.slots }
    ensures same { OnErr result (low.new ≡ low.old) }
    ensures others { low.new ≡ record low.old { phys_sm = low.new.phys_sm } }
    ensures memory { OnErr result (result ≡ Err PolarsError.OutOfMemory) }
{
    let below = schema_of(alloc, low, input)?;
    let schema = projected_schema(alloc, &below, columns.as_slice())?;
    let columns = equal(alloc, columns)?;
    insert(
        alloc,
        low,
        schema,
        PhysNodeKind::SimpleProjection { input, columns },
    )
}

/// A sink.
///
/// Fails only for want of memory; nothing was then added.
pub fn sink_stream(alloc: Global, low: &mut Lowering, input: PhysStream) -> PolarsResult<PhysStream>
    ensures made { (f : ANode → Tree) → IfOk result (λ s. made_of f low.new s ≡ over_same low.old.origin.0 in_memory_sink (stream_of input) (state_of f low.old)) }
    ensures nodes { Begins low.old.phys_sm.slots low.new.phys_sm.slots }
    ensures same { OnErr result (low.new ≡ low.old) }
    ensures others { low.new ≡ record low.old { phys_sm = low.new.phys_sm } }
    ensures memory { OnErr result (result ≡ Err PolarsError.OutOfMemory) }
{
    over_same_columns(alloc, low, input, PhysNodeKind::InMemorySink { input })
}

/// Row numbers in a first column of this name, from an offset on; the schema is that of what comes out.
///
/// Fails only for want of memory; nothing was then added.
pub fn row_index_stream(
    alloc: Global,
    low: &mut Lowering,
    input: PhysStream,
    name: &PlSmallStr,
    offset: Option<u32>,
    schema: &Schema,
) -> PolarsResult<PhysStream>
    ensures made { (f : ANode → Tree) → IfOk result (λ s. made_of f low.new s ≡ over low.old.origin.0 (with_row_index name.now offset) schema.now (stream_of input) (state_of f low.old)) }
    ensures nodes { Begins low.old.phys_sm.slots low.new.phys_sm.slots }
    ensures same { OnErr result (low.new ≡ low.old) }
    ensures others { low.new ≡ record low.old { phys_sm = low.new.phys_sm } }
    ensures memory { OnErr result (result ≡ Err PolarsError.OutOfMemory) }
{
    let name = equal(alloc, name)?;
    node_over(
        alloc,
        low,
        input,
        schema,
        PhysNodeKind::WithRowIndex {
            input,
            name,
            offset,
        },
    )
}

/// The caller's function of a number, which goes part by part where it streams, and else over the whole input; the
/// schema is that of what comes out.
///
/// Fails only for want of memory; nothing was then added.
pub fn function_stream(
    alloc: Global,
    low: &mut Lowering,
    input: PhysStream,
    number: usize,
    streams: bool,
    schema: &Schema,
) -> PolarsResult<PhysStream>
    ensures made { (f : ANode → Tree) → IfOk result (λ s. made_of f low.new s ≡ over low.old.origin.0 (if streams then stream_map (user number) else in_memory_map (user number)) schema.now (stream_of input) (state_of f low.old)) }
    ensures nodes { Begins low.old.phys_sm.slots low.new.phys_sm.slots }
    ensures same { OnErr result (low.new ≡ low.old) }
    ensures others { low.new ≡ record low.old { phys_sm = low.new.phys_sm } }
    ensures memory { OnErr result (result ≡ Err PolarsError.OutOfMemory) }
{
    let map = MapKind::Function(number);
    if streams {
        return node_over(alloc, low, input, schema, PhysNodeKind::Map { input, map });
    }
    node_over(
        alloc,
        low,
        input,
        schema,
        PhysNodeKind::InMemoryMap { input, map },
    )
}

/// A sort by keys, which applies its slice itself.
///
/// Fails only for want of memory; nothing was then added.
pub fn sort_stream(
    alloc: Global,
    low: &mut Lowering,
    input: PhysStream,
    by_column: &Items<ExprIR>,
    slice: &Option<(i64, usize)>,
    options: &SortMultipleOptions,
) -> PolarsResult<PhysStream>
    ensures made { (f : ANode → Tree) → IfOk result (λ s. made_of f low.new s ≡ over_same low.old.origin.0 (in_memory_map (sort_step f by_column.now slice.now options.now)) (stream_of input) (state_of f low.old)) }
    ensures nodes { Begins low.old.phys_sm.slots low.new.phys_sm.slots }
    ensures same { OnErr result (low.new ≡ low.old) }
    ensures others { low.new ≡ record low.old { phys_sm = low.new.phys_sm } }
    ensures memory { OnErr result (result ≡ Err PolarsError.OutOfMemory) }
{
    let by_column = equal(alloc, by_column)?;
    let sort_options = equal(alloc, options)?;
    over_same_columns(
        alloc,
        low,
        input,
        PhysNodeKind::Sort {
            input,
            by_column,
            slice: *slice,
            sort_options,
        },
    )
}

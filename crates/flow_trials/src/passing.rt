// Nodes with one input and one output that keep nothing: what they answer to each pair of states.
use flow_scripts::script::obeys_table;
use ps_nodes::filter::FilterNode;
use ps_nodes::flow::FlowNode;
use ps_nodes::map::MapNode;
use ps_nodes::projection::SimpleProjectionNode;
use ps_nodes::row_index::WithRowIndexNode;
use ps_nodes::select::SelectNode;
use ps_nodes::slice::StreamingSliceNode;
use pu_base::PlSmallStr;
use std::alloc::Global;
use std::test::Fail;
use turn_scripts::fixtures::{column, schema};
use turn_scripts::tables::ONE_INPUT;

// The input gets what the reader says, the reader what the input says; what is given as done stays done.
const PASSES: &str = "
*/D -> D/D
D/* -> D/D
B/B -> B/B
B/R -> R/B
R/B -> B/R
R/R -> R/R
";

// Done on both sides, whatever is given.
const OVER: &str = "*/* -> D/D";

#[test]
fn a_filter_passes(rt: HostRuntime) -> Result<(), Fail> {
    let alloc = rt.alloc();
    let node = FlowNode::Filter(FilterNode::new(column(alloc)?));
    obeys_table(alloc, node, 1, 1, ONE_INPUT, PASSES)
}

#[test]
fn a_select_passes(rt: HostRuntime) -> Result<(), Fail> {
    let alloc = rt.alloc();
    let selectors = vec![in alloc; column(alloc)?]?;
    let node = FlowNode::Select(SelectNode::new(selectors, schema(alloc)?, false));
    obeys_table(alloc, node, 1, 1, ONE_INPUT, PASSES)
}

#[test]
fn a_projection_passes(rt: HostRuntime) -> Result<(), Fail> {
    let alloc = rt.alloc();
    let columns = vec![in alloc; PlSmallStr::from_static(alloc, "a")?]?;
    let node = FlowNode::SimpleProjection(SimpleProjectionNode::new(columns, schema(alloc)?));
    obeys_table(alloc, node, 1, 1, ONE_INPUT, PASSES)
}

#[test]
fn a_row_index_passes(rt: HostRuntime) -> Result<(), Fail> {
    let alloc = rt.alloc();
    let name = PlSmallStr::from_static(alloc, "i")?;
    let mut row_index = WithRowIndexNode::new(name, Some(2));
    row_index.book(3);
    let node = FlowNode::WithRowIndex(row_index);
    obeys_table(alloc, node, 1, 1, ONE_INPUT, PASSES)
}

#[test]
fn a_map_of_a_streamable_function_passes(rt: HostRuntime) -> Result<(), Fail> {
    let alloc = rt.alloc();
    let node = FlowNode::Map(MapNode::new(0));
    obeys_table(alloc, node, 1, 1, ONE_INPUT, PASSES)
}

// The slice of so many rows from an offset on, once so many were booked.
fn holds_of_slice(
    alloc: Global,
    offset: usize,
    length: usize,
    booked: u32,
    table: &str,
) -> Result<(), Fail> {
    let mut slice = StreamingSliceNode::new(offset, length);
    slice.book(booked as usize);
    let node = FlowNode::StreamingSlice(slice);
    obeys_table(alloc, node, 1, 1, ONE_INPUT, table)
}

// Two rows from the second on: it passes until three rows are booked. One of no rows is over at once, and one that ends behind
// the greatest number isn't over before that many are.
#[test]
fn a_slice_passes_until_its_rows_are_booked(rt: HostRuntime) -> Result<(), Fail> {
    let alloc = rt.alloc();
    holds_of_slice(alloc, 1, 2, 0, PASSES)?;
    holds_of_slice(alloc, 1, 2, 2, PASSES)?;
    holds_of_slice(alloc, 1, 2, 3, OVER)?;
    holds_of_slice(alloc, 1, 2, 4, OVER)?;
    holds_of_slice(alloc, 1, 0, 0, OVER)?;
    holds_of_slice(alloc, 0, 1, 0, PASSES)?;
    holds_of_slice(alloc, usize::MAX, 1, u32::MAX, PASSES)
}

// Sources and sinks: what they answer to each state of their one port.
use flow_scripts::script::{obeys, obeys_table};
use ps_nodes::flow::FlowNode;
use ps_nodes::sequence::MorselSeq;
use ps_nodes::sink::InMemorySinkNode;
use ps_nodes::source::InMemorySourceNode;
use std::alloc::Global;
use std::test::Fail;
use turn_scripts::fixtures::{options, schema, table};
use turn_scripts::tables::NO_INPUT;

// Ready until the reader is done.
const READY: &str = "
/D -> /D
/* -> /R
";

const EXHAUSTED: &str = "/* -> /D";

// The source of a table of so many rows, cut for so many workers with so many rows a morsel at most, once so many of its morsels
// were claimed.
fn holds_of_source(
    alloc: Global,
    rows: usize,
    cut: (usize, usize),
    claims: u8,
    wanted: &str,
) -> Result<(), Fail> {
    let (workers, morsel_rows) = cut;
    let mut source = InMemorySourceNode::new(table(alloc, rows)?, MorselSeq::new(0));
    source.cut_by(options(workers, morsel_rows)?);
    for _ in 0..claims {
        source.claim();
    }
    let node = FlowNode::InMemorySource(source);
    obeys_table(alloc, node, 0, 1, NO_INPUT, wanted)
}

// Rows by the morsel are raised to a multiple of the workers: five rows with two a morsel are two morsels, of three rows and of
// two; with one a morsel two workers have six, of which the last is empty and never sent. One morsel is sent even of no rows.
#[test]
fn a_source_is_ready_until_it_gave_all(rt: HostRuntime) -> Result<(), Fail> {
    let alloc = rt.alloc();
    for (rows, cut, claims, wanted) in [
        (0, (1, 10), 0, READY),
        (0, (1, 10), 1, EXHAUSTED),
        (5, (1, 10), 0, READY),
        (5, (1, 10), 1, EXHAUSTED),
        (5, (2, 2), 1, READY),
        (5, (2, 2), 2, EXHAUSTED),
        (5, (2, 1), 4, READY),
        (5, (2, 1), 5, EXHAUSTED),
        (3, (4, 10), 2, READY),
        (3, (4, 10), 3, EXHAUSTED),
    ] {
        holds_of_source(alloc, rows, cut, claims, wanted)?;
    }
    Ok(())
}

#[test]
fn a_sink_takes_until_its_input_is_done(rt: HostRuntime) -> Result<(), Fail> {
    let alloc = rt.alloc();
    let node = FlowNode::InMemorySink(InMemorySinkNode::new(schema(alloc)?));
    obeys(alloc, node, 1, 0, "B/ -> R/\nR/ -> R/\nD/ -> D/")
}

// Multiplexers: what they answer to all states of their input and of two readers.
use flow_scripts::script::obeys_table;
use ps_nodes::flow::FlowNode;
use ps_nodes::multiplexer::MultiplexerNode;
use std::alloc::Global;
use std::test::Fail;

const READERS: &str = "
B/BB B/BR B/BD B/RB B/RR B/RD B/DB B/DR B/DD
R/BB R/BR R/BD R/RB R/RR R/RD R/DB R/DR R/DD
D/BB D/BR D/BD D/RB D/RR D/RD D/DB D/DR D/DD
";

// Where no rows wait, a reader gets what the input says. The input is blocked where both readers are, and all is done once
// it is, or once they are.
const EMPTY_PIPES: &str = "
*/DD -> D/DD
D/** -> D/DD
B/BB -> B/BB
B/*D -> R/BD
B/D* -> R/DB
B/** -> R/BB
R/BB -> B/RR
R/*D -> R/RD
R/D* -> R/DR
R/** -> R/RR
";

// Where rows wait for the first reader, that one gets ready; once the input is done, all is done only once that reader is.
const FIRST_WAITS: &str = "
*/DD -> D/DD
D/D* -> D/DD
D/** -> D/RD
B/BB -> B/RB
B/*D -> R/RD
B/D* -> R/DB
B/** -> R/RB
R/BB -> B/RR
R/*D -> R/RD
R/D* -> R/DR
R/** -> R/RR
";

// Where rows wait for both.
const BOTH_WAIT: &str = "
*/DD -> D/DD
D/*D -> D/RD
D/D* -> D/DR
D/** -> D/RR
*/BB -> B/RR
*/*D -> R/RD
*/D* -> R/DR
*/** -> R/RR
";

// A multiplexer that was told which of its two pipes are empty, if it was told.
fn holds_of_multiplexer(
    alloc: Global,
    empties: Option<(bool, bool)>,
    table: &str,
) -> Result<(), Fail> {
    let mut multiplexer = MultiplexerNode::new();
    if let Some((first, second)) = empties {
        multiplexer.see_pipes(vec![in alloc; first, second]?);
    }
    let node = FlowNode::Multiplexer(multiplexer);
    obeys_table(alloc, node, 1, 2, READERS, table)
}

// Of one that wasn't told they are empty.
#[test]
fn a_multiplexer_offers_its_input(rt: HostRuntime) -> Result<(), Fail> {
    let alloc = rt.alloc();
    holds_of_multiplexer(alloc, None, EMPTY_PIPES)?;
    holds_of_multiplexer(alloc, Some((true, true)), EMPTY_PIPES)
}

#[test]
fn a_multiplexer_holds_what_waits(rt: HostRuntime) -> Result<(), Fail> {
    let alloc = rt.alloc();
    holds_of_multiplexer(alloc, Some((false, true)), FIRST_WAITS)?;
    holds_of_multiplexer(alloc, Some((false, false)), BOTH_WAIT)
}

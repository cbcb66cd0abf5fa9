// Which part of a graph runs next, of graphs whose ports say this or that.
ghost use Rattle.std.specs.Prelude.{◌≡◌, Some, IfNone, IfOk, IfSome, slice_set};
ghost use Rattle.keyed_slots.specs.Slots.{value_at};
ghost use Rattle.ps_graph.specs.Shown.{IsLinked};

use crate::adding::{add, inputs};
use crate::kind::Kind;
use crate::node::TrialNode;
use keyed_slots::{Key, SlotMap};
use ps_graph::graph::{Graph, LogicalPipe};
use ps_graph::key::LogicalPipeKey;
use ps_ports::port_state::PortState;
use std::alloc::Global;
use std::test::Fail;

// A node that is memory intensive for `m`, and one that isn't for `p`.
fn node(word: &str) -> Result<TrialNode, Fail> {
    match word {
        "m" => Ok(TrialNode::new(Kind::Taker)),
        "p" => Ok(TrialNode::new(Kind::Filter)),
        _ => Err(Fail::from("no kind")),
    }
}

fn state(word: &str) -> Result<PortState, Fail> {
    match word {
        "B" => Ok(PortState::Blocked),
        "R" => Ok(PortState::Ready),
        "D" => Ok(PortState::Done),
        _ => Err(Fail::from("no state")),
    }
}

// The nodes of a description, in order.
fn built(alloc: Global, text: &str) -> Result<Graph<TrialNode>, Fail>
    ensures { IfOk result IsLinked }
{
    let Ok(mut graph) = Graph::with_capacity(alloc, 0) else {
        return Err(Fail::from("no graph"));
    };
    for part in text.split("; ") {
        let Some((kind, read)) = part.split_once(" ") else {
            return Err(Fail::from("a node without inputs"));
        };
        let read = inputs(alloc, read)?;
        let node = node(kind)?;
        add(&mut graph, alloc, node, read.as_slice())?;
    }
    Ok(graph)
}

// What both ends of a pipe say from now on.
fn say(
    pipes: &mut SlotMap<LogicalPipeKey, LogicalPipe>,
    key: LogicalPipeKey,
    sent: PortState,
    received: PortState,
)
    ensures said { IfSome (value_at pipes.old.slots key.0) (λ p. pipes.new.slots ≡ slice_set pipes.old.slots key.0 (Some (record p { send_state = sent; recv_state = received }))) }
    ensures unknown { IfNone (value_at pipes.old.slots key.0) (pipes.new.slots ≡ pipes.old.slots) }
{
    if let Some(pipe) = pipes.get_mut(key) {
        pipe.send_state = sent;
        pipe.recv_state = received;
    }
}

fn set(graph: &mut Graph<TrialNode>, key: LogicalPipeKey, sent: PortState, received: PortState)
    requires { IsLinked graph.old }
    ensures { IsLinked graph.new }
{
    say(&mut graph.pipes, key, sent, received);
}

// The graph of a description with what each pipe's two ends say, the sender's word first.
fn settled(alloc: Global, nodes: &str, states: &str) -> Result<Graph<TrialNode>, Fail>
    ensures { IfOk result IsLinked }
{
    let mut graph = built(alloc, nodes)?;
    let mut number = 0u32;
    for pair in states.split(" ") {
        let Some((sent, received)) = pair.split_once("/") else {
            return Err(Fail::from("a pipe without two ends"));
        };
        let sent = state(sent)?;
        let received = state(received)?;
        set(
            &mut graph,
            LogicalPipeKey::from_number(number),
            sent,
            received,
        );
        number = number.saturating_add(1);
    }
    if graph.pipes.len() != number as usize {
        return Err(Fail::from("not as many states as pipes"));
    }
    Ok(graph)
}

// The numbers of the nodes that run next, and behind `|` those of the pipes.
fn told(alloc: Global, graph: &Graph<TrialNode>) -> Result<String, Fail>
    requires { IsLinked graph.now }
{
    let Ok((nodes, pipes)) = graph.find_runnable_subgraph(alloc) else {
        return Err(Fail::from("no phase"));
    };
    let mut text = String::new(alloc);
    for key in &nodes {
        write!(text, "{} ", key.number())?;
    }
    text.push_str("|")?;
    for key in &pipes {
        write!(text, " {}", key.number())?;
    }
    Ok(text)
}

// Graphs, each node with its inputs, `m` for one that is memory intensive; then what the pipes say, by the order in which they were added;
// and behind `->` what runs.
const PHASES: &str = "
p -; p 0.0; m 1.0 : R/R R/R -> 0 1 2 | 0 1
p -; p 0.0; p 1.0 : R/R R/R -> 0 1 2 | 0 1
p -; p 0.0; m 1.0 : R/B R/R -> 1 2 | 1
p -; p 0.0; m 1.0 : B/R R/R -> 1 2 | 1
p -; p 0.0; m 1.0 : R/R R/B -> |
p -; p 0.0; m 1.0 : R/R B/R -> 0 1 | 0
p -; p 0.0; m 1.0 : R/R D/D -> |
p -; p 0.0; m 1.0 : D/D D/D -> |
p -; p -; p 0.0; p 1.0; p 2.0; p 3.0 : R/R R/R B/R B/R -> 0 1 2 3 | 0 1
p -; p -; m 0.0; p 1.0; p 2.0; p 3.0 : R/R R/R B/R B/R -> 0 1 2 3 | 0 1
p -; p -; m 0.0; m 1.0; p 2.0; p 3.0 : R/R R/R B/R B/R -> 1 3 | 1
p -; p -; m 0.0; m 1.0; p 2.0; p 3.0 : R/R R/R B/B B/B -> 1 3 | 1
p -; p -; m 0.0; m 1.0; p 2.0; p 3.0 : R/R R/R B/R B/B -> 0 2 | 0
p -; p -; m 0.0; m 1.0; p 2.0; p 3.0 : R/R R/R B/B B/R -> 1 3 | 1
p -; p -; m 0.0; m 1.0; p 2.0; p 2.1; p 3.0 : R/R R/R B/R B/R B/R -> 0 2 | 0
p -; p -; m 0.0; m 1.0; p 2.0; p 2.1; p 3.0 : R/R R/R B/R B/B B/R -> 1 3 | 1
p -; p -; m 0.0; m 1.0; p 2.0; p 3.0 : R/R R/B B/B B/R -> 0 2 | 0
p -; p 0.0; p 1.1; p 1.0,2.0; m 3.0 : R/R R/R R/B B/B B/R -> 0 1 2 | 0 1
p -; p 0.0; p 1.0; p 1.1 : R/R R/R R/R -> 0 1 2 3 | 0 1 2
p -; p 0.0; m 1.0; m 1.1 : R/R R/R R/R -> 0 1 3 | 0 2
p -; p -; p 0.0,1.0; m 2.0 : R/R R/R R/R -> 0 1 2 3 | 0 1 2
";

#[test]
fn blockers_run_with_all_that_feeds_them(rt: HostRuntime) -> Result<(), Fail> {
    let alloc = rt.alloc();
    for line in PHASES.trim().lines() {
        let Some((graph, wanted)) = line.split_once(" -> ") else {
            return Err(Fail::from("a graph without a phase"));
        };
        let Some((nodes, states)) = graph.split_once(" : ") else {
            return Err(Fail::from("a graph without states"));
        };
        let graph = settled(alloc, nodes, states)?;
        let given = told(alloc, &graph)?;
        assert_eq!(rt; given.as_str(), wanted, "at {line}");
    }
    Ok(())
}

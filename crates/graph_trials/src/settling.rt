// Chains of nodes come to rest, and are then ready to run from end to end.
ghost use Rattle.std.specs.Prelude.{◌≡◌, ◌+◌, ◌<◌, ◌^◌, ◌∷◌, ◌++◌, [], IfOk, IsTrue, OnOk, length};
ghost use Rattle.std.specs.List.{list_all};
ghost use Rattle.graph_trials.specs.Chains.{IsChain, kinds_of};
ghost use Rattle.graph_trials.specs.Trying.{FitsKind, is_link};
ghost use Rattle.graph_trials.specs.declared.kind.Kind.TheVariants as kind;
ghost use Rattle.ps_graph.specs.Shown.{CanRun};

use crate::kind::{Kind, are_links};
use crate::node::TrialNode;
use keyed_slots::Key;
use ps_frame::refusal::PolarsResult;
use ps_graph::graph::Graph;
use ps_graph::key::GraphNodeKey;
use ps_ports::port_state::PortState;
use pu_base::{Node, Steps};
use std::alloc::Global;
use std::marker::Brand;
use std::sync::ledger::{Blank, Ledger};
use std::test::Fail;

// A source alone.
fn source(alloc: Global, spent: bool) -> PolarsResult<Graph<TrialNode>>
    ensures chain { IfOk result IsChain }
    ensures pipes { IfOk result (λ g. length g.pipes.slots ≡ 0) }
    ensures kinds { IfOk result (λ g. kinds_of g ≡ kind.Source spent ∷ []) }
{
    let mut graph = Graph::<TrialNode>::with_capacity(alloc, 0)?;
    let node = TrialNode::new(Kind::Source(spent));
    graph.add_node(alloc, node, Node(0), &[])?;
    Ok(graph)
}

// One node more, which reads the last one.
fn extend(
    graph: &mut Graph<TrialNode>,
    alloc: Global,
    kind: Kind,
    last: GraphNodeKey,
) -> PolarsResult<()>
    requires chain { IsChain graph.old }
    requires last { last.0 ≡ length graph.old.pipes.slots }
    requires room { length graph.old.pipes.slots < 2 ^ 31 }
    ensures chain { OnOk result (IsChain graph.new) }
    ensures pipes { OnOk result (length graph.new.pipes.slots ≡ length graph.old.pipes.slots + 1) }
    ensures kinds { OnOk result (kinds_of graph.new ≡ kinds_of graph.old ++ kind ∷ []) }
{
    let node = TrialNode::new(kind);
    graph.add_node(alloc, node, Node(0), &[(last, 0)])?;
    Ok(())
}

// A source, a node of each of these kinds, and a sink.
fn chain(alloc: Global, links: &[Kind], spent: bool) -> PolarsResult<Graph<TrialNode>>
    requires links { IsTrue (list_all is_link links.now) }
    requires few { length links.now < 2 ^ 30 }
    ensures { IfOk result (CanRun FitsKind) }
{
    let mut graph = source(alloc, spent)?;
    for (number, kind) in links.iter().enumerate() {
        let last = GraphNodeKey::from_number(number as u32);
        extend(&mut graph, alloc, *kind, last)?;
    }
    let end = GraphNodeKey::from_number(links.len() as u32);
    extend(&mut graph, alloc, Kind::Sink, end)?;
    // The law by which a graph that lacks nothing may run.
    graph.complete_graphs_run();
    Ok(graph)
}

// A chain that has come to rest.
fn at_rest(alloc: Global, links: &[Kind], spent: bool) -> Result<Graph<TrialNode>, Fail>
    ensures { IfOk result (CanRun FitsKind) }
{
    if !are_links(links) || links.len() > 100_000 {
        return Err(Fail::from("no links of a chain"));
    }
    let Ok(mut graph) = chain(alloc, links, spent) else {
        return Err(Fail::from("no chain"));
    };
    match settle::<Brand>(&mut graph, alloc, Blank::new(1)) {
        Ok(()) => Ok(graph),
        Err(_) => Err(Fail::from("not settled")),
    }
}

fn settle<L: Ledger>(graph: &mut Graph<TrialNode>, alloc: Global, blank: Blank) -> PolarsResult<()>
    requires name { blank.name ≡ L.name }
    requires parts { blank.parts ≡ L.parts }
    requires some { 0 < L.parts }
    requires can { CanRun FitsKind graph.old }
    ensures { OnOk result (CanRun FitsKind graph.new) }
{
    let mut steps = Steps::<L>::new(blank);
    graph.update_all_states(alloc, &mut steps)
}

fn updates(graph: &Graph<TrialNode>) -> u64 {
    let mut sum = 0u64;
    for (_, node) in graph.nodes.iter() {
        sum = sum.saturating_add(node.compute.updates);
    }
    sum
}

// How many pipes say this at both ends.
fn count_saying(graph: &Graph<TrialNode>, state: PortState) -> u64 {
    let mut count = 0u64;
    for (_, pipe) in graph.pipes.iter() {
        if pipe.send_state == state && pipe.recv_state == state {
            count = count.saturating_add(1);
        }
    }
    count
}

// So many filters.
fn filters(alloc: Global, count: usize) -> Result<Vec<Kind>, Fail> {
    let filters = vec![in alloc; Kind::Filter; count]?;
    Ok(filters)
}

// So many maps, a union behind each of them.
fn maps_and_unions(alloc: Global, maps: usize) -> Result<Vec<Kind>, Fail> {
    let mut kinds = Vec::new(alloc);
    for _ in 0..maps {
        kinds.push(Kind::Map(false))?;
        kinds.push(Kind::Union)?;
    }
    Ok(kinds)
}

// Chains: 10,000 filters, and 3,000 maps that alternate with unions.
fn links(alloc: Global, filtered: bool) -> Result<Vec<Kind>, Fail> {
    if filtered {
        filters(alloc, 10_000)
    } else {
        maps_and_unions(alloc, 3_000)
    }
}

// Each node of a chain is updated, and all updates lie below the limit of 2 × nodes × (2 × pipes + 2 × nodes + 2).
fn are_counted(graph: &Graph<TrialNode>) -> bool {
    let nodes = graph.nodes.len() as u128;
    let pipes = graph.pipes.len() as u128;
    let updates = updates(graph) as u128;
    nodes <= updates && updates <= (2 * nodes).saturating_mul(2 * pipes + 2 * nodes + 2)
}

// Filters pass what their source says to the sink. A map blocks its reader until its input is done; then all is.
#[test]
fn long_chains_settle(rt: HostRuntime) -> Result<(), Fail> {
    let alloc = rt.alloc();
    for (filtered, spent, state, count) in [
        (true, false, PortState::Ready, 10_001),
        (true, true, PortState::Done, 10_001),
        (false, false, PortState::Ready, 1),
        (false, true, PortState::Done, 6_001),
    ] {
        let links = links(alloc, filtered)?;
        let graph = at_rest(alloc, links.as_slice(), spent)?;
        assert_eq!(rt; count_saying(&graph, state), count);
        assert!(rt; are_counted(&graph));
    }
    Ok(())
}

// Once it has come to rest all of a chain of filters runs, of maps what feeds the first one, and once its source is spent nothing.
#[test]
fn long_chains_run(rt: HostRuntime) -> Result<(), Fail> {
    let alloc = rt.alloc();
    for (filtered, spent, nodes, pipes) in [
        (true, false, 10_002, 10_001),
        (true, true, 0, 0),
        (false, false, 2, 1),
        (false, true, 0, 0),
    ] {
        let links = links(alloc, filtered)?;
        let graph = at_rest(alloc, links.as_slice(), spent)?;
        let Ok((found, between)) = graph.find_runnable_subgraph(alloc) else {
            return Err(Fail::from("no phase"));
        };
        assert_eq!(rt; found.len(), nodes);
        assert_eq!(rt; between.len(), pipes);
    }
    Ok(())
}

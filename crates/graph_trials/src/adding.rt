// Graphs as they are put together: which pipes lead where.
ghost use Rattle.std.specs.Prelude.{◌<◌, All, IfOk, IsTrue, OnOk};
ghost use Rattle.ps_graph.specs.Shown.{IsLinked};

use keyed_slots::Key;
use ps_graph::end::End;
use ps_graph::graph::Graph;
use ps_graph::key::{GraphNodeKey, LogicalPipeKey};
use pu_base::Node;
use std::alloc::Global;
use std::test::Fail;

// The port that a text names by the number of a node and a port.
fn port(text: &str) -> Result<(GraphNodeKey, usize), Fail> {
    let Some((node, port)) = text.split_once(".") else {
        return Err(Fail::from("an input without a port"));
    };
    let (Ok(node), Ok(port)) = (node.parse::<u32>(), port.parse::<usize>()) else {
        return Err(Fail::from("an input without numbers"));
    };
    Ok((GraphNodeKey::from_number(node), port))
}

// The inputs of a node; `-` is none.
pub fn inputs(alloc: Global, text: &str) -> Result<Vec<(GraphNodeKey, usize)>, Fail> {
    let mut inputs = Vec::new(alloc);
    if text == "-" {
        return Ok(inputs);
    }
    for part in text.split(",") {
        inputs.push(port(part)?)?;
    }
    Ok(inputs)
}

// Whether all senders are among the first nodes.
fn are_there(count: usize, inputs: &[(GraphNodeKey, usize)]) -> bool
    ensures { IsTrue result → All (λ i. i.0.0 < count) inputs.now }
{
    for (sender, _) in inputs {
        if sender.number() as usize >= count {
            return false;
        }
    }
    true
}

// Adds a node, once all that it reads is there.
pub fn add<N: Drop>(
    graph: &mut Graph<N>,
    alloc: Global,
    node: N,
    inputs: &[(GraphNodeKey, usize)],
) -> Result<(), Fail>
    requires { IsLinked graph.old }
    ensures { OnOk result (IsLinked graph.new) }
{
    if !are_there(graph.count(), inputs) {
        return Err(Fail::from("a sender that isn't there"));
    }
    if graph.count() >= 1000 || graph.pipes.len() >= 1000 || inputs.len() >= 1000 {
        return Err(Fail::from("too large a graph"));
    }
    match graph.add_node(alloc, node, Node(0), inputs) {
        Ok(_) => Ok(()),
        Err(_) => Err(Fail::from("no node")),
    }
}

// The graph of a description: the inputs of each node, in which the nodes are numbered from 0. Each holds its number and 100.
fn built(alloc: Global, text: &str) -> Result<Graph<u32>, Fail>
    ensures { IfOk result IsLinked }
{
    let Ok(mut graph) = Graph::with_capacity(alloc, 0) else {
        return Err(Fail::from("no graph"));
    };
    let mut node = 100u32;
    for part in text.split("; ") {
        let inputs = inputs(alloc, part)?;
        add(&mut graph, alloc, node, inputs.as_slice())?;
        node = node.saturating_add(1);
    }
    Ok(graph)
}

// Of each pipe of a node at one of its ends the port, and behind `=` the node and the port at the other end.
fn push_pipes(
    text: &mut String,
    graph: &Graph<u32>,
    end: End,
    keys: &[LogicalPipeKey],
) -> Result<(), Fail> {
    for key in keys {
        let Some(pipe) = graph.pipes.get(*key) else {
            return Err(Fail::from("a pipe that isn't there"));
        };
        let (own, node, port) = match end {
            End::Sender => (pipe.send_port, pipe.receiver, pipe.recv_port),
            End::Receiver => (pipe.recv_port, pipe.sender, pipe.send_port),
        };
        write!(text, " {own}={}.{port}", node.number())?;
    }
    Ok(())
}

// Of each node what it holds, and behind `<` its inputs with the ports that they read, behind `>` its ports with the inputs that read them.
fn told(alloc: Global, graph: &Graph<u32>) -> Result<String, Fail> {
    let mut text = String::new(alloc);
    // No larger graph is built.
    for number in 0..1000 {
        let Some(node) = graph.nodes.get(GraphNodeKey::from_number(number)) else {
            break;
        };
        write!(text, "{} <", node.compute)?;
        push_pipes(&mut text, graph, End::Receiver, node.inputs.as_slice())?;
        text.push_str(" >")?;
        push_pipes(&mut text, graph, End::Sender, node.outputs.as_slice())?;
        text.push_str("/")?;
    }
    Ok(text)
}

// Graphs, and behind `->` what is told of them.
const GRAPHS: &str = "
- -> 100 < >/
-; 0.0 -> 100 < > 0=1.0/101 < 0=0.0 >/
-; 0.0; 1.0 -> 100 < > 0=1.0/101 < 0=0.0 > 0=2.0/102 < 0=1.0 >/
-; -; 1.0,0.0; 2.0 -> 100 < > 0=2.1/101 < > 0=2.0/102 < 0=1.0 1=0.0 > 0=3.0/103 < 0=2.0 >/
-; 0.0; 1.0; 1.1,2.0; 1.2 -> 100 < > 0=1.0/101 < 0=0.0 > 0=2.0 1=3.0 2=4.0/102 < 0=1.0 > 0=3.1/103 < 0=1.1 1=2.0 >/104 < 0=1.2 >/
";

#[test]
fn pipes_lead_from_ports_to_inputs(rt: HostRuntime) -> Result<(), Fail> {
    let alloc = rt.alloc();
    for line in GRAPHS.trim().lines() {
        let Some((nodes, wanted)) = line.split_once(" -> ") else {
            return Err(Fail::from("a graph that is told nothing of"));
        };
        let graph = built(alloc, nodes)?;
        let given = told(alloc, &graph)?;
        assert_eq!(rt; given.as_str(), wanted, "at {nodes}");
    }
    Ok(())
}

// What a graph shows, as text, and whether its nodes and pipes name each other.
use crate::planned::Planned;
use keyed_slots::{Key, SecondaryMap};
use ps_graph::compute_node::ComputeNode;
use ps_graph::graph::Graph;
use ps_graph::key::{GraphNodeKey, LogicalPipeKey};
use ps_nodes::flow::FlowNode;
use ps_phys::phys::PhysNodeKey;
use ps_ports::port_state::PortState;
use std::alloc::{AllocError, Global};
use std::test::Fail;

// Writes where a pipe comes from.
fn push_sender(
    text: &mut String,
    graph: &Graph<FlowNode>,
    pipe: LogicalPipeKey,
) -> Result<(), AllocError> {
    match graph.pipes.get(pipe) {
        Some(pipe) => {
            text.write(pipe.sender.number())?;
            text.push_str(".")?;
            text.write(pipe.send_port)
        }
        None => text.push_str("?"),
    }
}

// Writes where the inputs of a node come from, or `-`.
fn push_senders(
    text: &mut String,
    graph: &Graph<FlowNode>,
    inputs: &[LogicalPipeKey],
) -> Result<(), AllocError> {
    if inputs.is_empty() {
        text.push_str("-")?;
    }
    let mut separator = "";
    for pipe in inputs {
        text.push_str(separator)?;
        push_sender(text, graph, *pipe)?;
        separator = ",";
    }
    Ok(())
}

/// The text of a graph: the number, the name, the origin and the inputs of each node, with `/` for the end of a line.
pub fn graph_text(alloc: Global, graph: &Graph<FlowNode>) -> Result<String, AllocError> {
    let mut text = String::new(alloc);
    for (key, node) in graph.nodes.iter() {
        text.write(key.number())?;
        text.push_str(" ")?;
        text.push_str(node.compute.name())?;
        text.push_str(" ")?;
        text.write(node.origin.0)?;
        text.push_str(" ")?;
        push_senders(&mut text, graph, node.inputs.as_slice())?;
        text.push_str("/")?;
    }
    Ok(text)
}

// The words of physical nodes, and the names of the nodes that these become.
const NAMES: &str = "
in-memory-source in_memory_source
select select
with-columns select
with-row-index with_row_index
input-independent-select input_independent_select
reduce reduce
slice streaming_slice
negative-slice negative_slice
filter filter
simple-projection simple_projection
in-memory-sink in_memory_sink
in-memory-map in_memory_map
sort in_memory_map
map map
ordered-union ordered_union
zip zip
zip-null-extend zip
multiplexer multiplexer
group-by group_by
equi-join equi_join
in-memory-join in_memory_join
";

// Writes the name of the node that a physical node of this word becomes.
fn push_name(text: &mut String, word: &str) -> Result<(), AllocError> {
    for line in NAMES.trim().lines() {
        if let Some((known, name)) = line.split_once(" ") {
            if known == word {
                return text.push_str(name);
            }
        }
    }
    text.push_str("?")
}

// Writes a line of a plan's text, with the name of the graph's node in place of the word.
fn push_named(text: &mut String, line: &str) -> Result<(), Fail> {
    let Some((number, rest)) = line.split_once(" ") else {
        return Err(Fail::from("a line without a word"));
    };
    let Some((word, rest)) = rest.split_once(" ") else {
        return Err(Fail::from("a line without an origin"));
    };
    text.push_str(number)?;
    text.push_str(" ")?;
    push_name(text, word)?;
    text.push_str(" ")?;
    text.push_str(rest)?;
    text.push_str("/")?;
    Ok(())
}

/// What the graph of a plan of this text shows; its lines end with `end`.
pub fn named_text(alloc: Global, plan: &str, end: &str) -> Result<String, Fail> {
    let mut text = String::new(alloc);
    for line in plan.split(end) {
        if !line.is_empty() {
            push_named(&mut text, line)?;
        }
    }
    Ok(text)
}

// Whether a pipe leads to this input of a node, and both of its ends are blocked.
fn leads_to(
    graph: &Graph<FlowNode>,
    pipe: LogicalPipeKey,
    receiver: GraphNodeKey,
    place: usize,
) -> bool {
    match graph.pipes.get(pipe) {
        Some(pipe) => {
            pipe.receiver == receiver
                && pipe.recv_port == place
                && pipe.send_state == PortState::Blocked
                && pipe.recv_state == PortState::Blocked
        }
        None => false,
    }
}

// Whether each of these pipes leads to its own input of a node, and is blocked.
fn all_lead_to(graph: &Graph<FlowNode>, inputs: &[LogicalPipeKey], receiver: GraphNodeKey) -> bool {
    for (place, pipe) in inputs.iter().enumerate() {
        if !leads_to(graph, *pipe, receiver, place) {
            return false;
        }
    }
    true
}

// Whether a node sends a pipe.
fn comes_from(graph: &Graph<FlowNode>, pipe: LogicalPipeKey, sender: GraphNodeKey) -> bool {
    match graph.pipes.get(pipe) {
        Some(pipe) => pipe.sender == sender,
        None => false,
    }
}

// Whether a node sends each of these pipes, none of which stands twice: their numbers rise.
fn all_come_from(
    graph: &Graph<FlowNode>,
    outputs: &[LogicalPipeKey],
    sender: GraphNodeKey,
) -> bool {
    let mut least = 0u32;
    for pipe in outputs {
        if pipe.number() < least || !comes_from(graph, *pipe, sender) {
            return false;
        }
        least = pipe.number().saturating_add(1);
    }
    true
}

// Whether each node lists the pipes that lead to it, input by input, and those that it sends, and each pipe is listed twice, once by
// its reader and once by its sender. All are blocked.
fn is_wired(graph: &Graph<FlowNode>) -> bool {
    let mut inputs = 0usize;
    let mut outputs = 0usize;
    for (key, node) in graph.nodes.iter() {
        if !all_lead_to(graph, node.inputs.as_slice(), key)
            || !all_come_from(graph, node.outputs.as_slice(), key)
        {
            return false;
        }
        inputs = inputs.saturating_add(node.inputs.len());
        outputs = outputs.saturating_add(node.outputs.len());
    }
    inputs == graph.pipes.len() && outputs == graph.pipes.len()
}

// Whether each physical node became the node of its place in the plan's text.
fn are_keyed(keys: &SecondaryMap<PhysNodeKey, GraphNodeKey>, order: &[PhysNodeKey]) -> bool {
    for (place, key) in order.iter().enumerate() {
        let Some(number) = keys.get(*key) else {
            return false;
        };
        if number.number() as usize != place {
            return false;
        }
    }
    true
}

/// Whether a graph has as many nodes and pipes as were counted in its plan, these name each other, and each physical node became the
/// node of its place.
pub fn is_whole(planned: &Planned) -> bool {
    planned.graph.nodes.len() == planned.nodes
        && planned.order.len() == planned.nodes
        && planned.graph.pipes.len() == planned.inputs
        && is_wired(&planned.graph)
        && are_keyed(&planned.keys, planned.order.as_slice())
}

//! Scripts: what nodes are given, one update after the other, and what they must answer. Nodes are handed on by value: a test that
//! keeps one has its drop of all kinds to show.
ghost use Rattle.std.specs.Prelude.{◌≡◌, OnOk};
ghost use Rattle.flow_scripts.specs.Followed.{SameCounts};

use ps_graph::compute_node::ComputeNode;
use std::alloc::Global;
use std::test::Fail;
use turn_scripts::letters::{compare, read};
use turn_scripts::script::is_nowhere;
use turn_scripts::tables::answer_in;

// One update: the node is given these states, and must answer those.
fn update<N: ComputeNode>(
    alloc: Global,
    node: &mut N,
    inputs: usize,
    outputs: usize,
    states: &str,
    wanted: &str,
) -> Result<(), Fail>
    requires ports { N.HasPorts node.old inputs outputs }
    ensures ports { OnOk result (N.HasPorts node.new inputs outputs) }
    ensures same { OnOk result (SameCounts N.Update node.old node.new) }
{
    let mut given = read(alloc, states, inputs, outputs)?;
    let (recv, send) = (given.recv.as_mut_slice(), given.send.as_mut_slice());
    match node.update_state(alloc, recv, send) {
        Ok(()) => (),
        Err(_error) => return Err(Fail::from("no answer")),
    }
    compare(alloc, states, &given, wanted)
}

// The lines of a script, one update of the node each.
fn follow<N: ComputeNode>(
    alloc: Global,
    node: &mut N,
    inputs: usize,
    outputs: usize,
    script: &str,
) -> Result<(), Fail>
    requires { N.HasPorts node.old inputs outputs }
    ensures ports { OnOk result (N.HasPorts node.new inputs outputs) }
    ensures same { OnOk result (SameCounts N.Update node.old node.new) }
{
    for line in script.trim().lines() {
        let Some((states, wanted)) = line.split_once(" -> ") else {
            return Err(Fail::from("a line without an answer"));
        };
        update(alloc, node, inputs, outputs, states, wanted)?;
    }
    Ok(())
}

/// A node answers as a script says. Its lines have the states that the node is given, and behind ` -> ` those that it must
/// answer, as in `R/R -> D/R`.
pub fn obeys<N: ComputeNode>(
    alloc: Global,
    mut node: N,
    inputs: usize,
    outputs: usize,
    script: &str,
) -> Result<(), Fail>
    requires { N.HasPorts node inputs outputs }
{
    follow(alloc, &mut node, inputs, outputs, script)
}

/// A node answers as a table says to all these states, one after the other.
pub fn obeys_table<N: ComputeNode>(
    alloc: Global,
    mut node: N,
    inputs: usize,
    outputs: usize,
    all: &str,
    table: &str,
) -> Result<(), Fail>
    requires { N.HasPorts node inputs outputs }
{
    for states in all.split_whitespace() {
        let wanted = answer_in(&[table], states)?;
        update(alloc, &mut node, inputs, outputs, states, wanted)?;
    }
    Ok(())
}

/// Behind a script a node with one output answers so to these states: by those of its own ends, or by an error, at no node in
/// particular.
pub fn answers<N: ComputeNode>(
    alloc: Global,
    mut node: N,
    inputs: usize,
    before: &str,
    states: &str,
    wanted: &str,
) -> Result<(), Fail>
    requires { N.HasPorts node inputs 1 }
{
    follow(alloc, &mut node, inputs, 1, before)?;
    let mut given = read(alloc, states, inputs, 1)?;
    let (recv, send) = (given.recv.as_mut_slice(), given.send.as_mut_slice());
    match node.update_state(alloc, recv, send) {
        Ok(()) => compare(alloc, states, &given, wanted),
        Err(error) => is_nowhere(alloc, error, wanted),
    }
}

fn stands<N: ComputeNode>(
    node: &N,
    word: &str,
    is_intensive: bool,
    stages: usize,
) -> Result<(), Fail> {
    let (is, behind) = (
        node.is_memory_intensive_pipeline_blocker(),
        node.stages_behind(),
    );
    if node.name() != word {
        return Err(Fail::from("another word"));
    }
    if is != is_intensive || behind != stages {
        return Err(Fail::new(format_args!("{word}: intensive {is}, {behind} stages")));
    }
    Ok(())
}

fn gives_no_answer<N: ComputeNode>(alloc: Global, node: &mut N) -> Result<(), Fail>
    ensures { node.new ≡ N.emptied node.old }
{
    match node.get_output(alloc) {
        Ok(None) => Ok(()),
        Ok(Some(_table)) => Err(Fail::from("an answer")),
        Err(_error) => Err(Fail::from("no memory")),
    }
}

/// Behind a script a node with one output has this word for its kind, takes its inputs in whole or doesn't, and has so many
/// stages behind it. It has no rows for its graph's answer.
pub fn stands_behind<N: ComputeNode>(
    alloc: Global,
    mut node: N,
    inputs: usize,
    script: &str,
    stand: (&str, bool, usize),
) -> Result<(), Fail>
    requires { N.HasPorts node inputs 1 }
{
    let (word, is_intensive, stages) = stand;
    follow(alloc, &mut node, inputs, 1, script)?;
    stands(&node, word, is_intensive, stages)?;
    gives_no_answer(alloc, &mut node)
}

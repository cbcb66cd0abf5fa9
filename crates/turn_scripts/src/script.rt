//! Scripts: what a node is given, one update after the other, and what it must answer.
ghost use Rattle.std.specs.Prelude.{◌≡◌, OnOk};

use crate::letters::{compare, read};
use crate::tables::answer_in;
use crate::turns::Turns;
use ps_frame::refusal::PolarsError;
use std::alloc::Global;
use std::test::Fail;

/// One update: the node is given these states, and must answer those.
pub fn update<N: Turns>(
    alloc: Global,
    node: &mut N,
    inputs: usize,
    states: &str,
    wanted: &str,
) -> Result<(), Fail>
    requires { N.HasInputs node.old inputs }
    ensures inputs { OnOk result (N.HasInputs node.new inputs) }
    ensures claimed { OnOk result (N.claimed node.new ≡ N.claimed node.old) }
{
    let mut given = read(alloc, states, inputs, 1)?;
    let (recv, send) = (given.recv.as_mut_slice(), given.send.as_mut_slice());
    match node.turn(alloc, recv, send) {
        Ok(()) => (),
        Err(_error) => return Err(Fail::from("no answer")),
    }
    compare(alloc, states, &given, wanted)
}

/// The lines of a script, one update of the node each: the states that it is given, and behind ` -> ` those that it must
/// answer, as in `RD/R -> RD/B`.
pub fn follow<N: Turns>(
    alloc: Global,
    node: &mut N,
    inputs: usize,
    script: &str,
) -> Result<(), Fail>
    requires { N.HasInputs node.old inputs }
    ensures inputs { OnOk result (N.HasInputs node.new inputs) }
    ensures claimed { OnOk result (N.claimed node.new ≡ N.claimed node.old) }
{
    for line in script.trim().lines() {
        let Some((states, wanted)) = line.split_once(" -> ") else {
            return Err(Fail::from("a line without an answer"));
        };
        update(alloc, node, inputs, states, wanted)?;
    }
    Ok(())
}

/// All these states, one update after the other, with the answers of a table. Those are left out to which it answers an error.
pub fn follow_table<N: Turns>(
    alloc: Global,
    node: &mut N,
    inputs: usize,
    all: &str,
    table: &[&str],
) -> Result<(), Fail>
    requires { N.HasInputs node.old inputs }
    ensures inputs { OnOk result (N.HasInputs node.new inputs) }
    ensures claimed { OnOk result (N.claimed node.new ≡ N.claimed node.old) }
{
    for states in all.split_whitespace() {
        let wanted = answer_in(table, states)?;
        if wanted.contains("/") {
            update(alloc, node, inputs, states, wanted)?;
        }
    }
    Ok(())
}

/// An error is this one, at no node in particular.
pub fn is_nowhere(alloc: Global, error: PolarsError, wanted: &str) -> Result<(), Fail> {
    let told = format!(in alloc; "{error}")?;
    let wanted = format!(in alloc; "{wanted} at {}", usize::MAX)?;
    if told != wanted {
        return Err(Fail::new(format_args!("{told}, not {wanted}")));
    }
    Ok(())
}

/// Behind a script a node answers so to these states: by those of its own ends, or by an error, at no node in particular.
pub fn answers<N: Turns>(
    alloc: Global,
    mut node: N,
    inputs: usize,
    before: &str,
    states: &str,
    wanted: &str,
) -> Result<(), Fail>
    requires { N.HasInputs node inputs }
{
    follow(alloc, &mut node, inputs, before)?;
    let mut given = read(alloc, states, inputs, 1)?;
    let (recv, send) = (given.recv.as_mut_slice(), given.send.as_mut_slice());
    match node.turn(alloc, recv, send) {
        Ok(()) => compare(alloc, states, &given, wanted),
        Err(error) => is_nowhere(alloc, error, wanted),
    }
}

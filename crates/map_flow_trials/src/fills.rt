//! Maps of functions of the caller: when they wait for their table, and how it is filled in from outside.
ghost use Rattle.std.specs.Prelude.{◌≡◌, IfOk, IsTrue};
ghost use Rattle.map_flow_trials.specs.Shown.{over_numbers, shown_of};
ghost use Rattle.ps_meaning.specs.Steps.{user};

use crate::functions::FirstRowOrNone;
use crate::maps::calls_function;
use crate::scripts::{answers, driven, is_nowhere};
use crate::tables::WAITS;
use ps_frame::refusal::Compute;
use ps_nodes::in_memory_map::InMemoryMapNode;
use std::alloc::Global;
use std::test::Fail;
use turn_scripts::tables::{ONE_INPUT, answer_in};

// The map of function 0 or 1, which waits for its table.
#[tactic(auto, using(crate::proofs::Fitting::calls_turn))]
fn waiting(alloc: Global, function: usize) -> Result<InMemoryMapNode, Fail>
    ensures shown { IfOk result (λ n. shown_of n ≡ over_numbers (user function)) }
    ensures waits { IfOk result (λ n. IsTrue n.waits) }
{
    let new = calls_function(alloc, function)?;
    let node = driven(alloc, new, "D/R -> D/B")?;
    if !node.waiting() {
        return Err(Fail::from("waits for no table"));
    }
    Ok(node)
}

/// The map of function 0, whose table is filled in: one row.
#[tactic(auto, using(crate::proofs::Turned::filled))]
pub fn filled(alloc: Global) -> Result<InMemoryMapNode, Fail>
    ensures { IfOk result (λ n. shown_of n ≡ over_numbers (user 0)) }
{
    let mut node = waiting(alloc, 0)?;
    node.fill(alloc, &FirstRowOrNone)?;
    if node.waiting() {
        return Err(Fail::from("waits for what it has"));
    }
    Ok(node)
}

// A map that was asked for its table, and had a fault instead. So it goes on waiting.
#[tactic(auto, using(crate::proofs::Turned::refused))]
fn refused(alloc: Global, mut node: InMemoryMapNode) -> Result<InMemoryMapNode, Fail>
    requires shown { shown_of node ≡ over_numbers (user 1) }
    requires waits { IsTrue node.waits }
    ensures shown { IfOk result (λ n. shown_of n ≡ over_numbers (user 1)) }
    ensures waits { IfOk result (λ n. IsTrue n.waits) }
{
    match node.fill(alloc, &FirstRowOrNone) {
        Ok(()) => return Err(Fail::from("a table")),
        Err(error) => is_nowhere(error, Compute::Function)?,
    }
    Ok(node)
}

// It was asked twice.
fn refused_twice(alloc: Global) -> Result<InMemoryMapNode, Fail>
    ensures { IfOk result (λ n. shown_of n ≡ over_numbers (user 1)) }
{
    let new = waiting(alloc, 1)?;
    let once = refused(alloc, new)?;
    refused(alloc, once)
}

#[tactic(auto, using(crate::proofs::Fitting::calls_turn))]
fn goes_on(alloc: Global, states: &str) -> Result<(), Fail> {
    let wanted = answer_in(&[WAITS], states)?;
    let node = refused_twice(alloc)?;
    answers(alloc, node, states, wanted)
}

// A function that answers nothing is a fault, at no node in particular, but of no update: the map makes no table by itself.
#[test]
fn a_map_goes_on_waiting_behind_a_fault_of_its_function(rt: HostRuntime) -> Result<(), Fail> {
    let alloc = rt.alloc();
    for states in ONE_INPUT.split_whitespace() {
        goes_on(alloc, states)?;
    }
    Ok(())
}

#[tactic(auto, using(crate::proofs::Fitting::calls_turn))]
fn tells(alloc: Global, script: &str, waits: bool) -> Result<(), Fail> {
    let new = calls_function(alloc, 0)?;
    let node = driven(alloc, new, script)?;
    if node.waiting() != waits {
        return Err(Fail::new(format_args!("waiting behind {script}: {}", !waits)));
    }
    Ok(())
}

// It waits where its input is done and its output isn't, while its table is missing.
#[test]
fn a_map_tells_whether_it_waits(rt: HostRuntime) -> Result<(), Fail> {
    let alloc = rt.alloc();
    tells(alloc, "", false)?;
    tells(alloc, "B/B -> R/B\nR/R -> R/B", false)?;
    tells(alloc, "D/B -> D/B", true)?;
    tells(alloc, "R/R -> R/B\nD/R -> D/B\nD/B -> D/B", true)?;
    tells(alloc, "D/D -> D/D", false)?;
    tells(alloc, "D/R -> D/B\nD/D -> D/D\nD/R -> D/D", false)
}

// What maps answer to all states of their input and their output, in each stage.
ghost use Rattle.std.specs.Prelude.{◌≡◌, IfOk};
ghost use Rattle.map_flow_trials.specs.Shown.{CanTurn, over_numbers, reads, shown_of};

use crate::fills::filled;
use crate::maps::{calls_function, fed, reads_counts, refuses_flag};
use crate::scripts::{Turns, answer_to, answers, claimed, driven, fails};
use crate::tables::{GIVES, OVER, TAKES, WAITS};
use ps_frame::refusal::Compute;
use ps_nodes::in_memory_map::InMemoryMapNode;
use ps_ports::port_state::PortState;
use std::alloc::Global;
use std::test::Fail;
use turn_scripts::letters::Given;
use turn_scripts::tables::{ONE_INPUT, answer_in};

// Reads counts, three rows; waits for its table; or had it filled in, one row.
#[derive(Clone, Copy, Debug)]
enum Kind {
    Reads,
    Calls,
    Filled,
}

#[tactic(auto, using(crate::proofs::Fitting::reads_turn, crate::proofs::Fitting::calls_turn, crate::proofs::Fitting::unclaimed))]
fn new_map(alloc: Global, kind: Kind) -> Result<InMemoryMapNode, Fail>
    ensures able { IfOk result (λ n. CanTurn (shown_of n)) }
    ensures unclaimed { IfOk result (λ n. (shown_of n).sent ≡ 0) }
{
    match kind {
        Kind::Reads => reads_counts(alloc, 7),
        Kind::Calls => calls_function(alloc, 0),
        Kind::Filled => filled(alloc),
    }
}

// What a map answers to all states, behind a script and once so many of its morsels are claimed.
#[tactic(auto, using(crate::proofs::Fitting::still_turns))]
fn holds(alloc: Global, kind: Kind, before: &str, claims: u8, table: &str) -> Result<(), Fail> {
    for states in ONE_INPUT.split_whitespace() {
        let wanted = answer_in(&[table], states)?;
        let new = new_map(alloc, kind)?;
        let node = driven(alloc, new, before)?;
        answers(alloc, claimed(node, claims), states, wanted)?;
    }
    Ok(())
}

#[test]
fn a_map_takes_its_input_and_then_gives(rt: HostRuntime) -> Result<(), Fail> {
    let alloc = rt.alloc();
    holds(alloc, Kind::Reads, "", 0, TAKES)?;
    holds(alloc, Kind::Reads, "B/B -> R/B\nR/R -> R/B", 0, TAKES)?;
    holds(alloc, Kind::Reads, "D/B -> D/R", 0, GIVES)?;
    holds(alloc, Kind::Reads, "D/R -> D/R", 2, GIVES)?;
    holds(alloc, Kind::Reads, "D/R -> D/R", 3, OVER)?;
    holds(alloc, Kind::Reads, "R/D -> D/D", 0, OVER)?;
    holds(alloc, Kind::Reads, "D/R -> D/R\nD/D -> D/D", 0, OVER)
}

#[test]
fn the_map_of_a_function_waits_for_its_table(rt: HostRuntime) -> Result<(), Fail> {
    let alloc = rt.alloc();
    holds(alloc, Kind::Calls, "", 0, WAITS)?;
    holds(alloc, Kind::Calls, "B/B -> R/B\nR/R -> R/B", 0, WAITS)?;
    holds(alloc, Kind::Calls, "D/R -> D/B", 0, WAITS)?;
    holds(alloc, Kind::Calls, "R/D -> D/D", 0, OVER)?;
    holds(alloc, Kind::Calls, "D/R -> D/B\nD/D -> D/D", 0, OVER)
}

// Once it is filled in it gives what the function answered: one row, though the map has three.
#[test]
fn a_filled_map_gives_what_the_function_answered(rt: HostRuntime) -> Result<(), Fail> {
    let alloc = rt.alloc();
    holds(alloc, Kind::Filled, "", 0, TAKES)?;
    holds(alloc, Kind::Filled, "D/R -> D/R", 0, GIVES)?;
    holds(alloc, Kind::Filled, "D/R -> D/R", 1, OVER)?;
    holds(alloc, Kind::Filled, "B/D -> D/D", 0, OVER)
}

#[tactic(auto, using(crate::proofs::Fitting::reads_turn, crate::proofs::Fitting::still_turns))]
fn fails_behind(alloc: Global, script: &str, states: &str) -> Result<(), Fail> {
    let new = reads_counts(alloc, -1)?;
    let node = driven(alloc, new, script)?;
    fails(alloc, node, states, Compute::StrictCast)
}

#[tactic(auto, using(crate::proofs::Fitting::reads_turn))]
fn makes_none(alloc: Global, script: &str) -> Result<(), Fail> {
    let new = reads_counts(alloc, -1)?;
    let _node = driven(alloc, new, script)?;
    Ok(())
}

// What is no count is a fault where the map makes its table. It makes none while its input isn't done, nor where its output is.
#[test]
fn a_map_fails_where_it_makes_its_table(rt: HostRuntime) -> Result<(), Fail> {
    let alloc = rt.alloc();
    fails_behind(alloc, "", "D/B")?;
    fails_behind(alloc, "B/B -> R/B\nR/R -> R/B", "D/R")?;
    makes_none(alloc, "D/D -> D/D\nD/R -> D/D")?;
    makes_none(alloc, "R/D -> D/D\nD/R -> D/D")
}

// It refused a row of another kind, and then stored one row.
fn begun_anew(alloc: Global) -> Result<InMemoryMapNode, Fail>
    ensures { IfOk result (λ n. shown_of n ≡ over_numbers reads) }
{
    let new = reads_counts(alloc, 7)?;
    let refused = refuses_flag(alloc, new)?;
    fed(alloc, refused, 7, 1)
}

#[tactic(auto, using(crate::proofs::Fitting::reads_turn))]
fn gives_one_row(alloc: Global, states: &str, wanted: &str) -> Result<(), Fail> {
    let new = begun_anew(alloc)?;
    let node = driven(alloc, new, "R/R -> R/B\nD/R -> D/R")?;
    answers(alloc, claimed(node, 1), states, wanted)
}

// A map that refused rows keeps none of those that it had.
#[test]
fn a_map_that_refused_rows_begins_anew(rt: HostRuntime) -> Result<(), Fail> {
    let alloc = rt.alloc();
    for states in ONE_INPUT.split_whitespace() {
        gives_one_row(alloc, states, answer_in(&[OVER], states)?)?;
    }
    Ok(())
}

// The stage that an answer shows: it takes input, gives, or is done.
fn stage(answer: &Given) -> u8 {
    match (answer.recv.first(), answer.send.first()) {
        (Some(PortState::Done), Some(PortState::Ready)) => 1,
        (Some(PortState::Done), Some(PortState::Done)) => 2,
        _ => 0,
    }
}

// No stage is left for an earlier one, so that it changes twice at most.
#[tactic(auto, using(crate::proofs::Fitting::still_turns))]
fn goes_on<N: Turns>(alloc: Global, mut node: N, script: [&str; 3]) -> Result<(), Fail>
    requires { CanTurn (N.shown node) }
{
    let mut reached = 0;
    for states in script {
        let now = stage(&answer_to(alloc, &mut node, states)?);
        if now < reached {
            return Err(Fail::new(format_args!("back to stage {now} in {script:?}")));
        }
        reached = now;
    }
    Ok(())
}

// Each script of three updates.
fn always_goes_on(alloc: Global, kind: Kind) -> Result<(), Fail> {
    for first in ONE_INPUT.split_whitespace() {
        for second in ONE_INPUT.split_whitespace() {
            for third in ONE_INPUT.split_whitespace() {
                goes_on(alloc, new_map(alloc, kind)?, [first, second, third])?;
            }
        }
    }
    Ok(())
}

#[test]
fn a_map_changes_its_stage_twice_at_most(rt: HostRuntime) -> Result<(), Fail> {
    let alloc = rt.alloc();
    for kind in [Kind::Reads, Kind::Calls, Kind::Filled] {
        always_goes_on(alloc, kind)?;
    }
    Ok(())
}

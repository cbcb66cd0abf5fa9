//! Scripts: what a node is given, one update after the other, and what it must answer. They go by a trait, so that no proof looks
//! into the node.
ghost use Rattle.std.specs.Prelude.{◌≡◌, ◌+◌, ◌<◌, ◌^◌, IfOk, OnOk, length};
ghost use Rattle.map_flow_trials.specs.Shown.{CanTurn, Shown};

use ps_frame::refusal::{Compute, PolarsError, PolarsResult};
use ps_ports::port_state::PortState;
use pu_base::Node;
use std::alloc::Global;
use std::test::Fail;
use turn_scripts::letters::{Given, compare, read};

/// A node that makes a table of its one input, and gives it to its one output, by its own updates.
pub trait Turns: Drop {
    /// By which step it makes its table, the schema of its input, and how many of its morsels were claimed.
    ghost shown: { Self → Shown };

    /// Takes the states of the other ends of the node's pipes, and puts those of its own ends in their place.
    ///
    /// It fails by a fault, at no node in particular.
    fn turn(
        &mut self,
        alloc: Global,
        recv: &mut [PortState],
        send: &mut [PortState],
    ) -> PolarsResult<()>
        requires able { CanTurn (shown self.old) }
        requires input { length recv.old ≡ 1 }
        requires output { length send.old ≡ 1 }
        ensures { OnOk result (shown self.new ≡ shown self.old) };

    /// One morsel of its own is claimed.
    fn claim(&mut self)
        requires { (shown self.old).sent + 1 < 2 ^ 64 }
        ensures { shown self.new ≡ record (shown self.old) { sent = (shown self.old).sent + 1 } };
}

/// What an update of the node answers to these states.
pub fn answer_to<N: Turns>(alloc: Global, node: &mut N, states: &str) -> Result<Given, Fail>
    requires { CanTurn (N.shown node.old) }
    ensures { OnOk result (N.shown node.new ≡ N.shown node.old) }
{
    let mut given = read(alloc, states, 1, 1)?;
    let (recv, send) = (given.recv.as_mut_slice(), given.send.as_mut_slice());
    match node.turn(alloc, recv, send) {
        Ok(()) => Ok(given),
        Err(error) => Err(Fail::from(error)),
    }
}

// One update, and the answer that is wanted.
fn obeys<N: Turns>(alloc: Global, node: &mut N, states: &str, wanted: &str) -> Result<(), Fail>
    requires { CanTurn (N.shown node.old) }
    ensures { OnOk result (N.shown node.new ≡ N.shown node.old) }
{
    let answer = answer_to(alloc, node, states)?;
    compare(alloc, states, &answer, wanted)
}

/// The node behind a script, one update for each line: the states that it is given, and behind ` -> ` those that it must
/// answer, as in `R/R -> R/B`.
#[tactic(auto, using(crate::proofs::Fitting::still_turns))]
pub fn driven<N: Turns>(alloc: Global, mut node: N, script: &str) -> Result<N, Fail>
    requires { CanTurn (N.shown node) }
    ensures { IfOk result (λ n. N.shown n ≡ N.shown node) }
{
    for line in script.trim().lines() {
        let Some((states, wanted)) = line.split_once(" -> ") else {
            return Err(Fail::from("a line without an answer"));
        };
        obeys(alloc, &mut node, states, wanted)?;
    }
    Ok(node)
}

/// So many of its morsels are claimed.
pub fn claimed<N: Turns>(mut node: N, claims: u8) -> N
    requires { (N.shown node).sent ≡ 0 }
    ensures { N.shown result ≡ record (N.shown node) { sent = claims } }
{
    for _ in 0..claims {
        node.claim();
    }
    node
}

/// The node answers so to these states, and the same once more.
#[tactic(auto, using(crate::proofs::Fitting::still_turns))]
pub fn answers<N: Turns>(alloc: Global, mut node: N, states: &str, wanted: &str) -> Result<(), Fail>
    requires { CanTurn (N.shown node) }
{
    obeys(alloc, &mut node, states, wanted)?;
    obeys(alloc, &mut node, states, wanted)
}

/// An error is this fault of the computation, at no node in particular.
pub fn is_nowhere(error: PolarsError, wanted: Compute) -> Result<(), Fail> {
    match error {
        PolarsError::ComputeError { node, why } if node == Node::default() && why == wanted => {
            Ok(())
        }
        error => Err(Fail::new(format_args!("{error}, not {wanted:?}"))),
    }
}

/// An update that is given these states fails by this fault, at no node in particular.
pub fn fails<N: Turns>(
    alloc: Global,
    mut node: N,
    states: &str,
    wanted: Compute,
) -> Result<(), Fail>
    requires { CanTurn (N.shown node) }
{
    let mut given = read(alloc, states, 1, 1)?;
    let (recv, send) = (given.recv.as_mut_slice(), given.send.as_mut_slice());
    match node.turn(alloc, recv, send) {
        Ok(()) => Err(Fail::from("an answer")),
        Err(error) => is_nowhere(error, wanted),
    }
}

//! The states of a node's ports as letters: of its inputs, and behind `/` of its outputs.
ghost use Rattle.std.specs.Prelude.{◌≡◌, IfOk, length};

use ps_ports::port_state::PortState;
use std::alloc::Global;
use std::test::Fail;

/// The states of the inputs, and those of the outputs.
#[derive(Drop)]
pub struct Given {
    pub recv: Vec<PortState>,
    pub send: Vec<PortState>,
}

fn state(letter: char) -> Result<PortState, Fail> {
    match letter {
        'B' => Ok(PortState::Blocked),
        'R' => Ok(PortState::Ready),
        'D' => Ok(PortState::Done),
        _ => Err(Fail::from("no state")),
    }
}

// A letter for each port: blocked, ready or done.
fn states(alloc: Global, letters: &str) -> Result<Vec<PortState>, Fail> {
    let mut states = Vec::new(alloc);
    for letter in letters.chars() {
        states.push(state(letter)?)?;
    }
    Ok(states)
}

/// The states of so many inputs and outputs.
pub fn read(alloc: Global, text: &str, inputs: usize, outputs: usize) -> Result<Given, Fail>
    ensures inputs { IfOk result (λ g. length g.recv.items ≡ inputs) }
    ensures outputs { IfOk result (λ g. length g.send.items ≡ outputs) }
{
    let Some((recv, send)) = text.split_once("/") else {
        return Err(Fail::from("states of one side alone"));
    };
    let (recv, send) = (states(alloc, recv)?, states(alloc, send)?);
    if recv.len() != inputs || send.len() != outputs {
        return Err(Fail::from("not as many states as ports"));
    }
    Ok(Given { recv, send })
}

fn push_states(text: &mut String, states: &[PortState]) -> Result<(), Fail> {
    for state in states {
        let letter = match state {
            PortState::Blocked => "B",
            PortState::Ready => "R",
            PortState::Done => "D",
        };
        text.push_str(letter)?;
    }
    Ok(())
}

/// Of a node that was given these states, what stands at its ports now is what is wanted.
pub fn compare(alloc: Global, states: &str, now: &Given, wanted: &str) -> Result<(), Fail> {
    let mut answer = String::new(alloc);
    push_states(&mut answer, now.recv.as_slice())?;
    answer.push_str("/")?;
    push_states(&mut answer, now.send.as_slice())?;
    if answer.as_str() != wanted {
        return Err(Fail::new(format_args!("{states} gives {answer}, not {wanted}")));
    }
    Ok(())
}

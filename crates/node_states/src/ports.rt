//! The ports of one side of a node: an update is given what the other ends of their pipes say, and puts what the node
//! says in its place. What is given as done stays done.
ghost use Rattle.std.specs.Prelude.{◌≡◌, [], ◌∷◌, cond, length};
ghost use Rattle.std.specs.List.{list_any};
ghost use Rattle.ps_ports.specs.declared.port_state.PortState.TheVariants as port;
ghost use Rattle.ps_ports.specs.Ports.{all_blocked, all_done, first_port, is_blocked, is_done, kept_done, kept_state, repeated, second_port};

use ps_ports::port_state::PortState;

/// Whether the port is done.
pub fn is_done(state: PortState) -> bool
    ensures { result ≡ is_done state }
{
    matches!(state, PortState::Done)
}

/// Whether the port is blocked.
pub fn is_blocked(state: PortState) -> bool
    ensures { result ≡ is_blocked state }
{
    matches!(state, PortState::Blocked)
}

/// The new state, but what is done stays done.
pub fn kept(given: PortState, new: PortState) -> PortState
    ensures { result ≡ kept_state given new }
{
    match given {
        PortState::Done => PortState::Done,
        _ => new,
    }
}

/// Done where so much is over, else ready.
pub fn done_if(is_over: bool) -> PortState
    ensures { result ≡ cond is_over port.Done port.Ready }
{
    if is_over {
        PortState::Done
    } else {
        PortState::Ready
    }
}

/// Blocked where nothing may come, else ready.
pub fn blocked_if(is_stopped: bool) -> PortState
    ensures { result ≡ cond is_stopped port.Blocked port.Ready }
{
    if is_stopped {
        PortState::Blocked
    } else {
        PortState::Ready
    }
}

/// Whether all of them are done.
pub fn all_done(ports: &[PortState]) -> bool
    ensures { result ≡ all_done ports.now }
{
    ports.iter().all(|state| is_done(*state))
}

/// Whether all of them are blocked.
pub fn all_blocked(ports: &[PortState]) -> bool
    ensures { result ≡ all_blocked ports.now }
{
    ports.iter().all(|state| is_blocked(*state))
}

/// Whether one of them is blocked.
pub fn any_blocked(ports: &[PortState]) -> bool
    ensures { result ≡ list_any is_blocked ports.now }
{
    ports.iter().any(|state| is_blocked(*state))
}

/// The state of the first port; blocked where there is none.
pub fn first(ports: &[PortState]) -> PortState
    ensures { result ≡ first_port ports.now }
{
    match ports {
        [state, ..] => *state,
        [] => PortState::Blocked,
    }
}

/// The state of the second port; blocked where there is none.
pub fn second(ports: &[PortState]) -> PortState
    ensures { result ≡ second_port ports.now }
{
    match ports {
        [_, state, ..] => *state,
        _ => PortState::Blocked,
    }
}

/// Answers one state at each of them.
pub fn set_all(ports: &mut [PortState], state: PortState)
    ensures { ports.new ≡ kept_done ports.old (repeated state ports.old) }
{
    for port in ports.iter_mut() {
        *port = kept(*port, state);
    }
}

/// Answers a state at the only one.
pub fn set_one(ports: &mut [PortState], state: PortState)
    requires { length ports.old ≡ 1 }
    ensures { ports.new ≡ kept_done ports.old (state ∷ []) }
{
    ports[0] = kept(ports[0], state);
}

/// Answers a state at each of two.
pub fn set_two(ports: &mut [PortState], first: PortState, second: PortState)
    requires { length ports.old ≡ 2 }
    ensures { ports.new ≡ kept_done ports.old (first ∷ second ∷ []) }
{
    ports[0] = kept(ports[0], first);
    ports[1] = kept(ports[1], second);
}

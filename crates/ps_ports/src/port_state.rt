//! The states of ports.

/// What a node says of its end of a pipe: not now, now, or never again.
#[derive(Clone, Copy, Debug, PartialEq, Eq, PartialOrd, Ord)]
pub enum PortState {
    Blocked,
    Ready,
    Done,
}

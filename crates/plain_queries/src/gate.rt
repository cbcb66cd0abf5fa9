//! What is told of each piece that a worker claims.

/// Is told of each claim, before the piece is computed.
pub trait Gate: Sync {
    /// Takes the number of claims before this one.
    fn claimed(&self, number: u64);
}

/// A gate that does nothing.
pub struct NoGate;

impl Gate for NoGate {
    fn claimed(&self, _number: u64) {}
}

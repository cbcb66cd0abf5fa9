//! The keys of a graph's nodes and pipes.
use keyed_slots::Key;

/// The key of a node: how many were added before it.
#[derive(Clone, Copy, Debug, PartialEq, Eq, Hash)]
pub struct GraphNodeKey(u32);

impl Key for GraphNodeKey {
    ghost use Rattle.std.specs.Prelude.{refl};

    ghost number_of = { λ key. key.0 };

    ghost key_of = { λ n. record { 0 = n } };

    fn number(self) -> u32 {
        self.0
    }

    fn from_number(number: u32) -> GraphNodeKey {
        GraphNodeKey(number)
    }

    ghost number_of_key = { λ n. refl };

    ghost key_of_number = { λ key. refl };
}

/// The key of a pipe: how many were added before it.
#[derive(Clone, Copy, Debug, PartialEq, Eq, Hash)]
pub struct LogicalPipeKey(u32);

impl Key for LogicalPipeKey {
    ghost use Rattle.std.specs.Prelude.{refl};

    ghost number_of = { λ key. key.0 };

    ghost key_of = { λ n. record { 0 = n } };

    fn number(self) -> u32 {
        self.0
    }

    fn from_number(number: u32) -> LogicalPipeKey {
        LogicalPipeKey(number)
    }

    ghost number_of_key = { λ n. refl };

    ghost key_of_number = { λ key. refl };
}

//! The numbers of morsels.
ghost use Rattle.std.specs.Prelude.{◌≡◌, ◌+◌, ◌<◌, ◌^◌};

use std::marker::Model;

/// The number of a morsel among those of its pipe, from 0 on. Contracts see the number itself.
#[derive(Clone, Copy, Debug, PartialEq, Eq, PartialOrd, Ord)]
pub struct MorselSeq {
    number: u64,
}

impl Model for MorselSeq {
    ghost use Rattle.std.specs.Prelude.{ℕ, ◌<◌, ◌^◌};

    ghost Value = { ℕ };

    ghost view = { λ s. s.number };

    ghost invariant = { λ s. s.number < 2 ^ 64 };

    ghost inverse = { λ n. record { number = n } };
}

impl MorselSeq {
    /// This number.
    pub fn new(seq: u64) -> MorselSeq
        ensures { result ≡ seq }
    {
        MorselSeq { number: seq }
    }

    /// The next number.
    pub fn successor(self) -> MorselSeq
        requires { self + 1 < 2 ^ 64 }
        ensures { result ≡ self + 1 }
    {
        MorselSeq {
            number: self.number + 1,
        }
    }

    /// The number so far behind it.
    pub fn offset_by(self, offset: MorselSeq) -> MorselSeq
        requires { self + offset < 2 ^ 64 }
        ensures { result ≡ self + offset }
    {
        MorselSeq {
            number: self.number + offset.number,
        }
    }

    /// The number as such.
    pub fn to_u64(self) -> u64
        ensures { result ≡ self }
    {
        self.number
    }
}

//! Keys: numbers under types of their own, so that the keys of two maps are not taken for one another.
ghost use Rattle.std.specs.Prelude.{◌≡◌, ℕ, ◌-◌, ◌^◌};

/// A key of a slot map: a `u32` in a type of its own, which is written by hand for each kind of map.
pub trait Key: Copy {
    /// The number of a key.
    ghost number_of: { Self → ℕ };

    /// The key with a number.
    ghost key_of: { ℕ → Self };

    /// The key's number.
    fn number(self) -> u32
        ensures { result ≡ number_of self };

    /// The key with this number.
    fn from_number(number: u32) -> Self
        ensures { result ≡ key_of number };

    /// A key that no map gives: the one with the greatest number.
    fn null() -> Self
        ensures { result ≡ key_of (2 ^ 32 - 1) }
    {
        Self::from_number(u32::MAX)
    }

    /// A key has the number that it was made with.
    ghost number_of_key: { (n : ℕ) → number_of (key_of n) ≡ n };

    /// A key is its number and nothing else.
    ghost key_of_number: { (key : Self) → key_of (number_of key) ≡ key };
}

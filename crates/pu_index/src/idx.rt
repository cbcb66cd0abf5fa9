// Numbers of rows: their types, the number that is none, and positions counted from an end.
ghost use Rattle.std.specs.Prelude.{◌≡◌, ◌≢◌, ℕ, ◌↔◌, ◌<◌, ◌≤◌, All, Contains, IsOk, IfErr, IsTrue, pos};
ghost use Rattle.std.specs.Option.{SomeIff};
ghost use Rattle.std.specs.Int.{w32, FitsUnsigned};
ghost use Rattle.pu_base.specs.declared.error.PolarsUtilsError.TheVariants as refusal;

use pu_base::{PolarsUtilsError, Result};
use std::fmt;

/// The number of a row.
pub type IdxSize = u32;

/// The number of a row that isn't 0.
pub type NonZeroIdxSize = std::num::NonZeroU32;

/// The number of a row that threads share.
pub type AtomicIdxSize = std::sync::atomic::AtomicU32;

/// The number of a row, or none, which is the greatest number.
#[derive(Clone, Copy, PartialEq, Eq)]
pub struct NullableIdxSize {
    /// The number, or `u32::MAX`.
    pub inner: IdxSize,
}

impl NullableIdxSize {
    /// No number.
    pub const fn null() -> NullableIdxSize
        ensures { result.inner ≡ u32.MAX }
    {
        NullableIdxSize {
            inner: IdxSize::MAX,
        }
    }

    /// Whether there is no number.
    pub fn is_null_idx(&self) -> bool
        ensures { IsTrue result ↔ (self.now.inner ≡ u32.MAX) }
    {
        self.inner == IdxSize::MAX
    }

    /// The number, or `u32::MAX` where there is none.
    pub fn idx(&self) -> IdxSize
        ensures { result ≡ self.now.inner }
    {
        self.inner
    }

    /// The number, if there is one.
    pub fn to_opt(&self) -> Option<IdxSize>
        ensures { SomeIff result (self.now.inner ≢ u32.MAX) self.now.inner }
    {
        if self.is_null_idx() {
            None
        } else {
            Some(self.inner)
        }
    }
}

impl From<IdxSize> for NullableIdxSize {
    ghost from_gives = { λ n r. r.inner ≡ n };

    fn from(value: IdxSize) -> NullableIdxSize {
        NullableIdxSize { inner: value }
    }
}

impl fmt::Debug for NullableIdxSize {
    fn fmt<W: fmt::Write>(&self, f: &mut fmt::Formatter<W>) -> fmt::Result {
        let inner = self.inner;
        write!(f, "{inner:?}")
    }
}

/// Tests that each of some numbers is below a length.
///
/// Fails with the greatest of them where that one isn't.
pub fn check_bounds(idx: &[IdxSize], len: IdxSize) -> Result<()>
    ensures ok { IsOk result ↔ All (λ i. i < len) idx.now }
    ensures out { IfErr result (λ e. (greatest : ℕ) × (e ≡ refusal.OutOfBounds greatest len) × Contains idx.now greatest × All (λ i. i ≤ greatest) idx.now × (len ≤ greatest)) }
{
    match idx.iter().copied().max() {
        Some(greatest) if greatest >= len => Err(PolarsUtilsError::OutOfBounds {
            index: greatest,
            len,
        }),
        _ => Ok(()),
    }
}

/// A position in a list, which counts from the list's end where it is negative.
pub trait ToIdx: Sized {
    ghost use Rattle.std.specs.Prelude.{ℕ, ℤ};

    // The place that it names in a list of a length.
    ghost place: { Self → ℕ → ℤ };

    /// The place that it names in a list of `len` rows, which has to be a `u32`.
    fn to_idx(self, len: u64) -> IdxSize
        requires { FitsUnsigned w32 (place self len) }
        ensures { pos result ≡ place self len };
}

impl ToIdx for u8 {
    ghost place = { λ n _. pos n };

    fn to_idx(self, _len: u64) -> IdxSize {
        IdxSize::from(self)
    }
}

impl ToIdx for u16 {
    ghost place = { λ n _. pos n };

    fn to_idx(self, _len: u64) -> IdxSize {
        IdxSize::from(self)
    }
}

impl ToIdx for u32 {
    ghost place = { λ n _. pos n };

    fn to_idx(self, _len: u64) -> IdxSize {
        self
    }
}

impl ToIdx for u64 {
    ghost place = { λ n _. pos n };

    fn to_idx(self, _len: u64) -> IdxSize {
        self as IdxSize
    }
}

impl ToIdx for i8 {
    ghost use Rattle.pu_index.specs.Idx.{from_end};

    ghost place = { from_end };

    fn to_idx(self, len: u64) -> IdxSize {
        i64::from(self).to_idx(len)
    }
}

impl ToIdx for i16 {
    ghost use Rattle.pu_index.specs.Idx.{from_end};

    ghost place = { from_end };

    fn to_idx(self, len: u64) -> IdxSize {
        i64::from(self).to_idx(len)
    }
}

impl ToIdx for i32 {
    ghost use Rattle.pu_index.specs.Idx.{from_end};

    ghost place = { from_end };

    fn to_idx(self, len: u64) -> IdxSize {
        i64::from(self).to_idx(len)
    }
}

impl ToIdx for i64 {
    ghost use Rattle.pu_index.specs.Idx.{from_end};

    ghost place = { from_end };

    fn to_idx(self, len: u64) -> IdxSize {
        if self < 0 {
            (len - self.unsigned_abs()) as IdxSize
        } else {
            self as IdxSize
        }
    }
}

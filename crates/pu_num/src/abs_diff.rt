// How far two whole numbers are apart.
ghost use Rattle.std.specs.Prelude.{◌≡◌, ◌≤ℤ◌, ◌-ℤ◌, ℤ, pos, unsigned_abs};

use num_traits::{Integral, Num};

/// Whole numbers with a distance, which is of the unsigned type.
pub trait AbsDiff: Integral {
    /// The unsigned type of the same width.
    type Abs: Num + Integral + Copy;

    /// The greatest value of [`AbsDiff::Abs`].
    fn max_abs_diff() -> Self::Abs
        ensures fits { Self.Abs.fits (Self.Abs.value result) }
        ensures greatest { (z : ℤ) → Self.Abs.fits z → z ≤ℤ Self.Abs.value result };

    /// The exact distance.
    fn abs_diff(self, other: Self) -> Self::Abs
        ensures { Self.Abs.value result ≡ pos (unsigned_abs (Self.value self -ℤ Self.value other)) };
}

impl AbsDiff for u8 {
    type Abs = u8;

    fn max_abs_diff() -> u8 {
        u8::MAX
    }

    fn abs_diff(self, other: Self) -> u8 {
        u8::abs_diff(self, other)
    }
}

impl AbsDiff for u16 {
    type Abs = u16;

    fn max_abs_diff() -> u16 {
        u16::MAX
    }

    fn abs_diff(self, other: Self) -> u16 {
        u16::abs_diff(self, other)
    }
}

impl AbsDiff for u32 {
    type Abs = u32;

    fn max_abs_diff() -> u32 {
        u32::MAX
    }

    fn abs_diff(self, other: Self) -> u32 {
        u32::abs_diff(self, other)
    }
}

impl AbsDiff for u64 {
    type Abs = u64;

    fn max_abs_diff() -> u64 {
        u64::MAX
    }

    fn abs_diff(self, other: Self) -> u64 {
        u64::abs_diff(self, other)
    }
}

impl AbsDiff for u128 {
    type Abs = u128;

    fn max_abs_diff() -> u128 {
        u128::MAX
    }

    fn abs_diff(self, other: Self) -> u128 {
        u128::abs_diff(self, other)
    }
}

impl AbsDiff for usize {
    type Abs = usize;

    fn max_abs_diff() -> usize {
        usize::MAX
    }

    fn abs_diff(self, other: Self) -> usize {
        usize::abs_diff(self, other)
    }
}

impl AbsDiff for i8 {
    type Abs = u8;

    fn max_abs_diff() -> u8 {
        u8::MAX
    }

    fn abs_diff(self, other: Self) -> u8 {
        i8::abs_diff(self, other)
    }
}

impl AbsDiff for i16 {
    type Abs = u16;

    fn max_abs_diff() -> u16 {
        u16::MAX
    }

    fn abs_diff(self, other: Self) -> u16 {
        i16::abs_diff(self, other)
    }
}

impl AbsDiff for i32 {
    type Abs = u32;

    fn max_abs_diff() -> u32 {
        u32::MAX
    }

    fn abs_diff(self, other: Self) -> u32 {
        i32::abs_diff(self, other)
    }
}

impl AbsDiff for i64 {
    type Abs = u64;

    fn max_abs_diff() -> u64 {
        u64::MAX
    }

    fn abs_diff(self, other: Self) -> u64 {
        i64::abs_diff(self, other)
    }
}

impl AbsDiff for i128 {
    type Abs = u128;

    fn max_abs_diff() -> u128 {
        u128::MAX
    }

    fn abs_diff(self, other: Self) -> u128 {
        i128::abs_diff(self, other)
    }
}

impl AbsDiff for isize {
    type Abs = usize;

    fn max_abs_diff() -> usize {
        usize::MAX
    }

    fn abs_diff(self, other: Self) -> usize {
        isize::abs_diff(self, other)
    }
}

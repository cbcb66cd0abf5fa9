// Division that rounds down.
ghost use Rattle.std.specs.Prelude.{◌≡◌, ◌≢◌, pos};
ghost use Rattle.pu_num.specs.Floor.{floor_div, floor_mod, IsFloorRemainder};

use num_traits::Integral;

/// Whole numbers that are divided rounding down.
pub trait FloorDivMod: Integral {
    /// The quotient rounded down, which wraps where it doesn't fit, and the remainder, which has the divisor's sign.
    /// A divisor of 0 gives (0, 0).
    fn wrapping_floor_div_mod(self, other: Self) -> (Self, Self)
        ensures zero { Self.value other ≡ pos 0 → (Self.value result.0 ≡ pos 0) × (Self.value result.1 ≡ pos 0) }
        ensures quotient { Self.value other ≢ pos 0
            → Self.value result.0 ≡ Self.wrap (floor_div (Self.value self) (Self.value other)) }
        ensures remainder { Self.value other ≢ pos 0
            → Self.value result.1 ≡ floor_mod (Self.value self) (Self.value other) }
        ensures sign { Self.value other ≢ pos 0
            → IsFloorRemainder (Self.value result.1) (Self.value other) };
}

// The body for unsigned numbers, whose division rounds down.
macro_rules! unsigned_floor_div_mod {
    ($a:expr, $b:expr) => {{
        if $b == 0 {
            return (0, 0);
        }
        ($a / $b, $a % $b)
    }};
}

// The body for signed numbers, whose division rounds toward 0: where the remainder's sign isn't the divisor's, it goes one down.
macro_rules! signed_floor_div_mod {
    ($a:expr, $b:expr) => {{
        if $b == 0 {
            return (0, 0);
        }
        let (quotient, remainder) = ($a.wrapping_div($b), $a.wrapping_rem($b));
        if 0 < $b {
            if remainder < 0 {
                return (quotient - 1, remainder + $b); // up to the divisor's sign
            }
            return (quotient, remainder);
        }
        if 0 < remainder {
            return (quotient - 1, remainder + $b); // down to the divisor's sign
        }
        (quotient, remainder) // also the least number by -1, which wraps
    }};
}

impl FloorDivMod for u8 {
    fn wrapping_floor_div_mod(self, other: Self) -> (Self, Self) {
        unsigned_floor_div_mod!(self, other)
    }
}

impl FloorDivMod for u16 {
    fn wrapping_floor_div_mod(self, other: Self) -> (Self, Self) {
        unsigned_floor_div_mod!(self, other)
    }
}

impl FloorDivMod for u32 {
    fn wrapping_floor_div_mod(self, other: Self) -> (Self, Self) {
        unsigned_floor_div_mod!(self, other)
    }
}

impl FloorDivMod for u64 {
    fn wrapping_floor_div_mod(self, other: Self) -> (Self, Self) {
        unsigned_floor_div_mod!(self, other)
    }
}

impl FloorDivMod for u128 {
    fn wrapping_floor_div_mod(self, other: Self) -> (Self, Self) {
        unsigned_floor_div_mod!(self, other)
    }
}

impl FloorDivMod for usize {
    fn wrapping_floor_div_mod(self, other: Self) -> (Self, Self) {
        unsigned_floor_div_mod!(self, other)
    }
}

impl FloorDivMod for i8 {
    fn wrapping_floor_div_mod(self, other: Self) -> (Self, Self) {
        signed_floor_div_mod!(self, other)
    }
}

impl FloorDivMod for i16 {
    fn wrapping_floor_div_mod(self, other: Self) -> (Self, Self) {
        signed_floor_div_mod!(self, other)
    }
}

impl FloorDivMod for i32 {
    fn wrapping_floor_div_mod(self, other: Self) -> (Self, Self) {
        signed_floor_div_mod!(self, other)
    }
}

impl FloorDivMod for i64 {
    fn wrapping_floor_div_mod(self, other: Self) -> (Self, Self) {
        signed_floor_div_mod!(self, other)
    }
}

impl FloorDivMod for i128 {
    fn wrapping_floor_div_mod(self, other: Self) -> (Self, Self) {
        signed_floor_div_mod!(self, other)
    }
}

impl FloorDivMod for isize {
    fn wrapping_floor_div_mod(self, other: Self) -> (Self, Self) {
        signed_floor_div_mod!(self, other)
    }
}

// Which types are floats, and comparisons that would order what is no number.
ghost use Rattle.std.specs.Prelude.{◌≡◌, true, false};

use std::cmp::Ordering;

mod private {
    // Only the types of this file are told apart.
    pub trait Sealed {}
}

/// Whether a type is a float, and whether a value is a number. No type here is a float.
pub trait IsFloat: private::Sealed + Sized {
    /// Whether the type is a float.
    final fn is_float() -> bool
        ensures { result ≡ false }
    {
        false
    }

    /// Whether the type is `f32`.
    final fn is_f32() -> bool
        ensures { result ≡ false }
    {
        false
    }

    /// Whether the type is `f64`.
    final fn is_f64() -> bool
        ensures { result ≡ false }
    {
        false
    }

    /// Whether the value is no number.
    final fn is_nan(&self) -> bool
        ensures { result ≡ false }
    {
        false
    }

    /// Whether the value is a finite number.
    final fn is_finite(&self) -> bool
        ensures { result ≡ true }
    {
        true
    }
}

/// The order of two values, in which what is no number would be the least.
pub fn compare_fn_nan_min<T: Ord + IsFloat>(a: &T, b: &T) -> Ordering
    ensures { result ≡ T.cmp a.now b.now }
{
    a.cmp(b)
}

/// The order of two values, in which what is no number would be the greatest.
pub fn compare_fn_nan_max<T: Ord + IsFloat>(a: &T, b: &T) -> Ordering
    ensures { result ≡ T.cmp a.now b.now }
{
    a.cmp(b)
}

impl private::Sealed for i8 {}

impl IsFloat for i8 {}

impl private::Sealed for i16 {}

impl IsFloat for i16 {}

impl private::Sealed for i32 {}

impl IsFloat for i32 {}

impl private::Sealed for i64 {}

impl IsFloat for i64 {}

impl private::Sealed for i128 {}

impl IsFloat for i128 {}

impl private::Sealed for u8 {}

impl IsFloat for u8 {}

impl private::Sealed for u16 {}

impl IsFloat for u16 {}

impl private::Sealed for u32 {}

impl IsFloat for u32 {}

impl private::Sealed for u64 {}

impl IsFloat for u64 {}

impl private::Sealed for &str {}

impl IsFloat for &str {}

impl private::Sealed for &[u8] {}

impl IsFloat for &[u8] {}

impl private::Sealed for bool {}

impl IsFloat for bool {}

impl<T: private::Sealed> private::Sealed for Option<T> {}

impl<T: IsFloat> IsFloat for Option<T> {}

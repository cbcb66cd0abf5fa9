// Values that stand for others where std's equality and hash are asked for, and give them back.
ghost use Rattle.std.specs.Prelude.{◌≡◌, refl, IfOk, OnErr, Err, string_bytes};

use crate::hashing::BytesHash;
use crate::total_ord::{TotalEq, TotalHash, TotalOrdWrap};
use pu_base::{PolarsUtilsError, Result};
use std::alloc::Global;
use std::hash::Hash;

/// A value that another stands for where std's `Eq` and `Hash` are asked for; a wrapper only where one is needed.
pub trait ToTotalOrd {
    /// The type of the values that stand for others.
    type TotalOrdItem: Hash + Eq;

    /// The type of the values that are given back.
    type SourceItem;

    // What `to_total_ord` and `peel_total_ord` answer, and the value that is given back in the end.
    ghost to_total_ord: { Self → Self.TotalOrdItem };

    ghost peel_total_ord: { Self.TotalOrdItem → Self.SourceItem };

    ghost source: { Self → Self.SourceItem };

    /// The value that stands for this one.
    fn to_total_ord(&self) -> Self::TotalOrdItem
        ensures { result ≡ to_total_ord self.now };

    /// The value for which `ord_item` stands.
    fn peel_total_ord(ord_item: Self::TotalOrdItem) -> Self::SourceItem
        ensures { result ≡ peel_total_ord ord_item };

    ghost peel_undoes: { (x : Self) → peel_total_ord (to_total_ord x) ≡ source x };
}

impl ToTotalOrd for u8 {
    type TotalOrdItem = Self;

    type SourceItem = Self;

    ghost to_total_ord = { λ x. x };

    ghost peel_total_ord = { λ x. x };

    ghost source = { λ x. x };

    ghost peel_undoes = { λ x. refl };

    fn to_total_ord(&self) -> Self {
        *self
    }

    fn peel_total_ord(ord_item: Self) -> Self {
        ord_item
    }
}

impl ToTotalOrd for u16 {
    type TotalOrdItem = Self;

    type SourceItem = Self;

    ghost to_total_ord = { λ x. x };

    ghost peel_total_ord = { λ x. x };

    ghost source = { λ x. x };

    ghost peel_undoes = { λ x. refl };

    fn to_total_ord(&self) -> Self {
        *self
    }

    fn peel_total_ord(ord_item: Self) -> Self {
        ord_item
    }
}

impl ToTotalOrd for u32 {
    type TotalOrdItem = Self;

    type SourceItem = Self;

    ghost to_total_ord = { λ x. x };

    ghost peel_total_ord = { λ x. x };

    ghost source = { λ x. x };

    ghost peel_undoes = { λ x. refl };

    fn to_total_ord(&self) -> Self {
        *self
    }

    fn peel_total_ord(ord_item: Self) -> Self {
        ord_item
    }
}

impl ToTotalOrd for u64 {
    type TotalOrdItem = Self;

    type SourceItem = Self;

    ghost to_total_ord = { λ x. x };

    ghost peel_total_ord = { λ x. x };

    ghost source = { λ x. x };

    ghost peel_undoes = { λ x. refl };

    fn to_total_ord(&self) -> Self {
        *self
    }

    fn peel_total_ord(ord_item: Self) -> Self {
        ord_item
    }
}

impl ToTotalOrd for u128 {
    type TotalOrdItem = Self;

    type SourceItem = Self;

    ghost to_total_ord = { λ x. x };

    ghost peel_total_ord = { λ x. x };

    ghost source = { λ x. x };

    ghost peel_undoes = { λ x. refl };

    fn to_total_ord(&self) -> Self {
        *self
    }

    fn peel_total_ord(ord_item: Self) -> Self {
        ord_item
    }
}

impl ToTotalOrd for usize {
    type TotalOrdItem = Self;

    type SourceItem = Self;

    ghost to_total_ord = { λ x. x };

    ghost peel_total_ord = { λ x. x };

    ghost source = { λ x. x };

    ghost peel_undoes = { λ x. refl };

    fn to_total_ord(&self) -> Self {
        *self
    }

    fn peel_total_ord(ord_item: Self) -> Self {
        ord_item
    }
}

impl ToTotalOrd for i8 {
    type TotalOrdItem = Self;

    type SourceItem = Self;

    ghost to_total_ord = { λ x. x };

    ghost peel_total_ord = { λ x. x };

    ghost source = { λ x. x };

    ghost peel_undoes = { λ x. refl };

    fn to_total_ord(&self) -> Self {
        *self
    }

    fn peel_total_ord(ord_item: Self) -> Self {
        ord_item
    }
}

impl ToTotalOrd for i16 {
    type TotalOrdItem = Self;

    type SourceItem = Self;

    ghost to_total_ord = { λ x. x };

    ghost peel_total_ord = { λ x. x };

    ghost source = { λ x. x };

    ghost peel_undoes = { λ x. refl };

    fn to_total_ord(&self) -> Self {
        *self
    }

    fn peel_total_ord(ord_item: Self) -> Self {
        ord_item
    }
}

impl ToTotalOrd for i32 {
    type TotalOrdItem = Self;

    type SourceItem = Self;

    ghost to_total_ord = { λ x. x };

    ghost peel_total_ord = { λ x. x };

    ghost source = { λ x. x };

    ghost peel_undoes = { λ x. refl };

    fn to_total_ord(&self) -> Self {
        *self
    }

    fn peel_total_ord(ord_item: Self) -> Self {
        ord_item
    }
}

impl ToTotalOrd for i64 {
    type TotalOrdItem = Self;

    type SourceItem = Self;

    ghost to_total_ord = { λ x. x };

    ghost peel_total_ord = { λ x. x };

    ghost source = { λ x. x };

    ghost peel_undoes = { λ x. refl };

    fn to_total_ord(&self) -> Self {
        *self
    }

    fn peel_total_ord(ord_item: Self) -> Self {
        ord_item
    }
}

impl ToTotalOrd for i128 {
    type TotalOrdItem = Self;

    type SourceItem = Self;

    ghost to_total_ord = { λ x. x };

    ghost peel_total_ord = { λ x. x };

    ghost source = { λ x. x };

    ghost peel_undoes = { λ x. refl };

    fn to_total_ord(&self) -> Self {
        *self
    }

    fn peel_total_ord(ord_item: Self) -> Self {
        ord_item
    }
}

impl ToTotalOrd for isize {
    type TotalOrdItem = Self;

    type SourceItem = Self;

    ghost to_total_ord = { λ x. x };

    ghost peel_total_ord = { λ x. x };

    ghost source = { λ x. x };

    ghost peel_undoes = { λ x. refl };

    fn to_total_ord(&self) -> Self {
        *self
    }

    fn peel_total_ord(ord_item: Self) -> Self {
        ord_item
    }
}

impl ToTotalOrd for bool {
    type TotalOrdItem = Self;

    type SourceItem = Self;

    ghost to_total_ord = { λ x. x };

    ghost peel_total_ord = { λ x. x };

    ghost source = { λ x. x };

    ghost peel_undoes = { λ x. refl };

    fn to_total_ord(&self) -> Self {
        *self
    }

    fn peel_total_ord(ord_item: Self) -> Self {
        ord_item
    }
}

impl ToTotalOrd for char {
    type TotalOrdItem = Self;

    type SourceItem = Self;

    ghost to_total_ord = { λ x. x };

    ghost peel_total_ord = { λ x. x };

    ghost source = { λ x. x };

    ghost peel_undoes = { λ x. refl };

    fn to_total_ord(&self) -> Self {
        *self
    }

    fn peel_total_ord(ord_item: Self) -> Self {
        ord_item
    }
}

impl ToTotalOrd for &str {
    type TotalOrdItem = Self;

    type SourceItem = Self;

    ghost to_total_ord = { λ x. x };

    ghost peel_total_ord = { λ x. x };

    ghost source = { λ x. x };

    ghost peel_undoes = { λ x. refl };

    fn to_total_ord(&self) -> Self {
        *self
    }

    fn peel_total_ord(ord_item: Self) -> Self {
        ord_item
    }
}

impl ToTotalOrd for &[u8] {
    type TotalOrdItem = Self;

    type SourceItem = Self;

    ghost to_total_ord = { λ x. x };

    ghost peel_total_ord = { λ x. x };

    ghost source = { λ x. x };

    ghost peel_undoes = { λ x. refl };

    fn to_total_ord(&self) -> Self {
        *self
    }

    fn peel_total_ord(ord_item: Self) -> Self {
        ord_item
    }
}

impl ToTotalOrd for BytesHash<'_> {
    type TotalOrdItem = Self;

    type SourceItem = Self;

    ghost to_total_ord = { λ x. x };

    ghost peel_total_ord = { λ x. x };

    ghost source = { λ x. x };

    ghost peel_undoes = { λ x. refl };

    fn to_total_ord(&self) -> Self {
        *self
    }

    fn peel_total_ord(ord_item: Self) -> Self {
        ord_item
    }
}

impl<T: Copy + TotalEq + TotalHash> ToTotalOrd for Option<T> {
    type TotalOrdItem = TotalOrdWrap<Option<T>>;

    type SourceItem = Option<T>;

    ghost to_total_ord = { λ x. record { 0 = x } };

    ghost peel_total_ord = { λ w. w.0 };

    ghost source = { λ x. x };

    ghost peel_undoes = { λ x. refl };

    fn to_total_ord(&self) -> TotalOrdWrap<Option<T>> {
        TotalOrdWrap(*self)
    }

    fn peel_total_ord(ord_item: TotalOrdWrap<Option<T>>) -> Option<T> {
        ord_item.0
    }
}

impl<T: ToTotalOrd> ToTotalOrd for &T {
    type TotalOrdItem = T::TotalOrdItem;

    type SourceItem = T::SourceItem;

    ghost to_total_ord = { λ r. T.to_total_ord r.now };

    ghost peel_total_ord = { T.peel_total_ord };

    ghost source = { λ r. T.source r.now };

    ghost peel_undoes = { λ r. T.peel_undoes r.now };

    fn to_total_ord(&self) -> T::TotalOrdItem {
        T::to_total_ord(*self)
    }

    fn peel_total_ord(ord_item: T::TotalOrdItem) -> T::SourceItem {
        T::peel_total_ord(ord_item)
    }
}

/// An equal text, which stands for `s`.
///
/// Fails only for want of memory.
pub fn string_to_total_ord(alloc: Global, s: &String) -> Result<String>
    ensures same { IfOk result (λ t. string_bytes t ≡ string_bytes s.now) }
    ensures memory { OnErr result (result ≡ Err PolarsUtilsError.OutOfMemory) }
{
    Ok(String::from_str(alloc, s.as_str())?)
}

// Hash words, dirty hashes, and bytes that carry their hash.
ghost use Rattle.std.specs.Prelude.{◌≡◌, ℕ, option_copied};
ghost use Rattle.std.specs.Option.{option_map_or};
ghost use Rattle.std.specs.Hash as fed;
ghost use Rattle.std.specs.Cmp.Rules.{hashing};
ghost use Rattle.std.proofs.Common.{rules};
ghost use Rattle.pu_order.specs.Hashing.{combined, folded_product, scrambled, scrambled_signed, scrambled_wide};

use crate::total_ord::{TotalEq, TotalHash, TotalOrdWrap};
use std::hash::{Hash, Hasher};

// Multiplication by an arbitrary odd number spreads hashes well in the top bits.
const RANDOM_ODD: u64 = 0x55fbfd6bfc5458e9;

/// Combines two hashes as boost's `hash_combine` does; the sums wrap.
pub fn _boost_hash_combine(l: u64, r: u64) -> u64
    ensures { result ≡ combined l r }
{
    l ^ r.wrapping_add(0x9e3779b9u64.wrapping_add(l << 6).wrapping_add(r >> 2))
}

/// The low half of the 128-bit product, xor its high half.
pub fn folded_multiply(a: u64, b: u64) -> u64
    ensures { result ≡ folded_product a b }
{
    let full = a as u128 * b as u128;
    (full & 0xffff_ffff_ffff_ffff) as u64 ^ (full >> 64) as u64
}

/// Bytes with a hash of theirs, or a null with one: tables hash the hash, and not the bytes.
#[derive(Clone, Copy, PartialEq, Eq)]
pub struct BytesHash<'a> {
    hash: u64,
    payload: Option<&'a [u8]>,
}

impl<'a> BytesHash<'a> {
    ghost use Rattle.pu_order.specs.BytesHash.{payload_of, hash_of};

    /// The bytes `s`, or null, with the hash `hash`.
    pub fn new(s: Option<&'a [u8]>, hash: u64) -> Self
        ensures payload { payload_of result ≡ option_copied s.entry }
        ensures hash { hash_of result ≡ hash }
    {
        BytesHash { hash, payload: s }
    }

    /// The bytes, or none for a null.
    pub(crate) fn payload(&self) -> Option<&'a [u8]>
        ensures { option_copied result ≡ payload_of self.now }
    {
        self.payload
    }
}

impl Hash for BytesHash<'_> {
    ghost use Rattle.pu_order.specs.BytesHash.{hash_of};

    ghost hash_input = { λ b. fed.u64 (hash_of b) };

    ghost respects_eq = { Prim.search (hashing, rules) };

    fn hash<H: Hasher>(&self, state: &mut H) {
        state.write_u64(self.hash);
    }
}

impl TotalEq for BytesHash<'_> {
    ghost tot_eq = { ⟦<BytesHash<'static> as PartialEq>⟧.eq };

    ghost use Rattle.pu_order.specs.contracts.hashing.BytesHashEq.TheImpl.Laws.{laws-law};

    ghost equivalence = { laws-law };

    fn tot_eq(&self, other: &Self) -> bool {
        self == other
    }
}

impl TotalHash for BytesHash<'_> {
    ghost tot_hash_input = { ⟦<BytesHash<'static> as Hash>⟧.hash_input };

    ghost respects_tot_eq = { Prim.search (hashing, rules) };

    fn tot_hash<H: Hasher>(&self, state: &mut H) {
        self.hash(state);
    }
}

/// A quick hash, of which only the top bits are good, as a partition takes them.
pub trait DirtyHash {
    // What `dirty_hash` answers.
    ghost dirty_hash: { Self → ℕ };

    /// The hash of this value, of 64 bits.
    fn dirty_hash(&self) -> u64
        ensures { result ≡ dirty_hash self.now };
}

impl DirtyHash for u8 {
    ghost dirty_hash = { scrambled };

    fn dirty_hash(&self) -> u64 {
        (*self as u64).wrapping_mul(RANDOM_ODD)
    }
}

impl DirtyHash for u16 {
    ghost dirty_hash = { scrambled };

    fn dirty_hash(&self) -> u64 {
        (*self as u64).wrapping_mul(RANDOM_ODD)
    }
}

impl DirtyHash for u32 {
    ghost dirty_hash = { scrambled };

    fn dirty_hash(&self) -> u64 {
        (*self as u64).wrapping_mul(RANDOM_ODD)
    }
}

impl DirtyHash for u64 {
    ghost dirty_hash = { scrambled };

    fn dirty_hash(&self) -> u64 {
        (*self as u64).wrapping_mul(RANDOM_ODD)
    }
}

impl DirtyHash for i8 {
    ghost dirty_hash = { scrambled_signed };

    fn dirty_hash(&self) -> u64 {
        (*self as i64).cast_unsigned().wrapping_mul(RANDOM_ODD)
    }
}

impl DirtyHash for i16 {
    ghost dirty_hash = { scrambled_signed };

    fn dirty_hash(&self) -> u64 {
        (*self as i64).cast_unsigned().wrapping_mul(RANDOM_ODD)
    }
}

impl DirtyHash for i32 {
    ghost dirty_hash = { scrambled_signed };

    fn dirty_hash(&self) -> u64 {
        (*self as i64).cast_unsigned().wrapping_mul(RANDOM_ODD)
    }
}

impl DirtyHash for i64 {
    ghost dirty_hash = { scrambled_signed };

    fn dirty_hash(&self) -> u64 {
        (*self as i64).cast_unsigned().wrapping_mul(RANDOM_ODD)
    }
}

impl DirtyHash for i128 {
    ghost dirty_hash = { scrambled_wide };

    fn dirty_hash(&self) -> u64 {
        let bits = self.cast_unsigned();
        let (low, high) = ((bits & 0xffff_ffff_ffff_ffff) as u64, (bits >> 64) as u64);
        low.wrapping_mul(RANDOM_ODD).wrapping_add(high)
    }
}

impl DirtyHash for BytesHash<'_> {
    ghost use Rattle.pu_order.specs.BytesHash.{hash_of};

    ghost dirty_hash = { hash_of };

    fn dirty_hash(&self) -> u64 {
        self.hash
    }
}

impl<T: DirtyHash> DirtyHash for &T {
    ghost dirty_hash = { λ r. T.dirty_hash r.now };

    fn dirty_hash(&self) -> u64 {
        T::dirty_hash(*self)
    }
}

// A null has 0.
impl<T: DirtyHash> DirtyHash for Option<T> {
    ghost dirty_hash = { λ o. option_map_or T.dirty_hash o 0 };

    fn dirty_hash(&self) -> u64 {
        match self {
            Some(value) => value.dirty_hash(),
            None => 0,
        }
    }
}

impl<T: DirtyHash> DirtyHash for TotalOrdWrap<T> {
    ghost dirty_hash = { λ w. T.dirty_hash w.0 };

    fn dirty_hash(&self) -> u64 {
        self.0.dirty_hash()
    }
}

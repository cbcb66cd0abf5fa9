// Total equality, order and hashes of the whole numbers, `bool` and `char`: those of std.
ghost use Rattle.std.proofs.Common.{rules};

use crate::total_ord::{TotalEq, TotalHash, TotalOrd};
use std::cmp::Ordering;
use std::hash::{Hash, Hasher};

impl TotalEq for u8 {
    ghost tot_eq = { ⟦<u8 as PartialEq>⟧.eq };

    ghost equivalence = { Prim.search rules };

    fn tot_eq(&self, other: &Self) -> bool {
        self == other
    }
}

impl TotalOrd for u8 {
    ghost tot_cmp = { ⟦<u8 as Ord>⟧.cmp };

    ghost total = { Prim.search rules };

    ghost matches_tot_eq = { Prim.search rules };

    fn tot_cmp(&self, other: &Self) -> Ordering {
        Ord::cmp(self, other)
    }
}

impl TotalHash for u8 {
    ghost tot_hash_input = { ⟦<u8 as Hash>⟧.hash_input };

    ghost respects_tot_eq = { Prim.search rules };

    fn tot_hash<H: Hasher>(&self, state: &mut H) {
        Hash::hash(self, state);
    }
}

impl TotalEq for u16 {
    ghost tot_eq = { ⟦<u16 as PartialEq>⟧.eq };

    ghost equivalence = { Prim.search rules };

    fn tot_eq(&self, other: &Self) -> bool {
        self == other
    }
}

impl TotalOrd for u16 {
    ghost tot_cmp = { ⟦<u16 as Ord>⟧.cmp };

    ghost total = { Prim.search rules };

    ghost matches_tot_eq = { Prim.search rules };

    fn tot_cmp(&self, other: &Self) -> Ordering {
        Ord::cmp(self, other)
    }
}

impl TotalHash for u16 {
    ghost tot_hash_input = { ⟦<u16 as Hash>⟧.hash_input };

    ghost respects_tot_eq = { Prim.search rules };

    fn tot_hash<H: Hasher>(&self, state: &mut H) {
        Hash::hash(self, state);
    }
}

impl TotalEq for u32 {
    ghost tot_eq = { ⟦<u32 as PartialEq>⟧.eq };

    ghost equivalence = { Prim.search rules };

    fn tot_eq(&self, other: &Self) -> bool {
        self == other
    }
}

impl TotalOrd for u32 {
    ghost tot_cmp = { ⟦<u32 as Ord>⟧.cmp };

    ghost total = { Prim.search rules };

    ghost matches_tot_eq = { Prim.search rules };

    fn tot_cmp(&self, other: &Self) -> Ordering {
        Ord::cmp(self, other)
    }
}

impl TotalHash for u32 {
    ghost tot_hash_input = { ⟦<u32 as Hash>⟧.hash_input };

    ghost respects_tot_eq = { Prim.search rules };

    fn tot_hash<H: Hasher>(&self, state: &mut H) {
        Hash::hash(self, state);
    }
}

impl TotalEq for u64 {
    ghost tot_eq = { ⟦<u64 as PartialEq>⟧.eq };

    ghost equivalence = { Prim.search rules };

    fn tot_eq(&self, other: &Self) -> bool {
        self == other
    }
}

impl TotalOrd for u64 {
    ghost tot_cmp = { ⟦<u64 as Ord>⟧.cmp };

    ghost total = { Prim.search rules };

    ghost matches_tot_eq = { Prim.search rules };

    fn tot_cmp(&self, other: &Self) -> Ordering {
        Ord::cmp(self, other)
    }
}

impl TotalHash for u64 {
    ghost tot_hash_input = { ⟦<u64 as Hash>⟧.hash_input };

    ghost respects_tot_eq = { Prim.search rules };

    fn tot_hash<H: Hasher>(&self, state: &mut H) {
        Hash::hash(self, state);
    }
}

impl TotalEq for u128 {
    ghost tot_eq = { ⟦<u128 as PartialEq>⟧.eq };

    ghost equivalence = { Prim.search rules };

    fn tot_eq(&self, other: &Self) -> bool {
        self == other
    }
}

impl TotalOrd for u128 {
    ghost tot_cmp = { ⟦<u128 as Ord>⟧.cmp };

    ghost total = { Prim.search rules };

    ghost matches_tot_eq = { Prim.search rules };

    fn tot_cmp(&self, other: &Self) -> Ordering {
        Ord::cmp(self, other)
    }
}

impl TotalHash for u128 {
    ghost tot_hash_input = { ⟦<u128 as Hash>⟧.hash_input };

    ghost respects_tot_eq = { Prim.search rules };

    fn tot_hash<H: Hasher>(&self, state: &mut H) {
        Hash::hash(self, state);
    }
}

impl TotalEq for usize {
    ghost tot_eq = { ⟦<usize as PartialEq>⟧.eq };

    ghost equivalence = { Prim.search rules };

    fn tot_eq(&self, other: &Self) -> bool {
        self == other
    }
}

impl TotalOrd for usize {
    ghost tot_cmp = { ⟦<usize as Ord>⟧.cmp };

    ghost total = { Prim.search rules };

    ghost matches_tot_eq = { Prim.search rules };

    fn tot_cmp(&self, other: &Self) -> Ordering {
        Ord::cmp(self, other)
    }
}

impl TotalHash for usize {
    ghost tot_hash_input = { ⟦<usize as Hash>⟧.hash_input };

    ghost respects_tot_eq = { Prim.search rules };

    fn tot_hash<H: Hasher>(&self, state: &mut H) {
        Hash::hash(self, state);
    }
}

impl TotalEq for i8 {
    ghost tot_eq = { ⟦<i8 as PartialEq>⟧.eq };

    ghost equivalence = { Prim.search rules };

    fn tot_eq(&self, other: &Self) -> bool {
        self == other
    }
}

impl TotalOrd for i8 {
    ghost tot_cmp = { ⟦<i8 as Ord>⟧.cmp };

    ghost total = { Prim.search rules };

    ghost matches_tot_eq = { Prim.search rules };

    fn tot_cmp(&self, other: &Self) -> Ordering {
        Ord::cmp(self, other)
    }
}

impl TotalHash for i8 {
    ghost tot_hash_input = { ⟦<i8 as Hash>⟧.hash_input };

    ghost respects_tot_eq = { Prim.search rules };

    fn tot_hash<H: Hasher>(&self, state: &mut H) {
        Hash::hash(self, state);
    }
}

impl TotalEq for i16 {
    ghost tot_eq = { ⟦<i16 as PartialEq>⟧.eq };

    ghost equivalence = { Prim.search rules };

    fn tot_eq(&self, other: &Self) -> bool {
        self == other
    }
}

impl TotalOrd for i16 {
    ghost tot_cmp = { ⟦<i16 as Ord>⟧.cmp };

    ghost total = { Prim.search rules };

    ghost matches_tot_eq = { Prim.search rules };

    fn tot_cmp(&self, other: &Self) -> Ordering {
        Ord::cmp(self, other)
    }
}

impl TotalHash for i16 {
    ghost tot_hash_input = { ⟦<i16 as Hash>⟧.hash_input };

    ghost respects_tot_eq = { Prim.search rules };

    fn tot_hash<H: Hasher>(&self, state: &mut H) {
        Hash::hash(self, state);
    }
}

impl TotalEq for i32 {
    ghost tot_eq = { ⟦<i32 as PartialEq>⟧.eq };

    ghost equivalence = { Prim.search rules };

    fn tot_eq(&self, other: &Self) -> bool {
        self == other
    }
}

impl TotalOrd for i32 {
    ghost tot_cmp = { ⟦<i32 as Ord>⟧.cmp };

    ghost total = { Prim.search rules };

    ghost matches_tot_eq = { Prim.search rules };

    fn tot_cmp(&self, other: &Self) -> Ordering {
        Ord::cmp(self, other)
    }
}

impl TotalHash for i32 {
    ghost tot_hash_input = { ⟦<i32 as Hash>⟧.hash_input };

    ghost respects_tot_eq = { Prim.search rules };

    fn tot_hash<H: Hasher>(&self, state: &mut H) {
        Hash::hash(self, state);
    }
}

impl TotalEq for i64 {
    ghost tot_eq = { ⟦<i64 as PartialEq>⟧.eq };

    ghost equivalence = { Prim.search rules };

    fn tot_eq(&self, other: &Self) -> bool {
        self == other
    }
}

impl TotalOrd for i64 {
    ghost tot_cmp = { ⟦<i64 as Ord>⟧.cmp };

    ghost total = { Prim.search rules };

    ghost matches_tot_eq = { Prim.search rules };

    fn tot_cmp(&self, other: &Self) -> Ordering {
        Ord::cmp(self, other)
    }
}

impl TotalHash for i64 {
    ghost tot_hash_input = { ⟦<i64 as Hash>⟧.hash_input };

    ghost respects_tot_eq = { Prim.search rules };

    fn tot_hash<H: Hasher>(&self, state: &mut H) {
        Hash::hash(self, state);
    }
}

impl TotalEq for i128 {
    ghost tot_eq = { ⟦<i128 as PartialEq>⟧.eq };

    ghost equivalence = { Prim.search rules };

    fn tot_eq(&self, other: &Self) -> bool {
        self == other
    }
}

impl TotalOrd for i128 {
    ghost tot_cmp = { ⟦<i128 as Ord>⟧.cmp };

    ghost total = { Prim.search rules };

    ghost matches_tot_eq = { Prim.search rules };

    fn tot_cmp(&self, other: &Self) -> Ordering {
        Ord::cmp(self, other)
    }
}

impl TotalHash for i128 {
    ghost tot_hash_input = { ⟦<i128 as Hash>⟧.hash_input };

    ghost respects_tot_eq = { Prim.search rules };

    fn tot_hash<H: Hasher>(&self, state: &mut H) {
        Hash::hash(self, state);
    }
}

impl TotalEq for isize {
    ghost tot_eq = { ⟦<isize as PartialEq>⟧.eq };

    ghost equivalence = { Prim.search rules };

    fn tot_eq(&self, other: &Self) -> bool {
        self == other
    }
}

impl TotalOrd for isize {
    ghost tot_cmp = { ⟦<isize as Ord>⟧.cmp };

    ghost total = { Prim.search rules };

    ghost matches_tot_eq = { Prim.search rules };

    fn tot_cmp(&self, other: &Self) -> Ordering {
        Ord::cmp(self, other)
    }
}

impl TotalHash for isize {
    ghost tot_hash_input = { ⟦<isize as Hash>⟧.hash_input };

    ghost respects_tot_eq = { Prim.search rules };

    fn tot_hash<H: Hasher>(&self, state: &mut H) {
        Hash::hash(self, state);
    }
}

impl TotalEq for bool {
    ghost tot_eq = { ⟦<bool as PartialEq>⟧.eq };

    ghost equivalence = { Prim.search rules };

    fn tot_eq(&self, other: &Self) -> bool {
        self == other
    }
}

impl TotalOrd for bool {
    ghost tot_cmp = { ⟦<bool as Ord>⟧.cmp };

    ghost total = { Prim.search rules };

    ghost matches_tot_eq = { Prim.search rules };

    fn tot_cmp(&self, other: &Self) -> Ordering {
        Ord::cmp(self, other)
    }
}

impl TotalHash for bool {
    ghost tot_hash_input = { ⟦<bool as Hash>⟧.hash_input };

    ghost respects_tot_eq = { Prim.search rules };

    fn tot_hash<H: Hasher>(&self, state: &mut H) {
        Hash::hash(self, state);
    }
}

impl TotalEq for char {
    ghost tot_eq = { ⟦<char as PartialEq>⟧.eq };

    ghost equivalence = { Prim.search rules };

    fn tot_eq(&self, other: &Self) -> bool {
        self == other
    }
}

impl TotalOrd for char {
    ghost tot_cmp = { ⟦<char as Ord>⟧.cmp };

    ghost total = { Prim.search rules };

    ghost matches_tot_eq = { Prim.search rules };

    fn tot_cmp(&self, other: &Self) -> Ordering {
        Ord::cmp(self, other)
    }
}

impl TotalHash for char {
    ghost tot_hash_input = { ⟦<char as Hash>⟧.hash_input };

    ghost respects_tot_eq = { Prim.search rules };

    fn tot_hash<H: Hasher>(&self, state: &mut H) {
        Hash::hash(self, state);
    }
}

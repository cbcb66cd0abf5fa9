// Total equality, order and hashes of texts and bytes: those of std, byte by byte.
ghost use Rattle.std.specs.Prelude.{string_bytes};
ghost use Rattle.std.specs.Cmp.{on_equiv, on_total};
ghost use Rattle.std.specs.Cmp.Lexicographic.{nat_list_eq_equiv, nat_list_cmp_total, texts_ties};
ghost use Rattle.std.specs.Cmp.Rules.{hashing};
ghost use Rattle.std.proofs.Common.{rules};

use crate::total_ord::{TotalEq, TotalHash, TotalOrd};
use std::cmp::Ordering;
use std::hash::{Hash, Hasher};

impl TotalEq for &str {
    ghost tot_eq = { ⟦<&'static str as PartialEq>⟧.eq };

    ghost equivalence = { on_equiv (λ s. s.now) nat_list_eq_equiv };

    fn tot_eq(&self, other: &Self) -> bool {
        self == other
    }
}

impl TotalOrd for &str {
    ghost tot_cmp = { ⟦<&'static str as Ord>⟧.cmp };

    ghost total = { on_total (λ s. s.now) nat_list_cmp_total };

    ghost matches_tot_eq = { λ x y. texts_ties x.now y.now };

    fn tot_cmp(&self, other: &Self) -> Ordering {
        Ord::cmp(self, other)
    }
}

impl TotalHash for &str {
    ghost tot_hash_input = { ⟦<&'static str as Hash>⟧.hash_input };

    ghost respects_tot_eq = { Prim.search (hashing, rules) };

    fn tot_hash<H: Hasher>(&self, state: &mut H) {
        Hash::hash(self, state);
    }
}

impl TotalEq for &[u8] {
    ghost tot_eq = { ⟦<&'static [u8] as PartialEq>⟧.eq };

    ghost equivalence = { on_equiv (λ s. s.now) nat_list_eq_equiv };

    fn tot_eq(&self, other: &Self) -> bool {
        self == other
    }
}

impl TotalOrd for &[u8] {
    ghost tot_cmp = { ⟦<&'static [u8] as Ord>⟧.cmp };

    ghost total = { on_total (λ s. s.now) nat_list_cmp_total };

    ghost matches_tot_eq = { λ x y. texts_ties x.now y.now };

    fn tot_cmp(&self, other: &Self) -> Ordering {
        Ord::cmp(self, other)
    }
}

impl TotalHash for &[u8] {
    ghost tot_hash_input = { ⟦<&'static [u8] as Hash>⟧.hash_input };

    ghost respects_tot_eq = { Prim.search (hashing, rules) };

    fn tot_hash<H: Hasher>(&self, state: &mut H) {
        Hash::hash(self, state);
    }
}

impl TotalEq for String {
    ghost tot_eq = { ⟦<String as PartialEq>⟧.eq };

    ghost equivalence = { on_equiv (λ s. string_bytes s) nat_list_eq_equiv };

    fn tot_eq(&self, other: &Self) -> bool {
        self == other
    }
}

impl TotalOrd for String {
    ghost tot_cmp = { ⟦<String as Ord>⟧.cmp };

    ghost total = { on_total (λ s. string_bytes s) nat_list_cmp_total };

    ghost matches_tot_eq = { λ x y. texts_ties (string_bytes x) (string_bytes y) };

    fn tot_cmp(&self, other: &Self) -> Ordering {
        Ord::cmp(self, other)
    }
}

impl TotalHash for String {
    ghost tot_hash_input = { ⟦<String as Hash>⟧.hash_input };

    ghost respects_tot_eq = { Prim.search (hashing, rules) };

    fn tot_hash<H: Hasher>(&self, state: &mut H) {
        Hash::hash(self, state);
    }
}

// Equality, order and hashes that are total, and the values that stand for others in std's maps.
//
// The laws are part of the traits: `tot_cmp` is a total order, `tot_eq` tells apart what it tells apart,
// and equal values write the same to a hasher.
ghost use Rattle.std.specs.Prelude.{◌≡◌, ℕ, List, Bool, not, ◌&&◌, IsTrue, fold};
ghost use Rattle.std.specs.List.{flat_map};
ghost use Rattle.std.specs.Option.{option_eq, option_cmp};
ghost use Rattle.std.specs.declared.cmp.Ordering.{Ordering};
ghost use Rattle.std.specs.Ordering.{is_eq, is_lt, is_gt, is_le, is_ge, ordering_then};
ghost use Rattle.std.specs.Cmp.{IsEquivalence, IsTotalOrder};
ghost use Rattle.std.specs.Cmp as laws_of;
ghost use Rattle.std.specs.Cmp.Rules.{comparing};
ghost use Rattle.std.proofs.Common.{rules};
ghost use Rattle.pu_order.specs.TotalHash.{option_writes};

use std::cmp::Ordering;
use std::hash::{Hash, Hasher};

pub mod items;
pub(crate) mod numbers;
pub(crate) mod texts;

pub use items::{ToTotalOrd, string_to_total_ord};

/// Equality that is an equivalence.
pub trait TotalEq {
    // What `tot_eq` answers.
    ghost tot_eq: { Self → Self → Bool };

    /// Whether the two are equal.
    fn tot_eq(&self, other: &Self) -> bool
        ensures { result ≡ tot_eq self.now other.now };

    /// Whether the two differ.
    final fn tot_ne(&self, other: &Self) -> bool
        ensures { result ≡ not (tot_eq self.now other.now) }
    {
        !self.tot_eq(other)
    }

    ghost equivalence: { IsEquivalence tot_eq };
}

/// A total order, whose ties are the equal values.
pub trait TotalOrd: TotalEq {
    // What `tot_cmp` answers.
    ghost tot_cmp: { Self → Self → Ordering };

    /// How the two compare: `Equal` exactly where they are equal.
    fn tot_cmp(&self, other: &Self) -> Ordering
        ensures { result ≡ tot_cmp self.now other.now };

    /// Whether this value is below the other.
    final fn tot_lt(&self, other: &Self) -> bool
        ensures { result ≡ is_lt (tot_cmp self.now other.now) }
    {
        self.tot_cmp(other).is_lt()
    }

    /// Whether this value is above the other.
    final fn tot_gt(&self, other: &Self) -> bool
        ensures { result ≡ is_gt (tot_cmp self.now other.now) }
    {
        self.tot_cmp(other).is_gt()
    }

    /// Whether this value is below the other or equal to it.
    final fn tot_le(&self, other: &Self) -> bool
        ensures { result ≡ is_le (tot_cmp self.now other.now) }
    {
        self.tot_cmp(other).is_le()
    }

    /// Whether this value is above the other or equal to it.
    final fn tot_ge(&self, other: &Self) -> bool
        ensures { result ≡ is_ge (tot_cmp self.now other.now) }
    {
        self.tot_cmp(other).is_ge()
    }

    ghost total: { IsTotalOrder tot_cmp };

    ghost matches_tot_eq: { (x y : Self) → Self.tot_eq x y ≡ is_eq (tot_cmp x y) };
}

/// A hash that agrees with [`TotalEq`].
pub trait TotalHash: TotalEq {
    // The writes that `tot_hash` makes, in their order.
    ghost tot_hash_input: { Self → List (List ℕ) };

    /// Feeds this value to a hasher. Equal values feed it the same bytes.
    fn tot_hash<H: Hasher>(&self, state: &mut H)
        ensures { state.new ≡ fold H.write state.old (tot_hash_input self.now) };

    /// Hashes each item in turn, without the length.
    final fn tot_hash_slice<H: Hasher>(data: &[Self], state: &mut H)
    where
        Self: Sized,
        ensures { state.new ≡ fold H.write state.old (flat_map tot_hash_input «data».now) }
    {
        for i in 0..data.len() {
            data[i].tot_hash(state);
        }
    }

    // Equal values make the same writes.
    ghost respects_tot_eq: { (x y : Self) → IsTrue (Self.tot_eq x y) → tot_hash_input x ≡ tot_hash_input y };
}

/// A value with the order, equality and hash of its total traits, for code that asks for std's.
#[derive(Clone, Copy, Drop)]
pub struct TotalOrdWrap<T>(pub T);

impl<T: TotalEq> PartialEq for TotalOrdWrap<T> {
    ghost eq = { λ x y. T.tot_eq x.0 y.0 };

    ghost laws = { laws_of.on_per (λ w. w.0) (laws_of.partial_equiv_from_equiv T.equivalence) };

    fn eq(&self, other: &Self) -> bool {
        self.0.tot_eq(&other.0)
    }
}

impl<T: TotalEq> Eq for TotalOrdWrap<T> {
    ghost laws = { laws_of.on_equiv (λ w. w.0) T.equivalence };
}

impl<T: TotalOrd> PartialOrd for TotalOrdWrap<T> {
    ghost use Rattle.std.specs.Prelude.{Some};

    ghost partial_cmp = { λ x y. Some (T.tot_cmp x.0 y.0) };

    ghost laws = { laws_of.po (laws_of.on_total (λ w. w.0) T.total) (λ x y. T.matches_tot_eq x.0 y.0) };

    fn partial_cmp(&self, other: &Self) -> Option<Ordering> {
        Some(self.0.tot_cmp(&other.0))
    }
}

impl<T: TotalOrd> Ord for TotalOrdWrap<T> {
    ghost use Rattle.std.specs.Prelude.{refl};

    ghost cmp = { λ x y. T.tot_cmp x.0 y.0 };

    ghost total = { laws_of.on_total (λ w. w.0) T.total };

    ghost matches_partial_cmp = { λ x y. refl };

    ghost matches_eq = { λ x y. T.matches_tot_eq x.0 y.0 };

    fn cmp(&self, other: &Self) -> Ordering {
        self.0.tot_cmp(&other.0)
    }
}

impl<T: TotalHash> Hash for TotalOrdWrap<T> {
    ghost hash_input = { λ w. T.tot_hash_input w.0 };

    ghost respects_eq = { λ x y. T.respects_tot_eq x.0 y.0 };

    fn hash<H: Hasher>(&self, state: &mut H) {
        self.0.tot_hash(state);
    }
}

impl<T: TotalEq> TotalEq for Option<T> {
    ghost tot_eq = { option_eq T.tot_eq };

    ghost equivalence = { Prim.search (T.equivalence, rules) };

    fn tot_eq(&self, other: &Self) -> bool {
        match (self, other) {
            (None, None) => true,
            (Some(a), Some(b)) => a.tot_eq(b),
            _ => false,
        }
    }
}

// `None` is below each `Some`.
impl<T: TotalOrd> TotalOrd for Option<T> {
    ghost tot_cmp = { option_cmp T.tot_cmp };

    ghost total = { Prim.search (T.total, rules) };

    ghost matches_tot_eq = { Prim.search (T.matches_tot_eq, rules) };

    fn tot_cmp(&self, other: &Self) -> Ordering {
        match (self, other) {
            (None, None) => Ordering::Equal,
            (None, Some(_)) => Ordering::Less,
            (Some(_), None) => Ordering::Greater,
            (Some(a), Some(b)) => a.tot_cmp(b),
        }
    }
}

impl<T: TotalEq, U: TotalEq> TotalEq for (T, U) {
    ghost tot_eq = { λ x y. T.tot_eq x.0 y.0 && U.tot_eq x.1 y.1 };

    ghost equivalence = { laws_of.and_equiv (laws_of.on_equiv (λ p. p.0) T.equivalence) (laws_of.on_equiv (λ p. p.1) U.equivalence) };

    fn tot_eq(&self, other: &Self) -> bool {
        self.0.tot_eq(&other.0) && self.1.tot_eq(&other.1)
    }
}

impl<T: TotalHash> TotalHash for Option<T> {
    ghost tot_hash_input = { option_writes T.tot_hash_input };

    ghost respects_tot_eq = { Prim.search (T.respects_tot_eq, rules) };

    fn tot_hash<H: Hasher>(&self, state: &mut H) {
        self.is_some().tot_hash(state);
        if let Some(value) = self {
            value.tot_hash(state);
        }
    }
}

// By the first, and then the second.
impl<T: TotalOrd, U: TotalOrd> TotalOrd for (T, U) {
    ghost tot_cmp = { λ x y. ordering_then (T.tot_cmp x.0 y.0) (U.tot_cmp x.1 y.1) };

    ghost total = { laws_of.then_total (laws_of.on_total (λ p. p.0) T.total) (laws_of.on_total (λ p. p.1) U.total) };

    ghost matches_tot_eq = { Prim.search (T.matches_tot_eq, U.matches_tot_eq, comparing, rules) };

    fn tot_cmp(&self, other: &Self) -> Ordering {
        self.0
            .tot_cmp(&other.0)
            .then_with(|| self.1.tot_cmp(&other.1))
    }
}

impl<T: TotalEq> TotalEq for &T {
    ghost tot_eq = { λ x y. T.tot_eq x.now y.now };

    ghost equivalence = { laws_of.on_equiv (λ r. r.now) T.equivalence };

    fn tot_eq(&self, other: &Self) -> bool {
        TotalEq::tot_eq(*self, *other)
    }
}

impl<T: TotalHash> TotalHash for &T {
    ghost tot_hash_input = { λ r. T.tot_hash_input r.now };

    ghost respects_tot_eq = { λ x y. T.respects_tot_eq x.now y.now };

    fn tot_hash<H: Hasher>(&self, state: &mut H) {
        TotalHash::tot_hash(*self, state);
    }
}

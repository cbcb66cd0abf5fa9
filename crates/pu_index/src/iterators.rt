// Iterators that are collected or numbered.
ghost use Rattle.std.specs.Prelude.{◌≡◌, ◌+◌, ◌+ℤ◌, ◌<◌, ◌≤◌, ◌∷◌, [], List, length, Ok, Err, map, Some, IfOk, OnErr, MatchResult, false};
ghost use Rattle.std.specs.Bool.{OnTrue, OnFalse};
ghost use Rattle.std.specs.Iterator.{Drains, YieldsThen, IsFinite, IsFiniteIterable, size};
ghost use Rattle.pu_index.specs.Compared.{AllAlike, ComparesByEq, ComparesByPartialCmp};
ghost use Rattle.pu_index.specs.Counted.{source, number};
ghost use Rattle.pu_base.specs.declared.error.PolarsUtilsError.TheVariants as refusal;

use crate::idx::IdxSize;
use num_traits::{FromPrimitive, Integral, One, Zero};
use pu_base::Result;
use std::alloc::Global;
use std::cmp::Ordering;
use std::iter::{DoubleEndedIterator, ExactSizeIterator, FromIterator};
use std::result::Result as Outcome;

/// An iterator that numbers the items of another, from 0 on.
#[derive(Drop)]
pub struct EnumerateIdx<I, N> {
    iter: I,
    count: N,
}

impl<I, N: Zero> EnumerateIdx<I, N> {
    /// Numbers the items of an iterator. How many there are has to fit the type of the numbers.
    pub fn new(iter: I) -> EnumerateIdx<I, N>
        ensures source { source result ≡ iter }
        ensures number { number result ≡ N.zero }
    {
        EnumerateIdx {
            iter,
            count: N::zero(),
        }
    }
}

impl<I: Iterator, N: Copy + Zero + One + Integral> Iterator for EnumerateIdx<I, N> {
    type Item = (N, I::Item);

    ghost use Rattle.std.specs.Iterator.{IsFinite, size};
    ghost use Rattle.pu_index.specs.Counted.{source, number, HasNumbers, counted_steps};

    ghost can_next = { λ s. I.can_next (source s) × IsFinite (I.remaining (source s)) × HasNumbers N.value N.fits (number s) (size (I.remaining (source s))) };

    ghost next_gives = { counted_steps N.value I.next_gives };

    ghost remaining = { λ s. I.remaining (source s) };

    fn next(&mut self) -> Option<(N, I::Item)> {
        let item = self.iter.next()?;
        let number = self.count;
        self.count = further(number, N::one());
        Some((number, item))
    }

    fn size_hint(&self) -> (usize, Option<usize>) {
        self.iter.size_hint()
    }
}

impl<
    I: ExactSizeIterator + DoubleEndedIterator,
    N: Copy + Zero + One + Integral + FromPrimitive,
> DoubleEndedIterator for EnumerateIdx<I, N> {
    ghost use Rattle.std.specs.Iterator.{IsFinite, size};
    ghost use Rattle.pu_index.specs.Counted.{source, number, HasNumbers, counted_steps_back};

    ghost can_next_back = { λ s. I.can_next_back (source s) × IsFinite (I.remaining (source s)) × HasNumbers N.value N.fits (number s) (size (I.remaining (source s))) };

    ghost next_back_gives = { counted_steps_back N.value I.next_back_gives (λ i. size (I.remaining i)) };

    fn next_back(&mut self) -> Option<(N, I::Item)> {
        let item = self.iter.next_back()?;
        let before = N::from_usize(self.iter.len()).unwrap();
        Some((further(self.count, before), item))
    }
}

impl<I: ExactSizeIterator, N: Copy + Zero + One + Integral> ExactSizeIterator
    for EnumerateIdx<I, N> {
    fn len(&self) -> usize {
        self.iter.len()
    }
}

// A number plus another, where the type has the sum.
fn further<N: Zero + Integral>(number: N, by: N) -> N
    requires { N.fits (N.value number +ℤ N.value by) }
    ensures { N.value result ≡ N.value number +ℤ N.value by }
{
    number + by
}

/// Numbers the items of an iterator as rows.
pub fn enumerate_idx<I: Iterator>(iter: I) -> EnumerateIdx<I, IdxSize>
    ensures source { source result ≡ iter }
    ensures number { number result ≡ 0 }
{
    EnumerateIdx::new(iter)
}

/// Numbers the items of an iterator in 32 bits.
pub fn enumerate_u32<I: Iterator>(iter: I) -> EnumerateIdx<I, u32>
    ensures source { source result ≡ iter }
    ensures number { number result ≡ 0 }
{
    EnumerateIdx::new(iter)
}

/// The items of an iterator.
///
/// Fails only for want of memory.
pub fn collect_vec<I: Iterator>(alloc: Global, iter: I) -> Result<Vec<I::Item>>
where
    I::Item: Drop,
    requires can { I.can_next iter }
    requires ends { IsFinite (I.remaining iter) }
    ensures all { IfOk result (λ v. Drains I.next_gives iter v.items) }
    ensures within { IfOk result (λ v. length v.items ≤ size (I.remaining iter)) }
    ensures memory { OnErr result (result ≡ Err refusal.OutOfMemory) }
{
    let mut items = Vec::new(alloc);
    for item in iter {
        items.push(item)?;
    }
    Ok(items)
}

/// The values that an iterator gives, or the first error that it gives instead of one.
///
/// Fails only for want of memory.
pub fn try_collect_vec<T: Drop, E: Drop, I: Iterator<Item = Outcome<T, E>>>(
    alloc: Global,
    iter: I,
) -> Result<Outcome<Vec<T>, E>>
    requires can { I.can_next iter }
    requires ends { IsFinite (I.remaining iter) }
    ensures all { IfOk result (λ outcome. MatchResult outcome (λ v. Drains I.next_gives iter (map Ok v.items)) (λ e. (before : List T) × (last : I) × YieldsThen I.next_gives iter (map Ok before) (Some (Err e)) last)) }
    ensures memory { OnErr result (result ≡ Err refusal.OutOfMemory) }
{
    let mut values = Vec::new(alloc);
    for outcome in iter {
        match outcome {
            Ok(value) => values.push(value)?,
            Err(error) => return Ok(Err(error)),
        }
    }
    Ok(Ok(values))
}

/// The values that an iterator gives, collected, or the first error that it gives instead of one.
///
/// Fails only for want of memory.
pub fn try_collect<
    T: Drop,
    E: Drop,
    U: FromIterator<T, Alloc = Global>,
    I: Iterator<Item = Outcome<T, E>>,
>(alloc: Global, iter: I) -> Result<Outcome<U, E>>
    requires can { I.can_next iter }
    requires ends { IsFinite (I.remaining iter) }
    requires collects { (values : List T) → U.can_from_iter values }
    ensures all { IfOk result (λ outcome. MatchResult outcome (λ collected. (values : List T) × Drains I.next_gives iter (map Ok values) × (U.is_complete collected → U.from_iter_gives values collected)) (λ e. (before : List T) × (last : I) × YieldsThen I.next_gives iter (map Ok before) (Some (Err e)) last)) }
    ensures memory { OnErr result (result ≡ Err refusal.OutOfMemory) }
{
    match try_collect_vec(alloc, iter)? {
        Ok(values) => Ok(Ok(values.into_iter().collect(alloc)?)),
        Err(error) => Ok(Err(error)),
    }
}

/// Whether all items of an iterator are equal.
pub fn all_equal<I: Iterator>(mut iter: I) -> bool
where
    I::Item: PartialEq + Drop,
    requires can { I.can_next iter }
    requires ends { IsFinite (I.remaining iter) }
    ensures all { OnTrue result ((items : List I.Item) × Drains I.next_gives iter items × AllAlike I.Item.eq items) }
    ensures unlike { OnFalse result ((first item : I.Item) × (between : List I.Item) × (last : I) × YieldsThen I.next_gives iter (first ∷ between) (Some item) last × AllAlike I.Item.eq (first ∷ between) × (I.Item.eq first item ≡ false)) }
{
    let Some(first) = iter.next() else {
        return true;
    };
    for item in iter {
        if first != item {
            return false;
        }
    }
    true
}

/// Whether two iterators give as many items, at each pair of which `eq` answers true. Stops at the
/// first pair at which it doesn't.
pub fn eq_by_<I: Iterator, J: IntoIterator, F: FnMut(I::Item, J::Item) -> bool>(
    iter: I,
    other: J,
    mut eq: F,
) -> bool
where
    I::Item: Drop,
    J::Item: Drop,
    requires can { I.can_next iter }
    requires ends { IsFinite (I.remaining iter) }
    requires other { IsFiniteIterable J.into_iter_gives J.IntoIter.can_next J.IntoIter.remaining other }
    requires callable { F.IsAlwaysCallable eq }
    ensures { ComparesByEq I.next_gives J.into_iter_gives J.IntoIter.next_gives F.step iter other eq result }
{
    let mut others = other.into_iter();
    for item in iter {
        let Some(other) = others.next() else {
            return false;
        };
        if !eq(item, other) {
            return false;
        }
    }
    others.next().is_none()
}

/// Compares two iterators by the first pair of items at which `partial_cmp` doesn't answer that they
/// are equal. Where there is none, the one that ends first is the lesser.
pub fn partial_cmp_by_<
    I: Iterator,
    J: IntoIterator,
    F: FnMut(I::Item, J::Item) -> Option<Ordering>,
>(iter: I, other: J, mut partial_cmp: F) -> Option<Ordering>
where
    I::Item: Drop,
    J::Item: Drop,
    requires can { I.can_next iter }
    requires ends { IsFinite (I.remaining iter) }
    requires other { IsFiniteIterable J.into_iter_gives J.IntoIter.can_next J.IntoIter.remaining other }
    requires callable { F.IsAlwaysCallable partial_cmp }
    ensures { ComparesByPartialCmp I.next_gives J.into_iter_gives J.IntoIter.next_gives F.step iter other partial_cmp result }
{
    let mut others = other.into_iter();
    for item in iter {
        let Some(other) = others.next() else {
            return Some(Ordering::Greater);
        };
        match partial_cmp(item, other) {
            Some(Ordering::Equal) => {}
            order => return order,
        }
    }
    match others.next() {
        Some(_) => Some(Ordering::Less),
        None => Some(Ordering::Equal),
    }
}

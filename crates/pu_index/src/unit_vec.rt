// Vectors that hold one item without memory.
ghost use Rattle.std.specs.Prelude.{◌≡◌, ◌↔◌, ◌⊎◌, ◌+◌, ◌-◌, ◌<◌, ◌≤◌, ◌^◌, ◌++◌, ◌∷◌, [], List, max, length, take, IfOk, IsOk, IsTrue, OnOk, OnErr, Err, MatchOption, replicate, vec_capacity};
ghost use Rattle.std.specs.Mem.{FitsInMemory};
ghost use Rattle.std.specs.Slice.Iter.{iter_rest, iter_mut_rest};
ghost use Rattle.std.specs.Iterator.{Drains, HoldsAlong, IsFinite, size};
ghost use Rattle.std.specs.Borrow.{sem};
ghost use Rattle.pu_index.specs.UnitVec.{short, grown};
ghost use Rattle.pu_base.specs.declared.error.PolarsUtilsError.TheVariants as refusal;

#[doc(hidden)]
pub mod in_memory;

use crate::idx::IdxSize;
use crate::iterators::collect_vec;
use in_memory::InMemory;
use pu_base::Result;
use std::alloc::Global;
use std::convert::AsSlice;
use std::marker::Model;
use std::{array, fmt, slice};

/// Numbers of rows.
pub type IdxVec = UnitVec<IdxSize>;

/// A vector whose first item takes no memory. What makes room, copies it, or makes one of several
/// items asks that these are fewer than 2^31.
///
/// What makes one asks that an item takes fewer than 2^63 bytes, which a concrete type shows by
/// itself. The vector keeps that, so that nothing else asks it.
#[derive(Drop)]
pub struct UnitVec<T> {
    inline: Option<T>,
    heap: Vec<T>,
    in_memory: InMemory<T>,
}

impl<T> Model for UnitVec<T> {
    ghost use Rattle.std.specs.Prelude.{◌++◌, max, vec_capacity};
    ghost use Rattle.std.specs.Option.{option_to_list};
    ghost use Rattle.pu_index.specs.UnitVec.{Short, short, IsUnit};

    ghost Value = { Short T };

    ghost view = { λ v. short (option_to_list v.inline ++ v.heap.items) (max 1 (vec_capacity v.heap)) };

    ghost invariant = { λ v. IsUnit v.inline v.heap };
}

impl<T: Copy> UnitVec<T> {
    ghost use Rattle.pu_index.specs.UnitLends.{lends_items, lends_iter};

    /// A vector without items that has room for one, which takes no memory.
    pub fn new(alloc: Global) -> UnitVec<T>
        requires { FitsInMemory T.row }
        ensures { result ≡ short [] 1 }
    {
        UnitVec {
            inline: None,
            heap: empty(alloc),
            in_memory: InMemory::new(),
        }
    }

    /// A vector without items that has room for `capacity` of them, or for one.
    ///
    /// Fails only for want of memory.
    pub fn with_capacity(alloc: Global, capacity: usize) -> Result<UnitVec<T>>
        requires { FitsInMemory T.row }
        ensures empty { IfOk result (λ v. v ≡ short [] (max 1 capacity)) }
        ensures inline { capacity ≤ 1 → IsOk result }
        ensures memory { OnErr result (result ≡ Err refusal.OutOfMemory) }
    {
        if capacity <= 1 {
            return Ok(UnitVec::new(alloc));
        }
        let heap = Vec::with_capacity(alloc, capacity)?;
        Ok(UnitVec {
            inline: None,
            heap,
            in_memory: InMemory::new(),
        })
    }

    /// How many items there are.
    pub fn len(&self) -> usize
        ensures value { result ≡ length self.now.items }
        ensures within { result ≤ self.now.capacity }
    {
        match &self.inline {
            Some(_) => 1,
            None => self.heap.len(),
        }
    }

    /// Whether there is no item.
    pub fn is_empty(&self) -> bool
        ensures { IsTrue result ↔ (self.now.items ≡ []) }
    {
        self.len() == 0
    }

    /// How many items fit without memory.
    pub fn capacity(&self) -> usize
        ensures value { result ≡ self.now.capacity }
        ensures one { 1 ≤ result }
    {
        self.heap.capacity().max(1)
    }

    /// The items.
    pub fn as_slice(&self) -> &[T]
        ensures { result.now ≡ self.now.items }
    {
        self.in_memory.shows();
        match &self.inline {
            Some(item) => array::from_ref(item).as_slice(),
            None => self.heap.as_slice(),
        }
    }

    /// The items, to write to.
    pub fn as_mut_slice(&mut self) -> &mut [T]
        ensures* writes_back { sem 𝓛 (lends_items T.row self.entry result) }
        ensures value { result.now ≡ self.old.items }
    {
        self.in_memory.shows();
        if self.inline.is_some() {
            self.inline.as_mut_slice()
        } else {
            self.heap.as_mut_slice()
        }
    }

    /// Goes over the items.
    pub fn iter(&self) -> slice::Iter<'_, T>
        ensures { iter_rest result ≡ self.now.items }
    {
        self.as_slice().iter()
    }

    /// Goes over the items, each of which may be written to.
    pub fn iter_mut(&mut self) -> slice::IterMut<'_, T>
        ensures* writes_back { sem 𝓛 (lends_iter T.row self.entry result) }
        ensures rest { iter_mut_rest result ≡ self.old.items }
    {
        self.as_mut_slice().iter_mut()
    }

    /// Takes every item off, and keeps the room.
    pub fn clear(&mut self)
        ensures { self.new ≡ short [] self.old.capacity }
    {
        self.inline = None;
        self.heap.clear();
    }

    /// Takes the last item off.
    pub fn pop(&mut self) -> Option<T>
        ensures items { MatchOption result ((self.old.items ≡ []) × (self.new.items ≡ [])) (λ item. self.old.items ≡ self.new.items ++ item ∷ []) }
        ensures capacity { self.new.capacity ≡ self.old.capacity }
    {
        match self.inline {
            Some(item) => {
                self.inline = None;
                Some(item)
            }
            None => self.heap.pop(),
        }
    }

    /// Appends an item to a vector that has room for it, so that no memory is taken.
    pub fn push_unchecked(&mut self, item: T)
        requires { length self.old.items < self.old.capacity }
        ensures { self.new ≡ short (self.old.items ++ item ∷ []) self.old.capacity }
    {
        if self.heap.capacity() <= 1 {
            self.inline = Some(item);
        } else {
            self.heap.push_reserved(item);
        }
    }

    /// Makes room for more items: for twice as many as fit, for as many as are asked for, or for
    /// eight, whichever is most.
    ///
    /// Fails only for want of memory; the vector is then as before.
    pub fn reserve(&mut self, additional: usize) -> Result<()>
        requires { length self.old.items + additional < 2 ^ 31 }
        ensures grown { OnOk result (self.new ≡ short self.old.items (grown self.old.capacity (length self.old.items + additional))) }
        ensures room { length self.old.items + additional ≤ self.old.capacity → IsOk result }
        ensures unchanged { OnErr result (self.new ≡ self.old) }
        ensures memory { OnErr result (result ≡ Err refusal.OutOfMemory) }
    {
        let needed = self.len() + additional;
        let capacity = self.capacity();
        if needed <= capacity {
            return Ok(());
        }
        let room = capacity.saturating_mul(2).max(needed).max(8);
        self.heap.reserve_exact(room - self.heap.len())?;
        if let Some(item) = self.inline {
            self.inline = None;
            self.heap.push_reserved(item);
        }
        Ok(())
    }

    /// Appends an item. Where there is room, no memory is taken.
    ///
    /// Fails only for want of memory; the vector is then as before.
    pub fn push(&mut self, item: T) -> Result<()>
        requires { length self.old.items + 1 < 2 ^ 31 }
        ensures pushed { OnOk result (self.new ≡ short (self.old.items ++ item ∷ []) (grown self.old.capacity (length self.old.items + 1))) }
        ensures room { length self.old.items < self.old.capacity → IsOk result }
        ensures unchanged { OnErr result (self.new ≡ self.old) }
        ensures memory { OnErr result (result ≡ Err refusal.OutOfMemory) }
    {
        self.reserve(1)?;
        self.push_unchecked(item);
        Ok(())
    }

    /// Appends some items.
    ///
    /// Fails only for want of memory; the vector is then as before.
    pub fn extend_from_slice(&mut self, items: &[T]) -> Result<()>
        requires { length self.old.items + length items.now < 2 ^ 31 }
        ensures appended { OnOk result (self.new ≡ short (self.old.items ++ items.now) (grown self.old.capacity (length self.old.items + length items.now))) }
        ensures room { length self.old.items + length items.now ≤ self.old.capacity → IsOk result }
        ensures unchanged { OnErr result (self.new ≡ self.old) }
        ensures memory { OnErr result (result ≡ Err refusal.OutOfMemory) }
    {
        self.reserve(items.len())?;
        for item in items {
            self.push_unchecked(*item);
        }
        Ok(())
    }

    /// Appends the items of an iterator.
    ///
    /// Fails only for want of memory; the vector is then as before.
    pub fn extend<I: Iterator<Item = T>>(&mut self, iter: I) -> Result<()>
        requires can { I.can_next iter }
        requires ends { IsFinite (I.remaining iter) }
        requires fits { (length self.old.items + size (I.remaining iter) < 2 ^ 31) ⊎ HoldsAlong I.next_gives iter (λ items. length self.old.items + length items < 2 ^ 31) }
        ensures appended { OnOk result ((items : List T) × Drains I.next_gives iter items × (self.new ≡ short (self.old.items ++ items) (grown self.old.capacity (length self.old.items + length items)))) }
        ensures unchanged { OnErr result (self.new ≡ self.old) }
        ensures memory { OnErr result (result ≡ Err refusal.OutOfMemory) }
    {
        let alloc = *self.heap.allocator();
        let items = collect_vec(alloc, iter)?;
        self.extend_from_slice(&items)
    }

    /// A vector of one item, which takes no memory.
    pub fn of_one(alloc: Global, item: T) -> UnitVec<T>
        requires { FitsInMemory T.row }
        ensures { result ≡ short (item ∷ []) 1 }
    {
        UnitVec {
            inline: Some(item),
            heap: empty(alloc),
            in_memory: InMemory::new(),
        }
    }

    /// A vector of some times an item.
    ///
    /// Fails only for want of memory.
    pub fn from_elem(alloc: Global, item: T, n: usize) -> Result<UnitVec<T>>
        requires fits { FitsInMemory T.row }
        requires short { n < 2 ^ 31 }
        ensures same { IfOk result (λ v. v ≡ short (replicate n item) (max 1 n)) }
        ensures inline { n ≤ 1 → IsOk result }
        ensures memory { OnErr result (result ≡ Err refusal.OutOfMemory) }
    {
        let mut v = UnitVec::with_capacity(alloc, n)?;
        for _added in 0..n {
            v.push_unchecked(item);
        }
        Ok(v)
    }

    /// The items of a vector, whose memory is kept where it has room for more than one.
    pub fn from_vec(alloc: Global, mut v: Vec<T>) -> UnitVec<T>
        requires fits { FitsInMemory T.row }
        requires short { length v.items < 2 ^ 31 }
        ensures { result ≡ short v.items (max 1 (vec_capacity v)) }
    {
        if v.capacity() <= 1 {
            let inline = v.pop();
            return UnitVec {
                inline,
                heap: empty(alloc),
                in_memory: InMemory::new(),
            };
        }
        UnitVec {
            inline: None,
            heap: v,
            in_memory: InMemory::new(),
        }
    }

    /// Copies of some items.
    ///
    /// Fails only for want of memory.
    pub fn from_slice(alloc: Global, items: &[T]) -> Result<UnitVec<T>>
        requires fits { FitsInMemory T.row }
        requires short { length items.now < 2 ^ 31 }
        ensures same { IfOk result (λ v. v ≡ short items.now (max 1 (length items.now))) }
        ensures inline { length items.now ≤ 1 → IsOk result }
        ensures memory { OnErr result (result ≡ Err refusal.OutOfMemory) }
    {
        let mut v = UnitVec::with_capacity(alloc, items.len())?;
        v.extend_from_slice(items)?;
        Ok(v)
    }

    /// An equal vector, which takes no memory for one item.
    ///
    /// Fails only for want of memory.
    pub fn try_clone(&self, alloc: Global) -> Result<UnitVec<T>>
        requires { length self.now.items < 2 ^ 31 }
        ensures same { IfOk result (λ v. v ≡ short self.now.items (max 1 (length self.now.items))) }
        ensures inline { length self.now.items ≤ 1 → IsOk result }
        ensures memory { OnErr result (result ≡ Err refusal.OutOfMemory) }
    {
        self.in_memory.shows();
        UnitVec::from_slice(alloc, self.as_slice())
    }
}

/// A vector without items or room.
fn empty<T>(alloc: Global) -> Vec<T>
    ensures items { result.items ≡ [] }
    ensures room { vec_capacity result ≤ 1 }
{
    Vec::new(alloc)
}

impl<T: Copy> AsSlice<T> for UnitVec<T> {
    ghost items = { λ v. v.items };

    fn as_slice(&self) -> &[T] {
        UnitVec::as_slice(self)
    }
}

impl<T: Copy + PartialEq> PartialEq for UnitVec<T> {
    ghost use Rattle.std.specs.Cmp.{on_per};
    ghost use Rattle.std.specs.Cmp.Lexicographic.{pointwise, lists_per};

    ghost eq = { λ v w. pointwise T.eq v.items w.items };

    ghost laws = { on_per (λ v. v.items) (lists_per T.laws) };

    fn eq(&self, other: &Self) -> bool {
        self.as_slice() == other.as_slice()
    }
}

impl<T: Copy + Eq> Eq for UnitVec<T> {
    ghost use Rattle.std.specs.Cmp.{on_equiv};
    ghost use Rattle.std.specs.Cmp.Lexicographic.{lists_equiv};

    ghost laws = { on_equiv (λ v. v.items) (lists_equiv T.Eq.laws) };
}

impl<T: Copy + fmt::Debug> fmt::Debug for UnitVec<T> {
    fn fmt<W: fmt::Write>(&self, f: &mut fmt::Formatter<W>) -> fmt::Result {
        let items = self.as_slice();
        write!(f, "UnitVec: {items:?}")
    }
}

/// A vector of the items that are listed: `unitvec!(alloc)` without items and `unitvec!(alloc; item)`
/// take no memory; `unitvec!(alloc; item; n)` of some times an item and `unitvec!(alloc; a, b, ..)`
/// may fail for want of it.
#[macro_export]
macro_rules! unitvec {
    ($alloc:expr) => {
        $crate::unit_vec::UnitVec::new($alloc)
    };
    ($alloc:expr; $item:expr) => {
        $crate::unit_vec::UnitVec::of_one($alloc, $item)
    };
    ($alloc:expr; $item:expr; $n:expr) => {
        $crate::unit_vec::UnitVec::from_elem($alloc, $item, $n)
    };
    ($alloc:expr; $($item:expr),+ $(,)?) => {
        $crate::unit_vec::UnitVec::from_slice($alloc, &[$($item),+])
    };
}

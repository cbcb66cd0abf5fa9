// Rings: queues of a capacity that is chosen once.
ghost use Rattle.std.specs.Prelude.{◌≡◌, ◌↔◌, ◌+◌, ◌-◌, ◌^◌, ◌<◌, ◌≤◌, ◌++◌, ◌∷◌, [], length, min, replicate, IfOk, IsSome, IsTrue, OnErr, OnSome, IfNone, Err, MatchOption};
ghost use Rattle.pu_index.specs.FixedRing.{ring, room};
ghost use Rattle.pu_index.specs.Places.{Wraps};
ghost use Rattle.pu_base.specs.declared.error.PolarsUtilsError.TheVariants as refusal;

#[doc(hidden)]
pub mod places;

use places::{Deed, Places, allocate, deallocate};
use pu_base::{PolarsUtilsError, Result};
use std::alloc::Global;
use std::marker::Model;
use std_alloc::room::may_hold;

/// A queue that holds at most as many items as its capacity, in one block that is allocated once.
///
/// The items lie from the place `start` on, and go on at place 0 when they reach the end of the block.
pub struct FixedRingBuffer<T> {
    places: Places<T>,
    capacity: usize,
    start: usize,
    len: usize,
    deed: Deed<T, Global>,
    alloc: Global,
}

impl<T> Model for FixedRingBuffer<T> {
    ghost use Rattle.pu_index.specs.FixedRing.{FixedRing};

    ghost Value = { FixedRing T };

    ghost use Rattle.pu_index.specs.FixedRing.{ring};
    ghost use Rattle.pu_index.specs.RingLaid.{ring_items, IsRing};

    ghost view = { λ r. ring (ring_items r) r.capacity };

    ghost invariant = { λ r. IsRing r };
}

/// The place that lies `i` on from `start`, round the end of a block of `capacity` places.
fn wrapped(start: usize, i: usize, capacity: usize) -> usize
    requires { (start < capacity) × (i ≤ capacity) × (capacity < 2 ^ 63) }
    ensures { Wraps start i capacity result }
{
    let place = start + i;
    if place < capacity {
        place
    } else {
        place - capacity
    }
}

impl<T> FixedRingBuffer<T> {
    /// A ring without items that holds at most `capacity` of them.
    ///
    /// Fails only for want of memory, as for 2^63 places or bytes. Nothing else of a ring takes memory.
    pub fn new(alloc: Global, capacity: usize) -> Result<FixedRingBuffer<T>>
        ensures empty { IfOk result (λ r. r ≡ ring [] capacity) }
        ensures memory { OnErr result (result ≡ Err refusal.OutOfMemory) }
    {
        if !may_hold::<T>(capacity) {
            return Err(PolarsUtilsError::OutOfMemory);
        }
        let (places, deed) = allocate(&alloc, capacity)?;
        Ok(FixedRingBuffer {
            places,
            capacity,
            start: 0,
            len: 0,
            deed,
            alloc,
        })
    }

    /// How many items there are.
    pub fn len(&self) -> usize
        ensures value { result ≡ length self.now.items }
        ensures within { result ≤ self.now.capacity }
    {
        self.len
    }

    /// How many items there may be.
    pub fn capacity(&self) -> usize
        ensures value { result ≡ self.now.capacity }
        ensures within { length self.now.items ≤ result }
    {
        self.capacity
    }

    /// How many more items fit.
    pub fn remaining_capacity(&self) -> usize
        ensures { result ≡ room self.now }
    {
        self.capacity - self.len
    }

    /// Whether there is no item.
    pub fn is_empty(&self) -> bool
        ensures { IsTrue result ↔ (self.now.items ≡ []) }
    {
        self.len == 0
    }

    /// Whether no more item fits.
    pub fn is_full(&self) -> bool
        ensures { IsTrue result ↔ (length self.now.items ≡ self.now.capacity) }
    {
        self.len == self.capacity
    }

    /// The items in two slices, the oldest first.
    pub fn as_slices(&self) -> (&[T], &[T])
        ensures { result.0.now ++ result.1.now ≡ self.now.items }
    {
        let to_end = self.capacity - self.start;
        if self.len <= to_end {
            (self.places.slice(self.start, self.len), &[])
        } else {
            (
                self.places.slice(self.start, to_end),
                self.places.slice(0, self.len - to_end),
            )
        }
    }

    /// Takes the oldest item off.
    pub fn pop_front(&mut self) -> Option<T>
        ensures items { MatchOption result ((self.old.items ≡ []) × (self.new.items ≡ [])) (λ item. self.old.items ≡ item ∷ self.new.items) }
        ensures capacity { self.new.capacity ≡ self.old.capacity }
    {
        if self.len == 0 {
            return None;
        }
        let item = self.places.read(self.start);
        self.start = wrapped(self.start, 1, self.capacity);
        self.len -= 1;
        Some(item)
    }

    /// Appends an item, or drops it and gives `None` where the ring is full.
    pub fn push(&mut self, value: T) -> Option<()>
    where
        T: Drop,
        ensures fits { IsSome result ↔ (length self.old.items < self.old.capacity) }
        ensures pushed { OnSome result (self.new ≡ ring (self.old.items ++ value ∷ []) self.old.capacity) }
        ensures full { IfNone result (self.new ≡ self.old) }
    {
        if self.len == self.capacity {
            return None;
        }
        let end = wrapped(self.start, self.len, self.capacity);
        self.places.write(end, value);
        self.len += 1;
        Some(())
    }

    /// Gives the block of a ring without items back.
    fn destroy_empty(self)
        requires { self.items ≡ [] }
    {
        let FixedRingBuffer {
            places,
            capacity,
            start: _,
            len: _,
            deed,
            alloc,
        } = self;
        deallocate(&alloc, capacity, places, deed);
    }
}

impl<T: Copy> FixedRingBuffer<T> {
    /// Appends a value `num` times, or as often as it fits, and answers how often.
    pub fn fill_repeat(&mut self, value: T, num: usize) -> usize
        ensures count { result ≡ min num (room self.old) }
        ensures filled { self.new ≡ ring (self.old.items ++ replicate result value) self.old.capacity }
    {
        let count = num.min(self.remaining_capacity());
        for _added in 0..count {
            self.push(value);
        }
        count
    }
}

impl<T: Drop> Drop for FixedRingBuffer<T> {
    fn drop(mut self) {
        while self.pop_front().is_some() {}
        self.destroy_empty();
    }
}

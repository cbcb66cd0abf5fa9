//! Items in the order of numbers that were given before they came.
ghost use Rattle.std.specs.Prelude.{◌≡◌, ◌+◌, ◌<◌, ◌≤◌, ◌∷◌, ◌++◌, [], false, length, slice_get, slice_set, Some, None, IfOk, OnOk, OnErr, Err, MatchOption, option_copied};
ghost use Rattle.std.specs.VecDeque.{deque_len};
ghost use Rattle.numbered_slots.specs.Numbered.{begins, front, there, IsAwaited, with_place, with_item, with_last};
ghost use Rattle.numbered_slots.specs.Laid.{laid};
ghost use Rattle.pu_base.specs.declared.error.PolarsUtilsError.TheVariants as refusal;

use pu_base::{PolarsUtilsError, Result};
use pu_index::FixedRingBuffer;
use std::alloc::Global;
use std::collections::VecDeque;
use std::marker::Model;

/// Items in the order of their numbers, from the one that is read next on. A number is given first, and its item may come later;
/// items are read in order, and none before those in front of it.
///
/// What can be read stands in a ring, and what came early beside it, so a call takes constant time: each item moves to the ring
/// once. Only a new number takes memory, and an item that comes without one.
#[derive(Drop)]
pub struct NumberedSlots<T> {
    next: u64,
    ready: FixedRingBuffer<T>,
    behind: VecDeque<Option<T>>,
    waiting: usize,
}

impl<T> Model for NumberedSlots<T> {
    ghost use Rattle.numbered_slots.specs.Numbered.{Numbered};

    ghost Value = { Numbered T };

    ghost use Rattle.numbered_slots.specs.Laid.{laid, IsLaid};

    ghost view = { λ a. record { next = a.next; slots = laid a.ready.items a.behind.items } };

    ghost invariant = { λ a. IsLaid a.next a.waiting a.ready.capacity a.ready.items a.behind.items };
}

/// Takes the first slot off, where something stands in it.
fn pop_there<T: Drop>(behind: &mut VecDeque<Option<T>>) -> Option<T>
    ensures { MatchOption result ((begins behind.old.items ≡ false) × (behind.new.items ≡ behind.old.items)) (λ item. behind.old.items ≡ Some item ∷ behind.new.items) }
{
    let Some(Some(_item)) = behind.front() else {
        return None;
    };
    match behind.pop_front() {
        Some(slot) => slot,
        None => None,
    }
}

/// Moves what can be read into the ring, as far as it has room.
fn settle<T: Drop>(ready: &mut FixedRingBuffer<T>, behind: &mut VecDeque<Option<T>>)
    ensures same { laid ready.new.items behind.new.items ≡ laid ready.old.items behind.old.items }
    ensures capacity { ready.new.capacity ≡ ready.old.capacity }
    ensures settled { length ready.new.items < ready.new.capacity → begins behind.new.items ≡ false }
{
    while ready.remaining_capacity() > 0 {
        let Some(item) = pop_there(behind) else {
            return;
        };
        ready.push(item);
    }
}

/// Drops all that a ring holds.
fn empty<T: Drop>(ready: &mut FixedRingBuffer<T>)
    ensures items { ready.new.items ≡ [] }
    ensures capacity { ready.new.capacity ≡ ready.old.capacity }
{
    while let Some(_item) = ready.pop_front() {}
}

/// Puts an item into an empty slot.
fn fill<T: Drop>(behind: &mut VecDeque<Option<T>>, at: usize, item: T)
    requires { at < deque_len behind.old }
    ensures { behind.new.items ≡ slice_set behind.old.items at (Some item) }
{
    behind[at] = Some(item);
}

impl<T: Drop> NumberedSlots<T> {
    /// No slots, with room for so many that no memory is taken by them. The first number is 0.
    ///
    /// Fails only for want of memory.
    pub fn new(alloc: Global, room: usize) -> Result<NumberedSlots<T>>
        requires { 0 < room }
        ensures empty { IfOk result (λ s. s ≡ record { next = 0; slots = [] }) }
        ensures memory { OnErr result (result ≡ Err refusal.OutOfMemory) }
    {
        let ready = FixedRingBuffer::new(alloc, room)?;
        let behind = VecDeque::with_capacity(alloc, room)?;
        Ok(NumberedSlots {
            next: 0,
            ready,
            behind,
            waiting: 0,
        })
    }

    /// The number that is read next.
    pub fn next(&self) -> u64
        ensures { result ≡ self.now.next }
    {
        self.next
    }

    /// How many numbers were given from the one that is read next on.
    pub fn len(&self) -> usize
        ensures { result ≡ length self.now.slots }
    {
        self.ready.len() + self.behind.len()
    }

    /// How many items wait.
    pub fn waiting(&self) -> usize
        ensures { result ≡ there self.now.slots }
    {
        self.waiting
    }

    /// Whether the item that is read next is there.
    pub fn is_ready(&self) -> bool
        ensures { result ≡ begins self.now.slots }
    {
        !self.ready.is_empty()
    }

    /// The item that is read next, if it is there.
    pub fn peek(&self) -> Option<&T>
        ensures { option_copied result ≡ front self.now.slots }
    {
        let (first, second) = self.ready.as_slices();
        match first.first() {
            Some(item) => Some(item),
            None => second.first(),
        }
    }

    /// Gives the next number, for an item that is still to come.
    ///
    /// Fails only for want of memory, as where 64 bits don't hold the number; all is then as before.
    pub fn reserve(&mut self) -> Result<()>
        ensures ok { OnOk result (self.new ≡ with_place self.old) }
        ensures memory { OnErr result ((self.new ≡ self.old) × (result ≡ Err refusal.OutOfMemory)) }
    {
        if self.next + self.len() as u64 == u64::MAX {
            return Err(PolarsUtilsError::OutOfMemory);
        }
        let Ok(()) = self.behind.push_back(None) else {
            return Err(PolarsUtilsError::OutOfMemory);
        };
        Ok(())
    }

    /// Puts the item of a number that was given in its place. It takes no memory.
    pub fn put(&mut self, number: u64, item: T)
        requires { IsAwaited self.old number }
        ensures { self.new ≡ with_item number item self.old }
    {
        let at = (number - self.next) as usize - self.ready.len();
        fill(&mut self.behind, at, item);
        self.waiting += 1;
        settle(&mut self.ready, &mut self.behind);
    }

    /// Puts an item last, under the next number.
    ///
    /// Fails only for want of memory, as where 64 bits don't hold the number; all is then as before.
    pub fn push(&mut self, item: T) -> Result<()>
        ensures ok { OnOk result (self.new ≡ with_last item self.old) }
        ensures memory { OnErr result ((self.new ≡ self.old) × (result ≡ Err refusal.OutOfMemory)) }
    {
        if self.next + self.len() as u64 == u64::MAX {
            return Err(PolarsUtilsError::OutOfMemory);
        }
        let Ok(()) = self.behind.push_back(Some(item)) else {
            return Err(PolarsUtilsError::OutOfMemory);
        };
        self.waiting += 1;
        settle(&mut self.ready, &mut self.behind);
        Ok(())
    }

    /// Takes the item that is read next, if it is there.
    pub fn take(&mut self) -> Option<T>
        ensures { MatchOption result ((begins self.old.slots ≡ false) × (self.new ≡ self.old)) (λ item. (self.old.slots ≡ Some item ∷ self.new.slots) × (self.new.next ≡ self.old.next + 1)) }
    {
        let item = self.ready.pop_front()?;
        self.next += 1;
        self.waiting -= 1;
        settle(&mut self.ready, &mut self.behind);
        Some(item)
    }

    /// Drops all items, and the numbers that were given for them.
    #[tactic(auto, using(crate::proofs::Kept::cleared))]
    pub fn clear(&mut self)
        ensures { self.new ≡ record self.old { slots = [] } }
    {
        empty(&mut self.ready);
        self.behind.clear();
        self.waiting = 0;
    }
}

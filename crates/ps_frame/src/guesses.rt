// Where a value that was seen before is likely to stand.
//
// A guess may be wrong or missing, so it is taken only where the value that stands there is the same.
// No more than memory depends on it.
ghost use Rattle.std.specs.Prelude.{◌≡◌, Err, IfSome, IsTrue, OnErr, Some, slice_get};

use crate::error::FrameError;
use crate::value::Value;
use std::alloc::Global;
use std::hash::{FoldHasher, Hasher};

// In how many slots a value is looked for.
const TRIES: usize = 8;

// How many slots there are at least for each value, so that most values find a free one.
const SLOTS_EACH: usize = 4;

const FEWEST_SLOTS: usize = 64;

// An odd number without a pattern in its bits.
const SPREAD: u64 = 0x9e37_79b9_7f4a_7c15;

/// Guesses at the places of values: each is 0, or one more than a place.
#[derive(Drop)]
pub(crate) struct Guesses {
    slots: Vec<u32>,
}

impl Guesses {
    /// No guess, which takes no memory.
    pub(crate) fn new(alloc: Global) -> Guesses {
        Guesses {
            slots: Vec::new(alloc),
        }
    }

    /// Where a value stands among those, if it was noted.
    pub(crate) fn place_of(&self, values: &[Value], value: &Value) -> Option<u32>
        ensures { IfSome result (λ place. slice_get values.now place ≡ Some value.now) }
    {
        let first = likely_slot(value);
        for step in 0..TRIES {
            let place = self.guess(first, step)?;
            if stands_at(values, place, value) {
                return Some(place);
            }
        }
        None
    }

    /// Where a whole number stands among those values, if it was noted.
    pub(crate) fn place_of_number(&self, values: &[Value], number: i64) -> Option<u32>
        ensures { IfSome result (λ place. slice_get values.now place ≡ Some (Value.Int64 number)) }
    {
        let first = slot_of(number.cast_unsigned());
        for step in 0..TRIES {
            let place = self.guess(first, step)?;
            if number_stands_at(values, place, number) {
                return Some(place);
            }
        }
        None
    }

    /// Where a text stands among those values, if it was noted.
    pub(crate) fn place_of_text(&self, values: &[Value], text: &str) -> Option<u32>
        ensures { IfSome result (λ place. slice_get values.now place ≡ Some (Value.String text.now)) }
    {
        let first = slot_of(number_of(text));
        for step in 0..TRIES {
            let place = self.guess(first, step)?;
            if text_stands_at(values, place, text) {
                return Some(place);
            }
        }
        None
    }

    /// Notes that a value comes to stand at a place, behind those values.
    ///
    /// Fails only for want of memory.
    pub(crate) fn note(
        &mut self,
        alloc: Global,
        values: &[Value],
        value: &Value,
        place: u32,
    ) -> Result<(), FrameError>
        ensures memory { OnErr result (result ≡ Err FrameError.OutOfMemory) }
    {
        if self.slots.len() / SLOTS_EACH <= values.len() {
            let count = self.slots.len().saturating_mul(SLOTS_EACH);
            *self = Guesses::of(alloc, values, count.max(FEWEST_SLOTS))?;
        }
        self.put(value, place);
        Ok(())
    }

    // The guesses at these values in that many slots, a power of two.
    fn of(alloc: Global, values: &[Value], count: usize) -> Result<Guesses, FrameError>
        ensures memory { OnErr result (result ≡ Err FrameError.OutOfMemory) }
    {
        let slots = vec![in alloc; 0u32; count]?;
        let mut guesses = Guesses { slots };
        let mut place = 0u32;
        for value in values {
            guesses.put(value, place);
            place = place.saturating_add(1);
        }
        Ok(guesses)
    }

    fn put(&mut self, value: &Value, place: u32) {
        let first = likely_slot(value);
        for step in 0..TRIES {
            let slot = self.slot(first, step);
            if slot < self.slots.len() && self.slots[slot] == 0 {
                self.slots[slot] = place.saturating_add(1);
                return;
            }
        }
    }

    fn guess(&self, first: usize, step: usize) -> Option<u32> {
        self.slots.get(self.slot(first, step))?.checked_sub(1)
    }

    // The slot that many steps behind the first; behind the last one comes number 0.
    fn slot(&self, first: usize, step: usize) -> usize {
        first.wrapping_add(step) & self.slots.len().wrapping_sub(1)
    }
}

/// Whether that value stands at the place.
pub(crate) fn stands_at(values: &[Value], place: u32, value: &Value) -> bool
    ensures { IsTrue result → slice_get values.now place ≡ Some value.now }
{
    match values.get(place as usize) {
        Some(found) => found.same(value),
        None => false,
    }
}

fn number_stands_at(values: &[Value], place: u32, number: i64) -> bool
    ensures { IsTrue result → slice_get values.now place ≡ Some (Value.Int64 number) }
{
    match values.get(place as usize) {
        Some(found) => found.is_number(number),
        None => false,
    }
}

fn text_stands_at(values: &[Value], place: u32, text: &str) -> bool
    ensures { IsTrue result → slice_get values.now place ≡ Some (Value.String text.now) }
{
    match values.get(place as usize) {
        Some(found) => found.is_text(text),
        None => false,
    }
}

// The first slot in which a value is looked for.
fn likely_slot(value: &Value) -> usize {
    let number = match value {
        Value::Null => 0,
        Value::Boolean(b) => u64::from(*b),
        Value::Int64(z) => z.cast_unsigned(),
        Value::IdxSize(n) => u64::from(*n),
        Value::String(text) => number_of(text.as_str()),
    };
    slot_of(number)
}

// The same of the number that is made of a value.
fn slot_of(number: u64) -> usize {
    (number.wrapping_mul(SPREAD) >> 40) as usize
}

// A number that differs for most texts. The hash takes eight bytes at a time.
fn number_of(text: &str) -> u64 {
    let mut hasher = FoldHasher::default();
    hasher.write(text.as_bytes());
    hasher.finish()
}

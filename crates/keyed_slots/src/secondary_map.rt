//! More values under the keys of a slot map.
ghost use Rattle.std.specs.Prelude.{◌≡◌, ◌+◌, ◌<◌, ◌≤◌, ◌↔◌, [], Some, None, length, IsSome, IsTrue, IsOk, IfOk, OnOk, OnErr, option_copied, slice_set};
ghost use Rattle.std.specs.Option.{option_copied_mut};
ghost use Rattle.std.specs.Borrow.{sem};
ghost use Rattle.keyed_slots.specs.Slots.{value_at, Updates};

use crate::key::Key;
use crate::slot;
use std::alloc::{AllocError, Global};
use std::marker::{Model, PhantomData};

/// Values under keys that another map gave. Contracts see the value or nothing at each number, nothing past the list's end, and
/// how much longer the list may get without taking memory.
///
/// A call takes constant time; an insert takes memory for each number up to its key's.
#[derive(Drop)]
pub struct SecondaryMap<K: Key, V> {
    slots: Vec<Option<V>>,
    key: PhantomData<K>,
}

impl<K: Key, V> Model for SecondaryMap<K, V> {
    ghost use Rattle.std.specs.Prelude.{◌-◌, vec_len, vec_capacity};
    ghost use Rattle.keyed_slots.specs.Slots.{SlotList, slot_list_code};

    ghost Value = { SlotList V };

    ghost coded = { slot_list_code V.code };

    ghost view = { λ m. record { slots = m.slots.items; room = vec_capacity m.slots - vec_len m.slots } };
}

impl<K: Key, V> SecondaryMap<K, V> {
    ghost use Rattle.keyed_slots.specs.SecondaryMapLends.{lends_value, lends_get};

    /// A map without values, which takes no memory.
    pub fn new(alloc: Global) -> SecondaryMap<K, V>
        ensures { result.slots ≡ [] }
    {
        SecondaryMap {
            slots: Vec::new(alloc),
            key: PhantomData,
        }
    }

    /// A map without values, with room for the numbers below `capacity`. It fails only for want of memory.
    pub fn with_capacity(alloc: Global, capacity: usize) -> Result<SecondaryMap<K, V>, AllocError>
        ensures empty { IfOk result (λ m. m.slots ≡ []) }
        ensures room { IfOk result (λ m. capacity ≤ m.room) }
    {
        Ok(SecondaryMap {
            slots: Vec::with_capacity(alloc, capacity)?,
            key: PhantomData,
        })
    }

    /// Puts the value under the key, and gives the value that stood there.
    ///
    /// It fails only for want of memory, and not where there is room; the map is then as before, and the value is dropped.
    pub fn insert(&mut self, key: K, value: V) -> Result<Option<V>, AllocError>
    where
        V: Drop,
        ensures old { IfOk result (λ old. old ≡ value_at self.old.slots (K.number_of key)) }
        ensures updates { OnOk result (Updates self.old.slots self.new.slots (K.number_of key) (Some value)) }
        ensures succeeds { K.number_of key < length self.old.slots + self.old.room → IsOk result }
        ensures room { length self.old.slots + self.old.room ≤ length self.new.slots + self.new.room }
        ensures unchanged { OnErr result (self.new ≡ self.old) }
    {
        let number = key.number() as usize;
        if number >= self.slots.len() {
            slot::grow(&mut self.slots, number + 1)?;
        }
        Ok(self.slots[number].replace(value))
    }

    /// The value under a key, if there is one.
    pub fn get(&self, key: K) -> Option<&V>
        ensures { option_copied result ≡ value_at self.now.slots (K.number_of key) }
    {
        match self.slots.get(key.number() as usize) {
            Some(Some(value)) => Some(value),
            _ => None,
        }
    }

    /// The value under a key, for writing. A write changes that value alone.
    pub fn get_mut(&mut self, key: K) -> Option<&mut V>
        ensures* writes_back { sem 𝓛 (lends_get K.row V.row K.Key self.entry (K.number_of key) result) }
        ensures value { option_copied_mut result ≡ value_at self.old.slots (K.number_of key) }
    {
        if self.contains_key(key) {
            Some(self.value_mut(key))
        } else {
            None
        }
    }

    fn value_mut(&mut self, key: K) -> &mut V
        requires { IsSome (value_at self.old.slots (K.number_of key)) }
        ensures* writes_back { sem 𝓛 (lends_value K.row V.row K.Key self.entry (K.number_of key) result) }
        ensures value { value_at self.old.slots (K.number_of key) ≡ Some result.now }
    {
        slot::value_mut(&mut self.slots[key.number() as usize])
    }

    /// Takes the value under a key out, if there is one.
    pub fn remove(&mut self, key: K) -> Option<V>
        ensures value { result ≡ value_at self.old.slots (K.number_of key) }
        ensures removed { self.new.slots ≡ slice_set self.old.slots (K.number_of key) None }
        ensures room { self.new.room ≡ self.old.room }
    {
        let number = key.number() as usize;
        if number >= self.slots.len() {
            return None;
        }
        self.slots[number].take()
    }

    /// Whether the key has a value.
    pub fn contains_key(&self, key: K) -> bool
        ensures { IsTrue result ↔ IsSome (value_at self.now.slots (K.number_of key)) }
    {
        self.get(key).is_some()
    }
}

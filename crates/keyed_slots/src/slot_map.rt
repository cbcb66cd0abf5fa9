//! A map that picks its keys. Each insert gets a key that was never given before, so a removed key stays without a value.
//!
//! The keys' numbers count the inserts. A call takes constant time, an insert on average; an iterator passes the removed
//! places by. The places of removed values are kept until the map is dropped.
ghost use Rattle.std.specs.Prelude.{◌≡◌, ◌≢◌, ◌+◌, ◌-◌, ◌<◌, ◌≤◌, ◌^◌, ◌++◌, ◌∷◌, ◌↔◌, [], None, Some, length, count_by, is_some, All, AllPairs, Contains, IsSome, IsTrue, IsOk, IfOk, OnErr, option_copied, slice_set, map, filter, not, ◌==◌};
ghost use Rattle.std.specs.Option.{option_copied_mut};
ghost use Rattle.std.specs.Borrow.{sem};
ghost use Rattle.keyed_slots.specs.Slots.{value_at, live};

mod iter;

use crate::key::Key;
use crate::slot;
pub use iter::{Iter, Keys};
use std::alloc::{AllocError, Global};
use std::marker::{Model, PhantomData};

/// Values under keys that are never given twice. Contracts see the value or nothing at each number that was given, and how many
/// values may be put in without taking memory.
#[derive(Drop)]
pub struct SlotMap<K: Key, V> {
    slots: Vec<Option<V>>,
    // How many slots hold a value.
    len: usize,
    key: PhantomData<K>,
}

impl<K: Key, V> Model for SlotMap<K, V> {
    ghost use Rattle.std.specs.Prelude.{◌-◌, vec_len, vec_capacity};
    ghost use Rattle.keyed_slots.specs.Slots.{SlotList, slot_list_code, IsCounted};

    ghost Value = { SlotList V };

    ghost coded = { slot_list_code V.code };

    ghost view = { λ m. record { slots = m.slots.items; room = vec_capacity m.slots - vec_len m.slots } };

    ghost invariant = { λ m. IsCounted m.slots.items m.len };
}

impl<K: Key, V> SlotMap<K, V> {
    ghost use Rattle.keyed_slots.specs.SlotMapLends.{lends_value, lends_get};

    /// A map without values, with room for `capacity` of them. It fails only for want of memory.
    pub fn with_capacity_and_key(
        alloc: Global,
        capacity: usize,
    ) -> Result<SlotMap<K, V>, AllocError>
        ensures empty { IfOk result (λ m. m.slots ≡ []) }
        ensures room { IfOk result (λ m. capacity ≤ m.room) }
    {
        Ok(SlotMap {
            slots: Vec::with_capacity(alloc, capacity)?,
            len: 0,
            key: PhantomData,
        })
    }

    /// How many values there are.
    pub fn len(&self) -> usize
        ensures count { result ≡ count_by is_some self.now.slots }
        ensures live { result ≡ length (live K.key_of self.now.slots) }
    {
        self.len
    }

    /// Whether there is no value.
    pub fn is_empty(&self) -> bool
        ensures { IsTrue result ↔ (count_by is_some self.now.slots ≡ 0) }
    {
        self.len == 0
    }

    /// How many inserts there were so far, with those whose values were removed: the number of the next key.
    pub fn inserts(&self) -> usize
        ensures { result ≡ length self.now.slots }
    {
        self.slots.len()
    }

    /// Stores the value under a new key: its number is the number of inserts so far.
    ///
    /// It fails only for want of memory, and not where there is room; the map is then as before, and the value is dropped.
    pub fn insert(&mut self, value: V) -> Result<K, AllocError>
    where
        V: Drop,
        requires { length self.old.slots < 2 ^ 32 - 1 }
        ensures key { IfOk result (λ key. K.number_of key ≡ length self.old.slots) }
        ensures added { IfOk result (λ _. self.new.slots ≡ self.old.slots ++ Some value ∷ []) }
        ensures live { IfOk result (λ key. live K.key_of self.new.slots ≡ live K.key_of self.old.slots ++ (key, value) ∷ []) }
        ensures succeeds { 0 < self.old.room → IsOk result }
        ensures room { self.old.room ≤ self.new.room + 1 }
        ensures unchanged { OnErr result (self.new ≡ self.old) }
    {
        self.slots.reserve(1)?;
        let number = self.slots.len() as u32;
        self.slots.push_reserved(Some(value));
        self.len += 1;
        Ok(K::from_number(number))
    }

    /// The value under a key: None for one that was removed or that this map did not give.
    pub fn get(&self, key: K) -> Option<&V>
        ensures { option_copied result ≡ value_at self.now.slots (K.number_of key) }
    {
        match self.slots.get(key.number() as usize) {
            Some(Some(value)) => Some(value),
            _ => None,
        }
    }

    /// The value under a key, for writing. A write changes that value alone.
    pub fn get_mut(&mut self, key: K) -> Option<&mut V>
        ensures* writes_back { sem 𝓛 (lends_get K.row V.row K.Key self.entry (K.number_of key) result) }
        ensures value { option_copied_mut result ≡ value_at self.old.slots (K.number_of key) }
    {
        if self.contains_key(key) {
            Some(self.value_mut(key))
        } else {
            None
        }
    }

    fn value_mut(&mut self, key: K) -> &mut V
        requires { IsSome (value_at self.old.slots (K.number_of key)) }
        ensures* writes_back { sem 𝓛 (lends_value K.row V.row K.Key self.entry (K.number_of key) result) }
        ensures value { value_at self.old.slots (K.number_of key) ≡ Some result.now }
    {
        slot::value_mut(&mut self.slots[key.number() as usize])
    }

    /// Takes the value under a key out, if there is one. The key never gets a value again.
    pub fn remove(&mut self, key: K) -> Option<V>
        ensures value { result ≡ value_at self.old.slots (K.number_of key) }
        ensures removed { self.new.slots ≡ slice_set self.old.slots (K.number_of key) None }
        ensures room { self.new.room ≡ self.old.room }
        ensures live { live K.key_of self.new.slots
            ≡ filter (λ p. not (K.number_of p.0 == K.number_of key)) (live K.key_of self.old.slots) }
    {
        let number = key.number() as usize;
        if number >= self.slots.len() {
            return None;
        }
        let value = self.slots[number].take();
        if value.is_some() {
            self.len -= 1;
        }
        value
    }

    /// Whether the key has a value.
    pub fn contains_key(&self, key: K) -> bool
        ensures { IsTrue result ↔ IsSome (value_at self.now.slots (K.number_of key)) }
    {
        self.get(key).is_some()
    }

    /// The keys that have a value, in the order in which they were given: their numbers rise.
    pub fn keys(&self) -> Keys<'_, K, V>
        ensures list { result ≡ map (λ p. p.0) (live K.key_of self.now.slots) }
        ensures found { All (λ key. IsSome (value_at self.now.slots (K.number_of key))) result }
        ensures complete { (key : K) → IsSome (value_at self.now.slots (K.number_of key)) → Contains result key }
        ensures rise { AllPairs (λ a b. K.number_of a < K.number_of b) result }
        ensures differ { AllPairs (λ a b. a ≢ b) result }
    {
        Keys { pairs: self.iter() }
    }

    /// The keys that have a value with their values, in the order in which they were given: their numbers rise.
    pub fn iter(&self) -> Iter<'_, K, V>
        ensures list { result ≡ live K.key_of self.now.slots }
        ensures found { All (λ p. value_at self.now.slots (K.number_of p.0) ≡ Some p.1) result }
        ensures complete { (key : K) (value : V) → value_at self.now.slots (K.number_of key) ≡ Some value → Contains result (key, value) }
        ensures rise { AllPairs (λ p q. K.number_of p.0 < K.number_of q.0) result }
    {
        Iter {
            slots: self.slots.as_slice(),
            number: 0,
            key: PhantomData,
        }
    }
}

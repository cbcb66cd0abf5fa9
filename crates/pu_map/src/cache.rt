//! A cache of a fixed size. Each key has two slots by its hash, and an insert takes the older of them where neither is free.
ghost use Rattle.std.specs.Prelude.{◌≡◌, ℕ, ◌<◌, ◌≤◌, ◌/◌, ◌^◌, max, length, Some, None, Ok, Err, IsSome, IsOk, IsOkAnd, IfSome, IfOk, IfErr, OnOk, OnErr, option_copied, slice_set, vec_len};
ghost use Rattle.std.specs.Option.{option_copied_mut, UnwrapsOrElse};
ghost use Rattle.std.specs.Int.{IsPowerOfTwo};
ghost use Rattle.std.specs.Borrow.{sem};
ghost use Rattle.pu_base.specs.declared.error.PolarsUtilsError.TheVariants as refusal;
ghost use Rattle.pu_map.specs.Cache.{key_hash, first_place, second_place, slot_at, place_of, place_to_fill, value_at, touched, filled, AnswersCopy, set_apart};

use pu_base::{PolarsUtilsError, Result};
use pu_partition::hash_to_partition;
use std::alloc::{AllocError, Global};
use std::hash::{FoldHasher, Hash, Hasher};
use std::marker::Model;

const MIN_FAST_FIXED_CACHE_SIZE: usize = 16;

/// Why a value was not put in: there was no memory for a copy of its key, or the function that makes the value answered an error.
#[derive(Drop)]
pub(crate) enum Refusal<E> {
    OutOfMemory,
    Function(E),
}

/// What a slot holds, and when it was last hit or filled.
#[derive(Drop)]
pub struct CacheSlot<K, V> {
    pub(crate) last_access: u32,
    pub(crate) key: K,
    pub(crate) value: V,
}

/// A cache of a fixed number of slots. Contracts see the slots, and the age of the next access.
#[derive(Drop)]
pub struct FastFixedCache<K, V> {
    slots: Vec<Option<CacheSlot<K, V>>>,
    access_counter: u32,
}

impl<K, V> Model for FastFixedCache<K, V> {
    ghost use Rattle.std.specs.Prelude.{◌<◌, length};
    ghost use Rattle.pu_map.specs.Cache.{CacheState, cache_code};

    ghost Value = { CacheState K V };

    ghost coded = { cache_code K.code V.code };

    ghost view = { λ c. record { slots = c.slots.items; counter = c.access_counter } };

    ghost invariant = { λ c. 0 < length c.slots.items };
}

impl<K, V> CacheSlot<K, V> {
    ghost use Rattle.pu_map.specs.Cache.{aged, slot_with_value, holds, older_of};
    ghost use Rattle.pu_map.specs.CacheLends.{lends_slot, lends_slot_value};

    fn of(slot: &mut Option<CacheSlot<K, V>>) -> &mut CacheSlot<K, V>
        requires { IsSome slot.old }
        ensures* writes_back { sem 𝓛 (lends_slot K.row V.row slot.entry result) }
        ensures value { slot.old ≡ Some result.now }
    {
        match slot {
            Some(slot) => slot,
            None => unreachable!(),
        }
    }

    fn value_of(slot: &mut Option<CacheSlot<K, V>>) -> &mut V
        requires { IsSome slot.old }
        ensures* writes_back { sem 𝓛 (lends_slot_value K.row V.row slot.entry result) }
        ensures value { IfSome slot.old (λ s. s.value ≡ result.now) }
    {
        let held = CacheSlot::of(slot);
        &mut held.value
    }

    fn set_age(slot: &mut Option<CacheSlot<K, V>>, age: u32)
        ensures { slot.new ≡ aged age slot.old }
    {
        if let Some(held) = slot {
            held.last_access = age;
        }
    }

    fn holds(slot: &Option<CacheSlot<K, V>>, key: &K) -> bool
    where
        K: Eq,
        ensures { result ≡ holds K.eq slot.now key.now }
    {
        match slot {
            Some(held) => held.key == *key,
            None => false,
        }
    }

    // The place, of two, whose slot is empty or else older.
    fn older(
        first: &Option<CacheSlot<K, V>>,
        second: &Option<CacheSlot<K, V>>,
        i: usize,
        j: usize,
    ) -> usize
        ensures { result ≡ older_of first.now second.now i j }
    {
        match (first, second) {
            (None, _) => i,
            (Some(_), None) => j,
            (Some(a), Some(b)) => {
                if a.last_access.wrapping_sub(b.last_access) >= 1 << 31 {
                    i
                } else {
                    j
                }
            }
        }
    }
}

fn hash_of<K: Hash>(key: &K) -> u64
    ensures { result ≡ key_hash (K.hash_input key.now) }
{
    let mut state = FoldHasher::default();
    key.hash(&mut state);
    state.finish()
}

fn first_place(count: usize, hash: u64) -> usize
    requires { 0 < count }
    ensures value { result ≡ first_place count hash }
    ensures within { result < count }
{
    hash_to_partition(hash.wrapping_mul(0x2e623b55bc0c9073), count)
}

fn second_place(count: usize, hash: u64) -> usize
    requires { 0 < count }
    ensures value { result ≡ second_place count hash }
    ensures within { result < count }
{
    hash_to_partition(hash.wrapping_mul(0x921932b06a233d39), count)
}

fn empty_slots<K, V>(
    alloc: Global,
    count: usize,
) -> std::result::Result<Vec<Option<CacheSlot<K, V>>>, AllocError>
    ensures count { IfOk result (λ slots. vec_len slots ≡ count) }
    ensures empty { IfOk result (λ slots. (i : ℕ) → slot_at slots.items i ≡ None) }
{
    let mut slots = Vec::with_capacity(alloc, count)?;
    'empties: for _ in 0..count {
        slots.push_reserved(None);
    }
    Ok(slots)
}

fn cloned_slot<K: Clone, V: Clone>(
    slot: &Option<CacheSlot<K, V>>,
) -> std::result::Result<Option<CacheSlot<K, V>>, AllocError>
    requires keys { (x y : K) → K.is_clone x y → y ≡ x }
    requires values { (x y : V) → V.is_clone x y → y ≡ x }
    ensures { IfOk result (λ copy. copy ≡ slot.now) }
{
    match slot {
        Some(held) => Ok(Some(CacheSlot {
            last_access: held.last_access,
            key: held.key.clone()?,
            value: held.value.clone()?,
        })),
        None => Ok(None),
    }
}

fn cloned_slots<K: Clone, V: Clone>(
    alloc: Global,
    slots: &[Option<CacheSlot<K, V>>],
) -> std::result::Result<Vec<Option<CacheSlot<K, V>>>, AllocError>
    requires keys { (x y : K) → K.is_clone x y → y ≡ x }
    requires values { (x y : V) → V.is_clone x y → y ≡ x }
    ensures { IfOk result (λ copies. copies.items ≡ slots.now) }
{
    let mut copies = Vec::with_capacity(alloc, slots.len())?;
    'slots: for slot in slots {
        copies.push(cloned_slot(slot)?)?;
    }
    Ok(copies)
}

// What was lent, or the function's error, apart from the want of memory.
fn set_apart<'a, V, E>(
    lent: std::result::Result<&'a mut V, Refusal<E>>,
) -> Result<std::result::Result<&'a mut V, E>>
    ensures { result ≡ set_apart lent.entry }
{
    match lent {
        Ok(value) => Ok(Ok(value)),
        Err(Refusal::Function(error)) => Ok(Err(error)),
        Err(Refusal::OutOfMemory) => Err(PolarsUtilsError::OutOfMemory),
    }
}

impl<K: Clone, V: Clone> FastFixedCache<K, V> {
    /// An equal cache; clones have to equal their source. It fails only for want of memory.
    pub fn try_clone(&self, alloc: Global) -> Result<FastFixedCache<K, V>>
        requires keys { (x y : K) → K.is_clone x y → y ≡ x }
        requires values { (x y : V) → V.is_clone x y → y ≡ x }
        ensures equal { IfOk result (λ c. c ≡ self.now) }
        ensures memory { OnErr result (result ≡ Err refusal.OutOfMemory) }
    {
        Ok(FastFixedCache {
            slots: cloned_slots(alloc, &self.slots)?,
            access_counter: self.access_counter,
        })
    }
}

impl<K: Hash + Eq, V> FastFixedCache<K, V> {
    ghost use Rattle.pu_map.specs.declared.cache.Refusal.TheVariants.{Function};
    ghost use Rattle.pu_map.specs.CacheLends.{lends_value, lends_hit, lends_found, ends_looked_up, lends_filled, lends_got, lends_tried};

    /// A cache without keys, of the next power of two of `max(n, 16)` slots. It fails only for want of memory.
    pub fn new(alloc: Global, n: usize) -> Result<FastFixedCache<K, V>>
        requires { n ≤ 2 ^ 31 }
        ensures power { IfOk result (λ c. IsPowerOfTwo (length c.slots)) }
        ensures enough { IfOk result (λ c. max n 16 ≤ length c.slots) }
        ensures least { IfOk result (λ c. length c.slots / 2 < max n 16) }
        ensures empty { IfOk result (λ c. (i : ℕ) → slot_at c.slots i ≡ None) }
        ensures counter { IfOk result (λ c. c.counter ≡ 1) }
        ensures memory { OnErr result (result ≡ Err refusal.OutOfMemory) }
    {
        let count = n.max(MIN_FAST_FIXED_CACHE_SIZE).next_power_of_two();
        Ok(FastFixedCache {
            slots: empty_slots(alloc, count)?,
            access_counter: 1,
        })
    }

    /// The value of a key, whose slot is hit: None exactly where neither of its slots holds it.
    pub fn get(&mut self, key: &K) -> Option<&V>
        ensures* hits { sem 𝓛 (ends_looked_up K.row V.row self.entry (place_of K.eq self.old.slots (key_hash (K.hash_input key.now)) key.now)) }
        ensures value { option_copied result ≡ value_at self.old.slots (place_of K.eq self.old.slots (key_hash (K.hash_input key.now)) key.now) }
    {
        let place = self.place_of(key)?;
        self.touch(place);
        Some(self.value(place))
    }

    /// The value of a key, for writing, whose slot is hit.
    pub fn get_mut(&mut self, key: &K) -> Option<&mut V>
        ensures* hits { sem 𝓛 (lends_found K.row V.row self.entry (place_of K.eq self.old.slots (key_hash (K.hash_input key.now)) key.now) result) }
        ensures value { option_copied_mut result ≡ value_at self.old.slots (place_of K.eq self.old.slots (key_hash (K.hash_input key.now)) key.now) }
    {
        let place = self.place_of(key)?;
        Some(self.hit(place))
    }

    /// Puts a value under a key: in its place where it stands, else in the free or the older one of its two slots.
    pub fn insert(&mut self, key: K, value: V) -> &mut V
    where
        K: Drop,
        V: Drop,
        ensures* fills { sem 𝓛 (lends_filled K.row V.row self.entry (place_to_fill K.eq self.old.slots (key_hash (K.hash_input key)) key) key result) }
        ensures value { result.now ≡ value }
    {
        let place = self.place_to_fill(&key);
        self.fill(place, key, value);
        self.value_mut(place)
    }

    /// The value of a key, for writing, whose slot is hit. Where neither of its slots holds the key, a copy of it is put in, with
    /// what the function answers for the copy. Only then is the function called. It fails only for want of memory for the copy,
    /// and the cache is then as before.
    pub fn get_or_insert_with<F: FnOnce(&K) -> V>(&mut self, key: &K, f: F) -> Result<&mut V>
    where
        K: Clone + Drop,
        V: Drop,
        requires callable { place_of K.eq self.old.slots (key_hash (K.hash_input key.now)) key.now ≡ None → F.IsAlwaysCallable f }
        ensures* writes_back { sem 𝓛 (lends_got K.row V.row self.entry (place_of K.eq self.old.slots (key_hash (K.hash_input key.now)) key.now) (place_to_fill K.eq self.old.slots (key_hash (K.hash_input key.now)) key.now) (AnswersCopy K.is_clone F.FnOnce f key.now) result) }
        ensures value { IfOk result (λ x. UnwrapsOrElse (value_at self.old.slots (place_of K.eq self.old.slots (key_hash (K.hash_input key.now)) key.now)) (λ value. (copy : K) × AnswersCopy K.is_clone F.FnOnce f key.now copy value) x.now) }
        ensures found { IsSome (place_of K.eq self.old.slots (key_hash (K.hash_input key.now)) key.now) → IsOk result }
        ensures memory { OnErr result (result ≡ Err refusal.OutOfMemory) }
    {
        let place = self.place_with(key, f)?;
        Ok(self.value_mut(place))
    }

    // The place of a key, which was hit, or filled where the cache lacked the key.
    fn place_with<F: FnOnce(&K) -> V>(
        &mut self,
        key: &K,
        f: F,
    ) -> std::result::Result<usize, AllocError>
    where
        K: Clone + Drop,
        V: Drop,
        requires callable { place_of K.eq self.old.slots (key_hash (K.hash_input key.now)) key.now ≡ None → F.IsAlwaysCallable f }
        ensures hit { IfSome (place_of K.eq self.old.slots (key_hash (K.hash_input key.now)) key.now) (λ i. (result ≡ Ok i) × (self.new ≡ touched self.old i)) }
        ensures filled { IfOk result (λ i. place_of K.eq self.old.slots (key_hash (K.hash_input key.now)) key.now ≡ None → (i ≡ place_to_fill K.eq self.old.slots (key_hash (K.hash_input key.now)) key.now) × ((copy : K) × (value : V) × AnswersCopy K.is_clone F.FnOnce f key.now copy value × (self.new ≡ filled self.old i copy value))) }
        ensures held { IfOk result (λ i. IsSome (slot_at self.new.slots i)) }
        ensures unchanged { OnErr result (self.new ≡ self.old) }
    {
        match self.place_of(key) {
            Some(place) => {
                self.touch(place);
                Ok(place)
            }
            None => {
                let place = self.place_to_fill(key);
                let copy = key.clone()?;
                let value = f(&copy);
                self.fill(place, copy, value);
                Ok(place)
            }
        }
    }

    /// The same with a function that may fail: the inner error is the function's, and the cache is then as before.
    pub fn try_get_or_insert_with<E, F: FnOnce(&K) -> std::result::Result<V, E>>(
        &mut self,
        key: &K,
        f: F,
    ) -> Result<std::result::Result<&mut V, E>>
    where
        K: Clone + Drop,
        V: Drop,
        requires callable { place_of K.eq self.old.slots (key_hash (K.hash_input key.now)) key.now ≡ None → F.IsAlwaysCallable f }
        ensures* writes_back { sem 𝓛 (lends_tried K.row V.row self.entry (place_of K.eq self.old.slots (key_hash (K.hash_input key.now)) key.now) (place_to_fill K.eq self.old.slots (key_hash (K.hash_input key.now)) key.now) (λ copy value. AnswersCopy K.is_clone F.FnOnce f key.now copy (Ok value)) result) }
        ensures value { IfOk result (λ made. IfOk made (λ x. UnwrapsOrElse (value_at self.old.slots (place_of K.eq self.old.slots (key_hash (K.hash_input key.now)) key.now)) (λ value. (copy : K) × AnswersCopy K.is_clone F.FnOnce f key.now copy (Ok value)) x.now)) }
        ensures refused { IfOk result (λ made. IfErr made (λ e. (copy : K) × AnswersCopy K.is_clone F.FnOnce f key.now copy (Err e))) }
        ensures found { IsSome (place_of K.eq self.old.slots (key_hash (K.hash_input key.now)) key.now) → IsOkAnd result (λ made. IsOk made) }
        ensures memory { OnErr result (result ≡ Err refusal.OutOfMemory) }
    {
        set_apart(self.try_got_with(key, f))
    }

    // The same in one result, whose error says which of the two it is.
    fn try_got_with<E, F: FnOnce(&K) -> std::result::Result<V, E>>(
        &mut self,
        key: &K,
        f: F,
    ) -> std::result::Result<&mut V, Refusal<E>>
    where
        K: Clone + Drop,
        V: Drop,
        requires callable { place_of K.eq self.old.slots (key_hash (K.hash_input key.now)) key.now ≡ None → F.IsAlwaysCallable f }
        ensures* writes_back { sem 𝓛 (lends_got K.row V.row self.entry (place_of K.eq self.old.slots (key_hash (K.hash_input key.now)) key.now) (place_to_fill K.eq self.old.slots (key_hash (K.hash_input key.now)) key.now) (λ copy value. AnswersCopy K.is_clone F.FnOnce f key.now copy (Ok value)) result) }
        ensures value { IfOk result (λ x. UnwrapsOrElse (value_at self.old.slots (place_of K.eq self.old.slots (key_hash (K.hash_input key.now)) key.now)) (λ value. (copy : K) × AnswersCopy K.is_clone F.FnOnce f key.now copy (Ok value)) x.now) }
        ensures refused { (e : E) → result ≡ Err (Function e) → (copy : K) × AnswersCopy K.is_clone F.FnOnce f key.now copy (Err e) }
        ensures found { IsSome (place_of K.eq self.old.slots (key_hash (K.hash_input key.now)) key.now) → IsOk result }
    {
        // By hand: behind the conversion of `?` the proof would lose that this is the very error of the call.
        match self.try_place_with(key, f) {
            Ok(place) => Ok(self.value_mut(place)),
            Err(error) => Err(error),
        }
    }

    // The same as `place_with`, with a function that may fail.
    fn try_place_with<E, F: FnOnce(&K) -> std::result::Result<V, E>>(
        &mut self,
        key: &K,
        f: F,
    ) -> std::result::Result<usize, Refusal<E>>
    where
        K: Clone + Drop,
        V: Drop,
        requires callable { place_of K.eq self.old.slots (key_hash (K.hash_input key.now)) key.now ≡ None → F.IsAlwaysCallable f }
        ensures hit { IfSome (place_of K.eq self.old.slots (key_hash (K.hash_input key.now)) key.now) (λ i. (result ≡ Ok i) × (self.new ≡ touched self.old i)) }
        ensures filled { IfOk result (λ i. place_of K.eq self.old.slots (key_hash (K.hash_input key.now)) key.now ≡ None → (i ≡ place_to_fill K.eq self.old.slots (key_hash (K.hash_input key.now)) key.now) × ((copy : K) × (value : V) × AnswersCopy K.is_clone F.FnOnce f key.now copy (Ok value) × (self.new ≡ filled self.old i copy value))) }
        ensures held { IfOk result (λ i. IsSome (slot_at self.new.slots i)) }
        ensures refused { (e : E) → result ≡ Err (Function e) → (copy : K) × AnswersCopy K.is_clone F.FnOnce f key.now copy (Err e) }
        ensures unchanged { OnErr result (self.new ≡ self.old) }
    {
        match self.place_of(key) {
            Some(place) => {
                self.touch(place);
                Ok(place)
            }
            None => {
                let place = self.place_to_fill(key);
                // Matches, since neither error converts to a `Refusal`.
                let copy = match key.clone() {
                    Ok(copy) => copy,
                    Err(_) => return Err(Refusal::OutOfMemory),
                };
                match f(&copy) {
                    Ok(value) => {
                        self.fill(place, copy, value);
                        Ok(place)
                    }
                    Err(error) => Err(Refusal::Function(error)),
                }
            }
        }
    }

    fn place_of(&self, key: &K) -> Option<usize>
        ensures place { result ≡ place_of K.eq self.now.slots (key_hash (K.hash_input key.now)) key.now }
        ensures within { IfSome result (λ i. i < length self.now.slots) }
        ensures held { IfSome result (λ i. IsSome (slot_at self.now.slots i)) }
    {
        let hash = hash_of(key);
        let first = first_place(self.slots.len(), hash);
        if CacheSlot::holds(&self.slots[first], key) {
            return Some(first);
        }
        let second = second_place(self.slots.len(), hash);
        if CacheSlot::holds(&self.slots[second], key) {
            return Some(second);
        }
        None
    }

    fn place_to_fill(&self, key: &K) -> usize
        ensures place { result ≡ place_to_fill K.eq self.now.slots (key_hash (K.hash_input key.now)) key.now }
        ensures within { result < length self.now.slots }
    {
        let hash = hash_of(key);
        let first = first_place(self.slots.len(), hash);
        if CacheSlot::holds(&self.slots[first], key) {
            return first;
        }
        let second = second_place(self.slots.len(), hash);
        if CacheSlot::holds(&self.slots[second], key) {
            return second;
        }
        CacheSlot::older(&self.slots[first], &self.slots[second], first, second)
    }

    fn value(&self, place: usize) -> &V
        requires { IsSome (slot_at self.now.slots place) }
        ensures { value_at self.now.slots (Some place) ≡ Some result.now }
    {
        match &self.slots[place] {
            Some(held) => &held.value,
            None => unreachable!(),
        }
    }

    fn value_mut(&mut self, place: usize) -> &mut V
        requires { IsSome (slot_at self.old.slots place) }
        ensures* writes_back { sem 𝓛 (lends_value K.row V.row self.entry place result) }
        ensures value { value_at self.old.slots (Some place) ≡ Some result.now }
    {
        CacheSlot::value_of(&mut self.slots[place])
    }

    fn hit(&mut self, place: usize) -> &mut V
        requires { IsSome (slot_at self.old.slots place) }
        ensures* writes_back { sem 𝓛 (lends_hit K.row V.row self.entry place result) }
        ensures value { value_at self.old.slots (Some place) ≡ Some result.now }
    {
        self.touch(place);
        self.value_mut(place)
    }

    fn touch(&mut self, place: usize)
        requires { place < length self.old.slots }
        ensures { self.new ≡ touched self.old place }
    {
        let age = self.access_counter;
        CacheSlot::set_age(&mut self.slots[place], age);
        self.access_counter = age.wrapping_add(2);
    }

    fn fill(&mut self, place: usize, key: K, value: V)
    where
        K: Drop,
        V: Drop,
        requires { place < length self.old.slots }
        ensures { self.new ≡ filled self.old place key value }
    {
        let last_access = self.access_counter;
        self.slots[place] = Some(CacheSlot {
            last_access,
            key,
            value,
        });
        self.access_counter = last_access.wrapping_add(2);
    }
}

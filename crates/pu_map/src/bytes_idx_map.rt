//! A map whose keys are bytes that were hashed before, in the order of insertion.
//!
//! Entries are only added, so an entry's number never changes, nor does what `get_index` says of its hash and key. A key is found
//! by its hash and its bytes: under two hashes it stands twice. A look-up and an insert take constant time on average, and a key
//! that is there isn't copied again.
ghost use Rattle.std.specs.Prelude.{◌≡◌, ℕ, ◌+◌, ◌-◌, ◌<◌, ◌≤◌, ◌^◌, ◌↔◌, List, [], ◌∷◌, ◌++◌, length, slice_get, Some, Err, IsTrue, IsOk, IsSome, IfSome, IfNone, IfOk, IfErr, OnOk, OnErr, option_copied};
ghost use Rattle.std.specs.Borrow.{sem};
ghost use Rattle.pu_base.specs.declared.error.PolarsUtilsError.TheVariants as refusal;
ghost use Rattle.pu_map.specs.Keys.{Key, IsAbsent, AreDistinct};
ghost use Rattle.pu_map.specs.BytesMap.{StandsAt};

mod entry;
mod iter;

use crate::key_table::KeyTable;
pub use entry::{Entry, OccupiedEntry, VacantEntry};
pub use iter::{HashKeys, Values};
use pu_base::Result;
use std::alloc::Global;
use std::convert::AsSlice;
use std::marker::Model;

/// A map from a hash and bytes to a value. Contracts see its keys and values by their numbers, in the order of insertion, and how
/// many keys, and bytes of keys, may be put in without taking memory.
#[derive(Drop)]
pub struct BytesIndexMap<V> {
    table: KeyTable,
    values: Vec<V>,
}

impl<V> Model for BytesIndexMap<V> {
    ghost use Rattle.std.specs.Prelude.{◌≡◌, ◌-◌, min, length, vec_len, vec_capacity};
    ghost use Rattle.pu_map.specs.BytesMap.{BytesMap, bytes_map_code};

    ghost Value = { BytesMap V };

    ghost coded = { bytes_map_code V.code };

    ghost view = { λ m. record {
      keys = m.table.keys;
      values = m.values.items;
      room = min m.table.room (vec_capacity m.values - vec_len m.values);
      key_room = m.table.key_room;
    } };

    ghost invariant = { λ m. length m.table.keys ≡ length m.values.items };
}

impl<V> BytesIndexMap<V> {
    ghost use Rattle.pu_map.specs.BytesMapLends.{lends_value, lends_inserted};
    ghost use Rattle.pu_map.specs.Entry.{entry_map_ref, IsEntryFor};

    /// A map without entries, which takes no memory. The seed, made odd, spreads the hashes over the table.
    pub fn new(alloc: Global, seed: u64) -> BytesIndexMap<V>
        ensures keys { result.keys ≡ [] }
        ensures values { result.values ≡ [] }
    {
        BytesIndexMap {
            table: KeyTable::new(alloc, seed),
            values: Vec::new(alloc),
        }
    }

    /// Makes room for so many entries more, but for the bytes of their keys. It fails only for want of memory.
    pub fn reserve(&mut self, alloc: Global, additional: usize) -> Result<()>
        ensures room { OnOk result (additional ≤ self.new.room) }
        ensures succeeds { additional ≤ self.old.room → IsOk result }
        ensures keys { self.new.keys ≡ self.old.keys }
        ensures values { self.new.values ≡ self.old.values }
        ensures more_room { self.old.room ≤ self.new.room }
        ensures key_room { self.new.key_room ≡ self.old.key_room }
        ensures memory { OnErr result (result ≡ Err refusal.OutOfMemory) }
    {
        self.table.reserve(alloc, additional)?;
        self.values.reserve(additional)?;
        Ok(())
    }

    /// How many entries there are.
    pub fn len(&self) -> u32
        ensures keys { result ≡ length self.now.keys }
        ensures values { result ≡ length self.now.values }
        ensures distinct { AreDistinct self.now.keys }
    {
        self.table.len() as u32
    }

    /// Whether there is no entry.
    pub fn is_empty(&self) -> bool
        ensures { IsTrue result ↔ (length self.now.keys ≡ 0) }
    {
        self.table.len() == 0
    }

    /// The value of a key under its hash: None exactly where the map lacks it.
    #[inline(always)]
    pub fn get(&self, hash: u64, key: &[u8]) -> Option<&V>
        ensures found { IfSome result (λ value. (i : ℕ) × StandsAt self.now i hash key.now × (slice_get self.now.values i ≡ Some value.now)) }
        ensures absent { IfNone result (IsAbsent self.now.keys hash key.now) }
        ensures distinct { AreDistinct self.now.keys }
    {
        let index = self.table.find(hash, key)?;
        Some(&self.values[index as usize])
    }

    /// The place of a key under its hash: its entry, or the one that it would get.
    #[inline(always)]
    pub fn entry<K: AsSlice<u8> + Drop>(&mut self, hash: u64, key: K) -> Entry<'_, K, V>
        ensures entry { IsEntryFor self.old hash (K.items key) result }
        ensures distinct { AreDistinct self.old.keys }
        ensures same_reference { (entry_map_ref result).ghost_name ≡ self.entry.ghost_name }
    {
        match self.table.find(hash, key.as_slice()) {
            Some(index) => Entry::Occupied(OccupiedEntry { map: self, index }),
            None => Entry::Vacant(VacantEntry {
                map: self,
                hash,
                key,
            }),
        }
    }

    /// The hash, the key and the value of an entry by its number: None exactly where there are no so many.
    pub fn get_index(&self, idx: u32) -> Option<(u64, &[u8], &V)>
        ensures present { IsSome result ↔ (idx < length self.now.keys) }
        ensures key { IfSome result (λ e. StandsAt self.now idx e.0 e.1.now) }
        ensures value { IfSome result (λ e. slice_get self.now.values idx ≡ Some e.2.now) }
    {
        if idx < self.len() {
            Some(self.get_index_unchecked(idx))
        } else {
            None
        }
    }

    /// The hash, the key and the value of an entry by its number.
    #[inline(always)]
    pub fn get_index_unchecked(&self, idx: u32) -> (u64, &[u8], &V)
        requires { idx < length self.now.keys }
        ensures key { StandsAt self.now idx result.0 result.1.now }
        ensures value { slice_get self.now.values idx ≡ Some result.2.now }
    {
        let (hash, key) = self.table.key(idx as usize);
        (hash, key, &self.values[idx as usize])
    }

    /// The hashes and keys, in the order of insertion.
    pub fn iter_hash_keys(&self) -> HashKeys<'_>
        ensures { result ≡ self.now.keys }
    {
        HashKeys {
            table: &self.table,
            index: 0,
        }
    }

    /// The values, in the order of insertion.
    pub fn iter_values(&self) -> Values<'_, V>
        ensures { result ≡ self.now.values }
    {
        Values {
            values: self.values.as_slice(),
        }
    }

    // The number of the new entry, or the value where there is no memory.
    #[inline(always)]
    fn push(
        &mut self,
        alloc: Global,
        hash: u64,
        key: &[u8],
        value: V,
    ) -> std::result::Result<usize, V>
        requires few { length self.old.keys < 2 ^ 32 - 1 }
        requires short { length key.now < 2 ^ 32 }
        requires absent { IsAbsent self.old.keys hash key.now }
        ensures index { IfOk result (λ i. i ≡ length self.old.values) }
        ensures keys { OnOk result (self.new.keys ≡ self.old.keys ++ (hash, key.now) ∷ []) }
        ensures values { OnOk result (self.new.values ≡ self.old.values ++ value ∷ []) }
        ensures kept { OnErr result ((self.new.keys ≡ self.old.keys) × (self.new.values ≡ self.old.values)) }
        ensures returned { IfErr result (λ v. v ≡ value) }
        ensures succeeds { 0 < self.old.room → length key.now ≤ self.old.key_room → IsOk result }
        ensures room { self.old.room ≤ self.new.room + 1 }
        ensures key_room { self.old.key_room ≤ self.new.key_room + length key.now }
    {
        if self.values.reserve(1).is_err() || self.table.push(alloc, hash, key).is_err() {
            return Err(value);
        }
        let index = self.values.len();
        self.values.push_reserved(value);
        Ok(index)
    }

    // Puts a key in that the map lacks, and lends its value.
    #[inline(always)]
    fn insert_vacant(
        &mut self,
        alloc: Global,
        hash: u64,
        key: &[u8],
        value: V,
    ) -> std::result::Result<&mut V, V>
        requires few { length self.old.keys < 2 ^ 32 - 1 }
        requires short { length key.now < 2 ^ 32 }
        requires absent { IsAbsent self.old.keys hash key.now }
        ensures* writes_back { sem 𝓛 (lends_inserted V.row self.entry hash key.now result) }
        ensures value { IfOk result (λ x. x.now ≡ value) }
        ensures returned { IfErr result (λ v. v ≡ value) }
        ensures succeeds { 0 < self.old.room → length key.now ≤ self.old.key_room → IsOk result }
    {
        // By hand: behind the conversion of `?` the proof would lose that this is the very value that came in.
        let index = match self.push(alloc, hash, key, value) {
            Ok(index) => index,
            Err(value) => return Err(value),
        };
        Ok(self.value_mut(index))
    }

    #[inline(always)]
    fn value_mut(&mut self, index: usize) -> &mut V
        requires { index < length self.old.values }
        ensures* writes_back { sem 𝓛 (lends_value V.row self.entry index result) }
        ensures value { slice_get self.old.values index ≡ Some result.now }
    {
        &mut self.values[index]
    }
}

/// What stands at a number stays there, since a call adds keys at the end alone.
pub fn a_key_keeps_its_number()
    ensures { (keys more : List Key) (i : ℕ) (key : Key) → slice_get keys i ≡ Some key → slice_get (keys ++ more) i ≡ Some key }
{}

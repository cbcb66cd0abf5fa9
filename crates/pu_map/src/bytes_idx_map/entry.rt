//! A key's place in a `BytesIndexMap`: at its entry, or where the map lacks it.
ghost use Rattle.std.specs.Prelude.{◌≡◌, ◌+◌, ◌-◌, ◌<◌, ◌≤◌, ◌^◌, length, slice_get, Some, IsOk, IfOk, IfErr};
ghost use Rattle.std.specs.Borrow.{sem};
ghost use Rattle.pu_map.specs.Keys.{IsAbsent};

use super::BytesIndexMap;
use std::alloc::Global;
use std::convert::AsSlice;

/// The place of a key that the map has, or lacks.
#[derive(Drop)]
pub enum Entry<'a, K: AsSlice<u8>, V> {
    Occupied(OccupiedEntry<'a, V>),
    Vacant(VacantEntry<'a, K, V>),
}

/// An entry that the map has.
#[derive(Drop)]
pub struct OccupiedEntry<'a, V> {
    pub(crate) map: &'a mut BytesIndexMap<V>,
    pub(crate) index: u32,
    ghost within: { index < length map.now.values },
}

/// A key that the map lacks, as it was asked for: bytes, or what lends them.
#[derive(Drop)]
pub struct VacantEntry<'a, K: AsSlice<u8>, V> {
    pub(crate) map: &'a mut BytesIndexMap<V>,
    pub(crate) hash: u64,
    pub(crate) key: K,
    ghost absent: { IsAbsent map.now.keys hash (K.items key) },
}

impl<'a, V> OccupiedEntry<'a, V> {
    ghost use Rattle.pu_map.specs.BytesMapLends.{lends_value};
    ghost use Rattle.pu_map.specs.Entry.{occupied_map, occupied_index};

    /// The entry's number.
    pub fn index(&self) -> u32
        ensures { result ≡ occupied_index self.now }
    {
        self.index
    }

    /// The entry's value, for writing.
    pub fn into_mut(self) -> &'a mut V
        ensures* writes_back { sem 𝓛 (lends_value V.row self.entry.map (occupied_index self.entry) result) }
        ensures value { slice_get (occupied_map self.entry).values (occupied_index self.entry) ≡ Some result.now }
    {
        let OccupiedEntry { map, index } = self;
        map.value_mut(index as usize)
    }
}

impl<'a, K: AsSlice<u8> + Drop, V> VacantEntry<'a, K, V> {
    ghost use Rattle.pu_map.specs.BytesMapLends.{lends_inserted};
    ghost use Rattle.pu_map.specs.Entry.{vacant_map, vacant_key};

    /// The number that the entry would get.
    pub fn index(&self) -> u32
        ensures { result ≡ length (vacant_map self.now).keys }
    {
        self.map.len()
    }

    /// Puts the value under the key, or hands it back where there is no memory; the map is then as before.
    ///
    /// Where the map has room, memory is taken for the bytes of the key alone.
    pub fn insert(self, alloc: Global, value: V) -> Result<&'a mut V, V>
        requires few { length (vacant_map self).keys < 2 ^ 32 - 1 }
        requires short { length (vacant_key self) < 2 ^ 32 }
        ensures* writes_back { sem 𝓛 (lends_inserted V.row self.entry.map self.entry.hash (vacant_key self.entry) result) }
        ensures value { IfOk result (λ x. x.now ≡ value) }
        ensures returned { IfErr result (λ v. v ≡ value) }
        ensures succeeds { 0 < (vacant_map self.entry).room → length (vacant_key self.entry) ≤ (vacant_map self.entry).key_room → IsOk result }
    {
        let VacantEntry { map, hash, key } = self;
        map.insert_vacant(alloc, hash, key.as_slice(), value)
    }
}

//! The two maps under the same work: filling them in the order of the keys, and finding the keys in another order.
ghost use Rattle.std.specs.Prelude.{◌<◌, ◌≤◌, ◌^◌};

use pu_map::bytes_idx_map::Entry;
use pu_map::{BytesIndexMap, PlHashMap};
use std::alloc::{AllocError, Global};
use std::collections::HashMap;
use std::hash::{FoldHasher, Hash, Hasher};

// The step from a key that is looked up to the next one.
const STRIDE: usize = 600_011;

/// A map from keys of bytes to their numbers.
pub trait ByteMap: Sized {
    /// A map from each key to its number.
    fn filled(alloc: Global, keys: &[Vec<u8>]) -> Result<Self, AllocError>;

    /// How many keys there are.
    fn count(&self) -> u64;

    /// The number under a key.
    fn number(&self, key: &Vec<u8>) -> Option<u32>;

    /// The sum of the numbers under the keys, looked up in an order that jumps about.
    fn sum_of_found(&self, keys: &[Vec<u8>]) -> u64 {
        let mut sum = 0u64;
        let mut place = 0usize;
        for _ in 0..keys.len() {
            if let Some(key) = keys.get(place) {
                sum = sum.wrapping_add(u64::from(self.number(key).unwrap_or(0)));
            }
            place = place.wrapping_add(STRIDE) % keys.len();
        }
        sum
    }
}

impl ByteMap for BytesIndexMap<u32> {
    fn filled(alloc: Global, keys: &[Vec<u8>]) -> Result<BytesIndexMap<u32>, AllocError> {
        let mut map = BytesIndexMap::new(alloc, 1);
        for key in keys {
            put(alloc, &mut map, key)?;
        }
        Ok(map)
    }

    fn count(&self) -> u64 {
        u64::from(self.len())
    }

    #[inline(always)]
    fn number(&self, key: &Vec<u8>) -> Option<u32> {
        self.get(hash_of(key), key).copied()
    }
}

impl ByteMap for PlHashMap<Vec<u8>, u32> {
    fn filled(alloc: Global, keys: &[Vec<u8>]) -> Result<PlHashMap<Vec<u8>, u32>, AllocError> {
        let mut map = HashMap::new(alloc);
        let mut number = 0u32;
        for key in keys {
            map.insert(key.clone()?, number)?;
            number = number.wrapping_add(1);
        }
        Ok(map)
    }

    fn count(&self) -> u64 {
        self.len() as u64
    }

    #[inline(always)]
    fn number(&self, key: &Vec<u8>) -> Option<u32> {
        self.get(key).copied()
    }
}

// Puts a key in under the next number, where the map lacks it.
fn put(alloc: Global, map: &mut BytesIndexMap<u32>, key: &Vec<u8>) -> Result<(), AllocError> {
    let number = map.len();
    if number == u32::MAX || key.len() > u32::MAX as usize {
        return Err(AllocError);
    }
    match map.entry(hash_of(key), key.as_slice()) {
        Entry::Occupied(_entry) => Ok(()),
        // The error is the number handed back, which converts to no other error.
        Entry::Vacant(entry) => match entry.insert(alloc, number) {
            Ok(_) => Ok(()),
            Err(_) => Err(AllocError),
        },
    }
}

// The hash that std's map takes of a key too.
#[inline(always)]
fn hash_of(key: &Vec<u8>) -> u64 {
    let mut state = FoldHasher::default();
    key.hash(&mut state);
    state.finish()
}

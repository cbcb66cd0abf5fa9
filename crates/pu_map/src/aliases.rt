//! The maps and sets of the engine, over std's fixed hash states.
ghost use Rattle.std.specs.Prelude.{IfOk, OnErr, ◌≡◌, ◌≤◌, ℕ, Err};
ghost use Rattle.pu_base.specs.declared.error.PolarsUtilsError.TheVariants as refusal;

use indexmap::{IndexMap, IndexSet};
use pu_base::Result;
use std::alloc::Global;
use std::collections::{HashMap, HashSet};
use std::hash::{BuildHasherDefault, FoldHasher, Hash};

/// The hash state of the maps: std's, whose seed is fixed.
pub type PlRandomState = BuildHasherDefault<FoldHasher>;

/// The hash state for hashes of which all bits are to be good: the same.
pub type PlRandomStateQuality = BuildHasherDefault<FoldHasher>;

/// A map that is found by hash.
pub type PlHashMap<K, V> = HashMap<K, V, PlRandomState>;

/// A set that is found by hash.
pub type PlHashSet<V> = HashSet<V, PlRandomState>;

/// A map in the order of insertion.
pub type PlIndexMap<K, V> = IndexMap<K, V, PlRandomState>;

/// A set in the order of insertion.
pub type PlIndexSet<K> = IndexSet<K, PlRandomState>;

/// Maps and sets that are made empty, or empty with room.
pub trait InitHashMaps {
    type HashMap;

    /// The map or set has nothing in it.
    ghost is_empty: { Self.HashMap → Type 0 };

    /// How many entries more fit without taking memory.
    ghost room: { Self.HashMap → ℕ };

    /// An empty map or set, which takes no memory.
    fn new(alloc: Global) -> Self::HashMap
        ensures { is_empty result };

    /// An empty map or set with room. It fails only for want of memory.
    fn with_capacity(alloc: Global, capacity: usize) -> Result<Self::HashMap>
        ensures empty { IfOk result is_empty }
        ensures makes_room { IfOk result (λ m. capacity ≤ room m) }
        ensures memory { OnErr result (result ≡ Err refusal.OutOfMemory) };
}

impl<K: Eq + Hash, V> InitHashMaps for PlHashMap<K, V> {
    ghost use Rattle.std.specs.HashMap.{IsEmpty, spare};

    type HashMap = PlHashMap<K, V>;

    ghost is_empty = { IsEmpty };

    ghost room = { spare };

    fn new(alloc: Global) -> PlHashMap<K, V> {
        HashMap::new(alloc)
    }

    fn with_capacity(alloc: Global, capacity: usize) -> Result<PlHashMap<K, V>> {
        Ok(HashMap::with_capacity(alloc, capacity)?)
    }
}

impl<K: Eq + Hash> InitHashMaps for PlHashSet<K> {
    ghost use Rattle.std.specs.HashSet.{IsEmpty, spare};

    type HashMap = PlHashSet<K>;

    ghost is_empty = { IsEmpty };

    ghost room = { spare };

    fn new(alloc: Global) -> PlHashSet<K> {
        HashSet::new(alloc)
    }

    fn with_capacity(alloc: Global, capacity: usize) -> Result<PlHashSet<K>> {
        Ok(HashSet::with_capacity(alloc, capacity)?)
    }
}

impl<K: Eq + Hash, V> InitHashMaps for PlIndexMap<K, V> {
    ghost use Rattle.std.specs.HashMap.{IsEmpty};
    ghost use Rattle.indexmap.specs.IndexMap.{spare};

    type HashMap = PlIndexMap<K, V>;

    ghost is_empty = { IsEmpty };

    ghost room = { spare };

    fn new(alloc: Global) -> PlIndexMap<K, V> {
        IndexMap::new(alloc)
    }

    fn with_capacity(alloc: Global, capacity: usize) -> Result<PlIndexMap<K, V>> {
        Ok(IndexMap::with_capacity(alloc, capacity)?)
    }
}

impl<K: Eq + Hash> InitHashMaps for PlIndexSet<K> {
    ghost use Rattle.std.specs.HashSet.{IsEmpty};
    ghost use Rattle.indexmap.specs.IndexSet.{spare};

    type HashMap = PlIndexSet<K>;

    ghost is_empty = { IsEmpty };

    ghost room = { spare };

    fn new(alloc: Global) -> PlIndexSet<K> {
        IndexSet::new(alloc)
    }

    fn with_capacity(alloc: Global, capacity: usize) -> Result<PlIndexSet<K>> {
        Ok(IndexSet::with_capacity(alloc, capacity)?)
    }
}

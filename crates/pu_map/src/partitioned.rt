//! Maps, one a partition of the hashes.
ghost use Rattle.std.specs.Prelude.{◌≡◌, ◌<◌, length, slice_get, Some};
ghost use Rattle.std.specs.Borrow.{sem};
ghost use Rattle.pu_partition.specs.Partitions.{partition_of};
ghost use Rattle.pu_map.specs.Partitioned.{lends_map, lends_maps};

use crate::aliases::PlHashMap;
use pu_partition::hash_to_partition;
use std::marker::Model;

/// A hash map for each partition of the hashes.
pub type PartitionedHashMap<K, V> = Partitioned<PlHashMap<K, V>>;

/// A map for each partition of the hashes. Contracts see the list of the maps.
#[derive(Drop)]
pub struct Partitioned<M> {
    inner: Vec<M>,
}

impl<M> Model for Partitioned<M> {
    ghost use Rattle.std.specs.Prelude.{List};

    ghost Value = { List M };

    ghost view = { λ p. p.inner.items };
}

impl<M> Partitioned<M> {
    /// One partition for each of these maps.
    pub fn new(inner: Vec<M>) -> Partitioned<M>
        requires { 0 < length inner.items }
        ensures { result ≡ inner.items }
    {
        Partitioned { inner }
    }

    /// The partition of a hash.
    pub fn partition(&self, h: u64) -> usize
        requires { 0 < length self.now }
        ensures value { result ≡ partition_of h (length self.now) }
        ensures within { result < length self.now }
    {
        hash_to_partition(h, self.inner.len())
    }

    /// The map of a hash's partition.
    pub fn map(&self, h: u64) -> &M
        requires { 0 < length self.now }
        ensures { slice_get self.now (partition_of h (length self.now)) ≡ Some result.now }
    {
        &self.inner[self.partition(h)]
    }

    /// The map of a hash's partition, for writing.
    pub fn map_mut(&mut self, h: u64) -> &mut M
        requires { 0 < length self.old }
        ensures* writes_back { sem 𝓛 (lends_map M.row self.entry (partition_of h (length self.entry.now)) result) }
        ensures value { slice_get self.old (partition_of h (length self.old)) ≡ Some result.now }
    {
        let partition = self.partition(h);
        &mut self.inner[partition]
    }

    /// The maps.
    pub fn inner(&self) -> &[M]
        ensures { result.now ≡ self.now }
    {
        self.inner.as_slice()
    }

    /// The maps, for writing. The other calls need one map at least afterwards too.
    pub fn inner_mut(&mut self) -> &mut Vec<M>
        ensures* writes_back { sem 𝓛 (lends_maps M.row self.entry result) }
        ensures value { result.now.items ≡ self.old }
    {
        &mut self.inner
    }
}

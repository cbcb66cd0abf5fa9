// Hashes to partitions by a seed.
ghost use Rattle.std.specs.Prelude.{◌≡◌, ◌*◌, ◌%◌, ◌^◌, ◌<◌};
ghost use Rattle.pu_order.specs.Hashing.{multiplier_of};
ghost use Rattle.pu_partition.specs.Partitions.{partition_of};

use crate::hashing::folded_multiply;
pub use pu_partition::hash_to_partition;
use std::marker::Model;

/// Partitions hashes by a seed: partitioners of one number of partitions and one seed agree on every hash.
#[derive(Clone, Drop)]
pub struct HashPartitioner {
    num_partitions: usize,
    seed: u64,
}

impl Model for HashPartitioner {
    ghost use Rattle.std.specs.Prelude.{◌<◌};
    ghost use Rattle.pu_order.specs.Partitioning.{Partitioning};

    ghost Value = { Partitioning };

    ghost view = { λ p. record { parts = p.num_partitions; multiplier = p.seed } };

    ghost invariant = { λ p. 0 < p.num_partitions };
}

impl HashPartitioner {
    /// A partitioner of `num_partitions`, of which there is one at least.
    pub fn new(num_partitions: usize, seed: u64) -> Self
        requires { 0 < num_partitions }
        ensures parts { result.parts ≡ num_partitions }
        ensures multiplier { result.multiplier ≡ multiplier_of seed }
        ensures odd { result.multiplier % 2 ≡ 1 }
    {
        let seed = folded_multiply(seed ^ 0x85921e81c41226a0, 0x3bc1d0faba166294);
        let seed = folded_multiply(seed, 0xfbde893e21a73756);
        HashPartitioner {
            num_partitions,
            seed: seed | 1,
        }
    }

    /// The partition of a hash, which is below the number of partitions.
    pub fn hash_to_partition(&self, hash: u64) -> usize
        ensures value { result ≡ partition_of (hash * self.now.multiplier % 2 ^ 64) self.now.parts }
        ensures below { result < self.now.parts }
    {
        hash_to_partition(hash.wrapping_mul(self.seed), self.num_partitions)
    }

    /// How many partitions there are.
    pub fn num_partitions(&self) -> usize
        ensures parts { result ≡ self.now.parts }
        ensures some { 0 < result }
    {
        self.num_partitions
    }
}

// Hashes to partitions: each hash has one of n partitions, by where it lies among the 64-bit numbers.
#![tactic(auto)]

ghost use Rattle.std.specs.Prelude.{◌≡◌, ◌<◌};
ghost use Rattle.pu_partition.specs.Partitions.{partition_of};

/// The partition of a hash among `n_partitions`: `floor(h * n_partitions / 2^64)`, so 0 where there are none.
pub fn hash_to_partition(h: u64, n_partitions: usize) -> usize
    ensures value { result ≡ partition_of h n_partitions }
    ensures below { 0 < n_partitions → result < n_partitions }
{
    ((h as u128 * n_partitions as u128) >> 64) as usize
}

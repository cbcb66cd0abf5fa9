//! Maps, caches and sketches.
#![tactic(auto)]

pub mod aliases;
pub mod bytes_idx_map;
pub mod cache;
pub mod cached_func;
mod key_table;
pub mod partitioned;
pub mod sketch;

pub use aliases::{
    InitHashMaps, PlHashMap, PlHashSet, PlIndexMap, PlIndexSet, PlRandomState, PlRandomStateQuality,
};
pub use bytes_idx_map::BytesIndexMap;
pub use cache::FastFixedCache;
pub use cached_func::FastCachedFunc;
// A crate can name a map in a contract only if the types of its fields are exported.
#[doc(hidden)]
pub use key_table::{KeyTable, Link};
pub use partitioned::PartitionedHashMap;
pub use sketch::CardinalitySketch;

// Lists: arenas, small vectors, rings, searches and readers.
#![tactic(auto)]

pub mod chunk_id;
pub mod chunks;
pub mod fmt;
pub mod idx;
pub mod indexable;
pub mod iterators;
pub mod mem_reader;
pub mod mem_slice;
pub mod ring;
pub mod search;
pub mod slices;
pub mod unit_vec;
pub mod vecs;

pub use chunk_id::{ChunkId, DEFAULT_CHUNK_BITS};
pub use chunks::Chunks;
pub use idx::{AtomicIdxSize, IdxSize, NonZeroIdxSize, NullableIdxSize, ToIdx, check_bounds};
pub use indexable::Indexable;
pub use iterators::{
    EnumerateIdx, all_equal, collect_vec, enumerate_idx, enumerate_u32, eq_by_, partial_cmp_by_,
    try_collect, try_collect_vec,
};
pub use mem_reader::MemReader;
pub use mem_slice::MemSlice;
pub use pu_base::{Arena, Node, arena};
pub use ring::FixedRingBuffer;
pub use search::{
    exponential_search_by, find_first_ge_index, find_first_gt_index, partition_point_exponential,
};
pub use slices::{
    SliceAble, is_sorted_ascending, load_padded_le_u64, max_value, min_value, range_portion,
};
pub use unit_vec::{IdxVec, UnitVec};
pub use vecs::{convert, convert_owned, fill_or_alloc, inplace_zip_filtermap, push_unchecked};

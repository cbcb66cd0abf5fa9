// Order, nulls and hashing; and the names, errors and counts that stand in pu_base.
#![tactic(auto)]

pub mod clmul;
pub mod hashing;
pub mod nulls;
pub mod partitioner;
pub mod priority;
pub mod total_ord;

pub use clmul::{
    clmul64, portable_clmul64, portable_prefix_xorsum, portable_prefix_xorsum_inclusive,
    prefix_xorsum, prefix_xorsum_inclusive,
};
pub use hashing::{_boost_hash_combine, BytesHash, DirtyHash, folded_multiply};
pub use nulls::{Bounded, IsNull, NullCount};
pub use partitioner::{HashPartitioner, hash_to_partition};
pub use priority::Priority;
pub use pu_base::{
    PlSmallStr, PolarsUtilsError, Result, Steps, error, format_pl_smallstr, matches_any_order,
    pl_str, steps,
};
pub use total_ord::{ToTotalOrd, TotalEq, TotalHash, TotalOrd, TotalOrdWrap, string_to_total_ord};

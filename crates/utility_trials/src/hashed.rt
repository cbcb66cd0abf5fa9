// What a hasher makes of a value.
use pu_order::TotalHash;
use std::hash::{DefaultHasher, Hash, Hasher};

pub fn written<T: TotalHash>(value: &T) -> u64 {
    let mut hasher = DefaultHasher::new();
    value.tot_hash(&mut hasher);
    hasher.finish()
}

pub fn hashed<T: Hash>(value: &T) -> u64 {
    let mut hasher = DefaultHasher::new();
    value.hash(&mut hasher);
    hasher.finish()
}

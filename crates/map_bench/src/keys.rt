//! The keys: as many as are wanted, all different where they have eight bytes or more.

use std::alloc::{AllocError, Global};

// A product with an odd number differs for different factors, and its bytes look random.
const ODD: u64 = 0x9e37_79b9_7f4a_7c15;

/// The keys of the numbers below `count`.
pub fn keys(alloc: Global, count: u32, length: u8) -> Result<Vec<Vec<u8>>, AllocError> {
    let mut keys = Vec::with_capacity(alloc, count as usize)?;
    for number in 0..count {
        keys.push(key(alloc, number, length)?)?;
    }
    Ok(keys)
}

// The bytes of a product with the number, over and over.
fn key(alloc: Global, number: u32, length: u8) -> Result<Vec<u8>, AllocError> {
    let bytes = u64::from(number).wrapping_mul(ODD).to_le_bytes();
    let mut key = Vec::with_capacity(alloc, length as usize)?;
    for place in 0..length {
        key.push(bytes[place as usize % 8])?;
    }
    Ok(key)
}

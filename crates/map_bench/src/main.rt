//! Puts keys of bytes into a map, ours or std's, or looks them up there, and says how long that took.
#![tactic(auto)]

mod keys;
mod maps;
mod request;

use anyhow::{Context, Result};
use maps::ByteMap;
use pu_map::{BytesIndexMap, PlHashMap};
use request::{Kind, Request, Work};
use std::env;
use std::time::Instant;

/// Prints a checksum to standard output, and the nanoseconds of the work to standard error.
fn main(rt: HostRuntime) -> Result<()> {
    let mut words = Vec::new(rt.alloc());
    for word in env::args(&rt)?.skip(1) {
        words.push(word)?;
    }
    let request = Request::read(words.as_slice()).context(
        "usage: map_bench KEYS LENGTH ours|std insert|find",
    )?;
    let keys = keys::keys(rt.alloc(), request.count, request.length)?;
    let (checksum, nanos) = match request.kind {
        Kind::Ours => measure::<BytesIndexMap<u32>>(&rt, keys.as_slice(), request.work)?,
        Kind::Std => measure::<PlHashMap<Vec<u8>, u32>>(&rt, keys.as_slice(), request.work)?,
    };
    println!(rt; "{checksum}")?;
    eprintln!(rt; "{nanos}")?;
    Ok(())
}

// A checksum of the work, and its nanoseconds.
fn measure<M: ByteMap + Drop>(
    rt: &HostRuntime,
    keys: &[Vec<u8>],
    work: Work,
) -> Result<(u64, u128)> {
    let start = Instant::now(rt)?;
    let map = M::filled(rt.alloc(), keys)?;
    if work == Work::Insert {
        return Ok((map.count(), start.elapsed(rt)?.as_nanos()));
    }
    let start = Instant::now(rt)?;
    let sum = map.sum_of_found(keys);
    Ok((sum, start.elapsed(rt)?.as_nanos()))
}

// Caches of a fixed size.
use crate::shared::can_be_shared;
use pu_map::FastFixedCache;
use std::alloc::{AllocError, Global};
use std::hash::{FoldHasher, Hash, Hasher};
use std::test::Fail;

fn remember(cache: &mut FastFixedCache<u32, u32>, key: u32, value: u32) {
    cache.insert(key, value);
}

fn remembered(cache: &mut FastFixedCache<u32, u32>, key: u32) -> Option<u32> {
    cache.get(&key).copied()
}

fn replace(cache: &mut FastFixedCache<u32, u32>, key: u32, value: u32) {
    if let Some(held) = cache.get_mut(&key) {
        *held = value;
    }
}

#[test]
fn a_cache_of_the_least_size(rt: HostRuntime) -> Result<(), Fail> {
    let mut cache = FastFixedCache::<u32, u32>::new(rt.alloc(), 0)?;
    remember(&mut cache, 5, 1);
    remember(&mut cache, 5, 2);
    assert!(rt; remembered(&mut cache, 5) == Some(2));
    assert!(rt; remembered(&mut cache, 6) == None);
    replace(&mut cache, 5, 3);
    assert!(rt; remembered(&mut cache, 5) == Some(3));
    can_be_shared(&cache);
    Ok(())
}

#[test]
fn a_cloned_cache_finds_the_same(rt: HostRuntime) -> Result<(), Fail> {
    let mut cache = FastFixedCache::<u32, u32>::new(rt.alloc(), 0)?;
    remember(&mut cache, 5, 1);
    let mut copy = cache.try_clone(rt.alloc())?;
    assert!(rt; remembered(&mut copy, 5) == Some(1));
    Ok(())
}

fn doubled(cache: &mut FastFixedCache<u32, u32>, key: u32) -> Option<u32> {
    match cache.get_or_insert_with(&key, |k| k.wrapping_mul(2)) {
        Ok(value) => Some(*value),
        Err(_error) => None,
    }
}

fn small(cache: &mut FastFixedCache<u32, u32>, key: u32) -> Option<Result<u32, char>> {
    let Ok(made) = cache.try_get_or_insert_with(&key, |k| if *k < 10 { Ok(*k) } else { Err('l') })
    else {
        return None;
    };
    match made {
        Ok(value) => Some(Ok(*value)),
        Err(error) => Some(Err(error)),
    }
}

#[test]
fn a_cache_that_makes_what_it_lacks(rt: HostRuntime) -> Result<(), Fail> {
    let mut cache = FastFixedCache::<u32, u32>::new(rt.alloc(), 0)?;
    remember(&mut cache, 5, 1);
    assert!(rt; doubled(&mut cache, 5) == Some(1));
    assert!(rt; doubled(&mut cache, 6) == Some(12));
    assert!(rt; remembered(&mut cache, 6) == Some(12));
    assert!(rt; small(&mut cache, 6) == Some(Ok(12)));
    assert!(rt; small(&mut cache, 7) == Some(Ok(7)));
    assert!(rt; small(&mut cache, 11) == Some(Err('l')));
    assert!(rt; remembered(&mut cache, 11) == None);
    Ok(())
}

#[test]
fn a_full_cache_holds_what_its_places_take(rt: HostRuntime) -> Result<(), Fail> {
    let mut cache = FastFixedCache::<u32, u32>::new(rt.alloc(), 0)?;
    for key in 0..1000 {
        remember(&mut cache, key, key + 1);
        assert!(rt; remembered(&mut cache, key) == Some(key + 1));
    }
    let mut held = 0u32;
    for key in 0..1000 {
        if let Some(value) = remembered(&mut cache, key) {
            assert!(rt; value == key + 1);
            held = held.wrapping_add(1);
        }
    }
    assert!(rt; held == 16);
    Ok(())
}

// The two places of a key among sixteen: the top bits of two products with its hash.
fn places(key: u32) -> (u64, u64) {
    let mut state = FoldHasher::default();
    key.hash(&mut state);
    let hash = state.finish();
    let first = hash.wrapping_mul(0x2e623b55bc0c9073) >> 60;
    let second = hash.wrapping_mul(0x921932b06a233d39) >> 60;
    (first, second)
}

// Keys that all have the places 3 and 12.
fn rivals(alloc: Global) -> Result<Vec<u32>, AllocError> {
    let mut keys = Vec::new(alloc);
    for key in 0..4096u32 {
        if places(key) == (3, 12) {
            keys.push(key)?;
        }
    }
    Ok(keys)
}

#[test]
fn the_older_of_two_entries_is_pushed_out(rt: HostRuntime) -> Result<(), Fail> {
    let keys = rivals(rt.alloc())?;
    assert!(rt; keys.len() > 3);
    let mut cache = FastFixedCache::<u32, u32>::new(rt.alloc(), 16)?;
    remember(&mut cache, keys[0], 10);
    remember(&mut cache, keys[1], 11);
    assert!(rt; remembered(&mut cache, keys[0]) == Some(10));
    remember(&mut cache, keys[2], 12);
    assert!(rt; remembered(&mut cache, keys[1]) == None);
    assert!(rt; remembered(&mut cache, keys[0]) == Some(10));
    assert!(rt; remembered(&mut cache, keys[2]) == Some(12));
    remember(&mut cache, keys[3], 13);
    assert!(rt; remembered(&mut cache, keys[0]) == None);
    assert!(rt; remembered(&mut cache, keys[2]) == Some(12));
    assert!(rt; remembered(&mut cache, keys[3]) == Some(13));
    Ok(())
}

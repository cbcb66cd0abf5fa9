// Maps from bytes to values, in the order of insertion.
use crate::shared::can_be_shared;
use pu_map::BytesIndexMap;
use pu_map::bytes_idx_map::Entry;
use std::alloc::Global;
use std::test::Fail;

fn put(alloc: Global, map: &mut BytesIndexMap<u32>, hash: u64, key: &[u8], value: u32) -> bool {
    if map.len() >= 1 << 30 || key.len() >= 1 << 30 {
        return false;
    }
    match map.entry(hash, key) {
        Entry::Occupied(_) => false,
        Entry::Vacant(entry) => entry.insert(alloc, value).is_ok(),
    }
}

fn two_entries(alloc: Global) -> Result<BytesIndexMap<u32>, Fail> {
    let mut map = BytesIndexMap::<u32>::new(alloc, 7);
    map.reserve(alloc, 2)?;
    put(alloc, &mut map, 1, b"k", 10);
    put(alloc, &mut map, 2, b"k", 20);
    put(alloc, &mut map, 2, b"k", 30);
    Ok(map)
}

#[test]
fn a_key_under_two_hashes_stands_twice(rt: HostRuntime) -> Result<(), Fail> {
    let map = two_entries(rt.alloc())?;
    assert!(rt; map.len() == 2);
    assert!(rt; !map.is_empty());
    assert!(rt; map.get(1, b"k").copied() == Some(10));
    assert!(rt; map.get(3, b"k").copied() == None);
    assert!(rt; map.get(1, b"kk").copied() == None);
    can_be_shared(&map);
    Ok(())
}

#[test]
fn entries_by_their_numbers(rt: HostRuntime) -> Result<(), Fail> {
    let map = two_entries(rt.alloc())?;
    assert!(rt; map.get_index(2).is_none());
    let (hash, key, value) = map.get_index(1).ok_or("no entry")?;
    assert!(rt; hash == 2);
    assert!(rt; key == b"k".as_slice());
    assert!(rt; *value == 20);
    Ok(())
}

#[test]
fn an_entry_is_written(rt: HostRuntime) -> Result<(), Fail> {
    let mut map = two_entries(rt.alloc())?;
    if let Entry::Occupied(entry) = map.entry(1, b"k".as_slice()) {
        assert!(rt; entry.index() == 0);
        *entry.into_mut() = 11;
    }
    assert!(rt; map.get(1, b"k").copied() == Some(11));
    Ok(())
}

#[test]
fn iterators_keep_the_order_of_insertion(rt: HostRuntime) -> Result<(), Fail> {
    let map = two_entries(rt.alloc())?;
    let mut values = map.iter_values();
    assert!(rt; values.next().copied() == Some(10));
    assert!(rt; values.next().copied() == Some(20));
    let mut hashes = 0u64;
    for (hash, _) in map.iter_hash_keys() {
        hashes = hashes.wrapping_mul(10).wrapping_add(hash);
    }
    assert!(rt; hashes == 12);
    Ok(())
}

#[test]
fn many_keys_are_found(rt: HostRuntime) {
    let mut map = BytesIndexMap::<u32>::new(rt.alloc(), 0);
    // Two keys of five have the hash of the one before.
    for i in 0..300_000u32 {
        let hash = u64::from(i - i % 5 % 2).wrapping_mul(0x9e37_79b9_7f4a_7c15);
        assert!(rt; put(rt.alloc(), &mut map, hash, i.to_le_bytes().as_slice(), i));
    }
    assert!(rt; map.len() == 300_000);
    for i in 0..300_000u32 {
        let hash = u64::from(i - i % 5 % 2).wrapping_mul(0x9e37_79b9_7f4a_7c15);
        assert!(rt; map.get(hash, i.to_le_bytes().as_slice()).copied() == Some(i));
    }
}

// The maps and sets of the engine, and maps by partition.
use crate::shared::can_be_shared;
use pu_map::{InitHashMaps, PartitionedHashMap, PlHashMap, PlHashSet, PlIndexMap, PlIndexSet};
use std::alloc::Global;
use std::test::Fail;

fn four_maps(alloc: Global) -> Result<Vec<PlHashMap<u32, u32>>, Fail> {
    let mut maps = Vec::new(alloc);
    for _ in 0..4 {
        maps.push(<PlHashMap<u32, u32> as InitHashMaps>::with_capacity(alloc, 2)?)?;
    }
    Ok(maps)
}

#[test]
fn maps_by_partition(rt: HostRuntime) -> Result<(), Fail> {
    let maps = four_maps(rt.alloc())?;
    assert!(rt; maps.len() == 4);
    let mut maps = PartitionedHashMap::<u32, u32>::new(maps);
    assert!(rt; maps.partition(1 << 63) == 2);
    maps.map_mut(u64::MAX).insert(1, 2)?;
    assert!(rt; maps.inner().len() == 4);
    assert!(rt; maps.map(u64::MAX).get(&1).copied() == Some(2));
    // The entry stands in the last map, and in no other.
    for (partition, map) in maps.inner().iter().enumerate() {
        assert!(rt; map.len() == partition / 3);
    }
    can_be_shared(&maps);
    Ok(())
}

#[test]
fn maps_and_sets_begin_empty(rt: HostRuntime) -> Result<(), Fail> {
    let map = <PlHashMap<u32, u32> as InitHashMaps>::new(rt.alloc());
    assert!(rt; map.is_empty());
    let set = <PlHashSet<u32> as InitHashMaps>::new(rt.alloc());
    assert!(rt; set.is_empty());
    let index_map = <PlIndexMap<u32, u32> as InitHashMaps>::with_capacity(rt.alloc(), 1)?;
    assert!(rt; index_map.is_empty());
    let index_set = <PlIndexSet<u32> as InitHashMaps>::new(rt.alloc());
    assert!(rt; index_set.is_empty());
    Ok(())
}

#[test]
fn a_hash_set_with_room(rt: HostRuntime) -> Result<(), Fail> {
    let mut set = <PlHashSet<u32> as InitHashMaps>::with_capacity(rt.alloc(), 3)?;
    assert!(rt; set.is_empty() && set.capacity() >= 3);
    assert!(rt; set.insert(7)?);
    assert!(rt; set.contains(&7) && !set.contains(&8) && set.len() == 1);
    Ok(())
}

#[test]
fn an_index_set_with_room(rt: HostRuntime) -> Result<(), Fail> {
    let mut set = <PlIndexSet<u32> as InitHashMaps>::with_capacity(rt.alloc(), 3)?;
    assert!(rt; set.is_empty() && set.capacity() >= 3);
    assert!(rt; set.insert(7)?);
    assert!(rt; set.contains(&7) && !set.contains(&8) && set.len() == 1);
    Ok(())
}

// Rings.
use crate::shared::can_be_shared;
use pu_index::FixedRingBuffer;
use std::rc::Rc;
use std::test::Fail;

#[test]
fn goes_round(rt: HostRuntime) -> Result<(), Fail> {
    let alloc = rt.alloc();
    let mut ring: FixedRingBuffer<u32> = FixedRingBuffer::new(alloc, 3)?;
    assert!(rt; ring.push(1) == Some(()));
    assert!(rt; ring.push(2) == Some(()));
    assert!(rt; ring.push(3) == Some(()));
    assert!(rt; ring.push(4) == None);
    assert!(rt; ring.pop_front() == Some(1));
    assert!(rt; ring.push(4) == Some(()));
    let mut items = Vec::new(alloc);
    let (front, back) = ring.as_slices();
    items.extend_from_slice(front)?;
    items.extend_from_slice(back)?;
    assert!(rt; items.as_slice() == [2, 3, 4].as_slice());
    assert!(rt; ring.pop_front() == Some(2));
    assert!(rt; ring.fill_repeat(9, 5) == 1);
    can_be_shared(&ring);
    Ok(())
}

#[test]
fn counts_its_room(rt: HostRuntime) -> Result<(), Fail> {
    let mut ring: FixedRingBuffer<u32> = FixedRingBuffer::new(rt.alloc(), 3)?;
    assert!(rt; ring.is_empty());
    assert!(rt; ring.fill_repeat(9, 2) == 2);
    assert!(rt; ring.len() == 2);
    assert!(rt; ring.remaining_capacity() == 1);
    assert!(rt; ring.capacity() == 3);
    assert!(rt; !ring.is_full());
    Ok(())
}

#[test]
fn drops_its_items(rt: HostRuntime) -> Result<(), Fail> {
    let alloc = rt.alloc();
    let item = Rc::new(alloc, 5)?;
    let mut ring = FixedRingBuffer::new(alloc, 2)?;
    assert!(rt; ring.push(item.clone()?) == Some(()));
    assert!(rt; ring.push(item.clone()?) == Some(()));
    assert!(rt; ring.push(item.clone()?) == None);
    assert!(rt; Rc::strong_count(&item) == 3);
    drop(ring);
    assert!(rt; Rc::strong_count(&item) == 1);
    Ok(())
}

// Rings of four billion places, one after another: together more than all addresses there are.
#[test]
fn gives_its_block_back(rt: HostRuntime) -> Result<(), Fail> {
    for _ in 0..1 << 16 {
        let ring: FixedRingBuffer<u8> = FixedRingBuffer::new(rt.alloc(), 1 << 32)?;
        assert!(rt; ring.is_empty());
    }
    Ok(())
}

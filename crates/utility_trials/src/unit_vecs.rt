// Vectors that hold one item without memory.
use crate::shared::can_be_shared;
use pu_index::{IdxVec, UnitVec, unitvec};
use std::convert::AsSlice;
use std::test::Fail;

#[test]
fn takes_memory_at_the_second_item(rt: HostRuntime) -> Result<(), Fail> {
    let alloc = rt.alloc();
    let mut v: UnitVec<u32> = UnitVec::new(alloc);
    assert!(rt; v.capacity() == 1);
    v.push(1)?;
    assert!(rt; v.capacity() == 1);
    v.push(2)?;
    assert!(rt; v.capacity() == 8);
    assert!(rt; v.as_slice() == [1, 2].as_slice());
    let listed: UnitVec<u32> = unitvec!(alloc; 4, 5, 6)?;
    assert!(rt; listed.as_slice() == [4, 5, 6].as_slice());
    let one: UnitVec<u32> = unitvec!(alloc; 4);
    assert!(rt; one.len() == 1);
    assert!(rt; listed != one);
    Ok(())
}

#[test]
fn writes_to_short_vectors(rt: HostRuntime) -> Result<(), Fail> {
    let alloc = rt.alloc();
    let mut v: IdxVec = unitvec!(alloc; 4);
    v.as_mut_slice()[0] = 5;
    assert!(rt; AsSlice::as_slice(&v) == [5].as_slice());
    let more: IdxVec = unitvec!(alloc; 5, 7)?;
    v.extend([7].iter().copied())?;
    assert!(rt; v == more);
    for item in v.iter_mut() {
        *item = 1;
    }
    assert!(rt; v.as_slice() == [1, 1].as_slice());
    can_be_shared(&v);
    Ok(())
}

#[test]
fn writes_its_items(rt: HostRuntime) -> Result<(), Fail> {
    let alloc = rt.alloc();
    let none: IdxVec = unitvec!(alloc);
    let text = format!(in alloc; "{none:?}")?;
    assert!(rt; text.as_str() == "UnitVec: []");
    let one: IdxVec = unitvec!(alloc; 4);
    let text = format!(in alloc; "{one:?}")?;
    assert!(rt; text.as_str() == "UnitVec: [4]");
    let two: IdxVec = unitvec!(alloc; 1, 2)?;
    let text = format!(in alloc; "{two:?}")?;
    assert!(rt; text.as_str() == "UnitVec: [1, 2]");
    Ok(())
}

#[test]
fn makes_short_vectors(rt: HostRuntime) -> Result<(), Fail> {
    let alloc = rt.alloc();
    let same: IdxVec = unitvec!(alloc; 4; 3)?;
    assert!(rt; same.as_slice() == [4, 4, 4].as_slice());
    let copy = same.try_clone(alloc)?;
    assert!(rt; copy == same);
    let roomy: IdxVec = UnitVec::with_capacity(alloc, 5)?;
    assert!(rt; roomy.capacity() == 5);
    assert!(rt; roomy.is_empty());
    let kept = UnitVec::from_vec(alloc, [1u8, 2].to_vec(alloc)?);
    assert!(rt; kept.as_slice() == [1, 2].as_slice());
    Ok(())
}

#[test]
fn makes_room(rt: HostRuntime) -> Result<(), Fail> {
    let mut v: IdxVec = UnitVec::new(rt.alloc());
    v.reserve(9)?;
    assert!(rt; v.capacity() == 9);
    v.extend_from_slice(&[1, 2])?;
    v.push_unchecked(3);
    assert!(rt; v.iter().len() == 3);
    assert!(rt; v.pop() == Some(3));
    assert!(rt; v.as_slice() == [1, 2].as_slice());
    v.clear();
    assert!(rt; v.len() == 0);
    Ok(())
}

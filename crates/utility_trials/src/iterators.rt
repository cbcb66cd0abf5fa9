// Iterators, and lists by place.
ghost use Rattle.std.specs.Prelude.{◌<◌, ◌^◌, length};

use pu_index::{
    Chunks, EnumerateIdx, Indexable, SliceAble, all_equal, collect_vec, enumerate_idx,
    enumerate_u32, eq_by_, partial_cmp_by_, try_collect, try_collect_vec,
};
use std::alloc::Global;
use std::cmp::Ordering;
use std::test::Fail;

// The number that the last byte gets.
fn last_number(bytes: &[u8]) -> Option<u32>
    requires { length bytes.now < 2 ^ 32 }
{
    let mut last = None;
    for (i, _byte) in enumerate_idx(bytes.iter()) {
        last = Some(i);
    }
    last
}

#[test]
fn numbers_and_collects(rt: HostRuntime) -> Result<(), Fail> {
    let alloc = rt.alloc();
    let mut last = None;
    for (i, x) in enumerate_idx([5u32, 6].iter()) {
        last = Some((i, *x));
    }
    assert!(rt; last == Some((1, 6)));
    assert!(rt; last_number(&[5, 6, 7]) == Some(2));
    let all = collect_vec(alloc, [1u8, 2].iter().copied())?;
    assert!(rt; all.as_slice() == [1, 2].as_slice());
    Ok(())
}

#[test]
fn numbers_from_both_ends(rt: HostRuntime) {
    let mut numbered = enumerate_u32([5u8, 6, 7, 8].iter().copied());
    assert!(rt; numbered.len() == 4);
    assert!(rt; numbered.next_back() == Some((3, 8)));
    assert!(rt; numbered.nth(1) == Some((1, 6)));
    assert!(rt; numbered.nth_back(0) == Some((2, 7)));
    assert!(rt; numbered.count() == 0);
}

#[test]
fn hints_at_all_that_is_left(rt: HostRuntime) {
    let mut numbered = enumerate_u32([5u8, 6, 7].iter().copied());
    assert!(rt; numbered.size_hint() == (3, Some(3)));
    assert!(rt; numbered.next() == Some((0, 5)));
    assert!(rt; numbered.size_hint() == (2, Some(2)));
}

#[test]
fn numbers_in_other_types(rt: HostRuntime) {
    let mut numbered = EnumerateIdx::<_, i8>::new([5u8, 6].iter().copied());
    assert!(rt; numbered.next() == Some((0i8, 5)));
    assert!(rt; numbered.next_back() == Some((1, 6)));
    let mut numbered = EnumerateIdx::<_, usize>::new([5u8, 6].iter().copied());
    assert!(rt; numbered.next_back() == Some((1usize, 6)));
}

#[test]
fn cuts_chunks(rt: HostRuntime) {
    let mut chunks = Chunks::new(&[1, 2, 3, 4, 5], 2);
    assert!(rt; chunks.len() == 3);
    chunks.skip_in_place(1);
    assert!(rt; chunks.next() == Some([3, 4].as_slice()));
    assert!(rt; chunks.as_slice().len() == 1);
    assert!(rt; chunks.chunk_size() == 2);
    assert!(rt; chunks.next_back().map(|c| c.len()) == Some(1));
}

#[test]
fn copies_chunks(rt: HostRuntime) -> Result<(), Fail> {
    let chunks = Chunks::new(&[1, 2, 3], 2);
    let copy = chunks.clone()?;
    assert!(rt; copy.len() == 2);
    assert!(rt; chunks.as_slice().len() == 3);
    Ok(())
}

#[test]
fn gives_items_by_place(rt: HostRuntime) {
    let items: &[u8] = &[7, 8, 9];
    assert!(rt; Indexable::get(&items, 1) == 8);
    assert!(rt; Indexable::get_unchecked(&items, 2) == 9);
    assert!(rt; SliceAble::slice(&items, 1..3).len() == 2);
    assert!(rt; SliceAble::slice_unchecked(&items, 1..2).len() == 1);
}

#[test]
fn compares_iterators(rt: HostRuntime) {
    assert!(rt; all_equal([2u8, 2].iter()));
    assert!(rt; !all_equal([2u8, 3].iter()));
    assert!(rt; are_equal(&[1, 2], &[1, 2]));
    assert!(rt; !are_equal(&[1, 2], &[1]));
    assert!(rt; compared(&[1, 2], &[1, 3]) == Some(Ordering::Less));
    assert!(rt; compared(&[1, 2], &[1]) == Some(Ordering::Greater));
}

fn are_equal(xs: &[u8], ys: &[u8]) -> bool {
    eq_by_(xs.iter(), ys.iter(), |x, y| x == y)
}

fn compared(xs: &[u8], ys: &[u8]) -> Option<Ordering> {
    partial_cmp_by_(xs.iter(), ys.iter(), |x, y| x.partial_cmp(y))
}

#[test]
fn collects_up_to_an_error(rt: HostRuntime) -> Result<(), Fail> {
    let alloc = rt.alloc();
    let values = tried(alloc, &[Ok(1), Ok(2)])?;
    assert!(rt; values == Ok([1u8, 2].to_vec(alloc)?));
    let values = tried(alloc, &[Ok(1), Err(3), Err(4)])?;
    assert!(rt; values.map(|v| v.len()) == Err(3));
    let values = tried_vec(alloc, &[Ok(1), Ok(2)])?;
    assert!(rt; values == Ok([1u8, 2].to_vec(alloc)?));
    Ok(())
}

fn tried(alloc: Global, items: &[Result<u8, u8>]) -> pu_base::Result<Result<Vec<u8>, u8>> {
    try_collect(alloc, items.iter().copied())
}

fn tried_vec(alloc: Global, items: &[Result<u8, u8>]) -> pu_base::Result<Result<Vec<u8>, u8>> {
    try_collect_vec(alloc, items.iter().copied())
}

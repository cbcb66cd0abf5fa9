// Slices and vectors: cut, searched, padded, converted and filtered.
use pu_index::{
    convert, convert_owned, exponential_search_by, fill_or_alloc, find_first_ge_index,
    find_first_gt_index, inplace_zip_filtermap, is_sorted_ascending, load_padded_le_u64, max_value,
    min_value, partition_point_exponential, push_unchecked, range_portion,
};
use std::test::Fail;

#[test]
fn cuts_ranges_and_pads_bytes(rt: HostRuntime) {
    assert!(rt; range_portion(0, 3, 0..10) == (0..4));
    assert!(rt; range_portion(1, 3, 0..10) == (4..7));
    assert!(rt; range_portion(2, 3, 0..10) == (7..10));
    assert!(rt; load_padded_le_u64(&[1, 2, 3]) == 197121);
    assert!(rt; load_padded_le_u64(&[1, 2, 3, 4, 5]) == 0x0504030201);
    assert!(rt; load_padded_le_u64(&[]) == 0);
}

#[test]
fn finds_places(rt: HostRuntime) {
    assert!(rt; find_first_ge_index(&[1, 3, 5], 4) == 2);
    assert!(rt; find_first_gt_index(&[1, 3, 5], 3) == 2);
    assert!(rt; find_first_ge_index(&[2, 2, 2], 2) == 0);
    assert!(rt; partition_point_exponential(&[1, 2, 3, 10, 20], |x| *x < 10) == 3);
    assert!(rt; exponential_search_by(&[1, 2, 3, 10, 20], |x: &i32| x.cmp(&10)) == Ok(3));
    assert!(rt; exponential_search_by(&[1, 2, 3, 10, 20], |x: &i32| x.cmp(&4)) == Err(3));
    assert!(rt; min_value(&[3, 1, 1, 2]).copied() == Some(1));
    assert!(rt; max_value(&[3, 1, 3, 2]).copied() == Some(3));
    assert!(rt; is_sorted_ascending(&[1, 1, 2]));
    assert!(rt; !is_sorted_ascending(&[2, 1]));
}

#[test]
fn converts_and_filters(rt: HostRuntime) -> Result<(), Fail> {
    let alloc = rt.alloc();
    let doubled = convert(alloc, &[1u8, 2], |x| u16::from(*x) * 2)?;
    assert!(rt; doubled.as_slice() == [2u16, 4].as_slice());
    let halved = convert_owned(alloc, doubled, |x: u16| x / 2)?;
    assert!(rt; halved.as_slice() == [1u16, 2].as_slice());
    let mut x = [1u8, 2, 3].to_vec(alloc)?;
    let mut y = [4u8, 5, 6].to_vec(alloc)?;
    inplace_zip_filtermap(
        &mut x,
        &mut y,
        |a, b| if a == 2 { None } else { Some((a, b)) },
    );
    assert!(rt; x.as_slice() == [1, 3].as_slice());
    assert!(rt; y.as_slice() == [4, 6].as_slice());
    fill_or_alloc(&mut x, 2, 9)?;
    assert!(rt; x.as_slice() == [9, 9].as_slice());
    Ok(())
}

#[test]
fn appends_to_what_has_room(rt: HostRuntime) -> Result<(), Fail> {
    let mut items = Vec::with_capacity(rt.alloc(), 1)?;
    push_unchecked(&mut items, 7u8);
    assert!(rt; items.as_slice() == [7].as_slice());
    Ok(())
}

// Total orders, equality and hashes, each generic item once at a concrete type.
use crate::hashed::{hashed, written};
use pu_order::{
    Priority, ToTotalOrd, TotalEq, TotalHash, TotalOrd, TotalOrdWrap, string_to_total_ord,
};
use std::test::Fail;

pub fn are_equal<T: TotalEq>(a: &T, b: &T) -> bool {
    a.tot_eq(b) && !a.tot_ne(b)
}

fn is_below<T: TotalOrd>(low: &T, high: &T) -> bool {
    low.tot_lt(high)
        && high.tot_gt(low)
        && low.tot_le(high)
        && low.tot_le(low)
        && high.tot_ge(low)
        && low.tot_ge(low)
        && !low.tot_ge(high)
        && are_equal(low, low)
        && !are_equal(low, high)
}

fn is_below_and_hashes<T: TotalOrd + TotalHash>(low: &T, high: &T) -> bool {
    is_below(low, high) && written(low) == written(low) && written(low) != written(high)
}

pub fn peeled<T: ToTotalOrd>(value: &T) -> T::SourceItem {
    T::peel_total_ord(value.to_total_ord())
}

#[test]
fn orders_and_hashes(rt: HostRuntime) -> Result<(), Fail> {
    assert!(rt; is_below_and_hashes(&1u8, &2) && is_below_and_hashes(&1u16, &2));
    assert!(rt; is_below_and_hashes(&1u32, &2) && is_below_and_hashes(&1u64, &2));
    assert!(rt; is_below_and_hashes(&1u128, &2) && is_below_and_hashes(&1usize, &2));
    assert!(rt; is_below_and_hashes(&-1i8, &1) && is_below_and_hashes(&-1i16, &1));
    assert!(rt; is_below_and_hashes(&-1i32, &1) && is_below_and_hashes(&-1i64, &1));
    assert!(rt; is_below_and_hashes(&-1i128, &1) && is_below_and_hashes(&-1isize, &1));
    assert!(rt; is_below_and_hashes(&false, &true) && is_below_and_hashes(&'a', &'b'));
    assert!(rt; is_below_and_hashes(&"a", &"ab"));
    let (low, high): (&[u8], &[u8]) = (&[1], &[1, 0]);
    assert!(rt; is_below_and_hashes(&low, &high));
    let (a, b) = (
        String::from_str(rt.alloc(), "a")?,
        String::from_str(rt.alloc(), "b")?,
    );
    assert!(rt; is_below_and_hashes(&a, &b));
    assert!(rt; string_to_total_ord(rt.alloc(), &a)?.as_str() == "a");
    Ok(())
}

#[test]
fn orders_options_pairs_and_wraps(rt: HostRuntime) {
    assert!(rt;
        is_below_and_hashes(&None, &Some(0u8)) && is_below_and_hashes(&Some(1u8), &Some(2))
    );
    assert!(rt; Some(3).tot_le(&Some(3)));
    assert!(rt; is_below(&(1u8, 9u8), &(2, 0)) && is_below(&(1u8, 0u8), &(1, 1)));
    assert!(rt; are_equal(&&1u8, &&1) && written(&&1u8) == written(&1u8));
    let (low, high) = (TotalOrdWrap(Some(1u8)), TotalOrdWrap(Some(2u8)));
    assert!(rt; low < high && low == low && low.cmp(&high).is_lt());
    assert!(rt; hashed(&low) == written(&Some(1u8)));
    assert!(rt; Priority(1u8, 5u8) == Priority(1, 6) && Priority(1u8, 9u8) < Priority(2, 0));
    assert!(rt; peeled(&Some(7u32)) == Some(7));
    assert!(rt; peeled(&&7u32) == 7);
    assert!(rt; peeled(&"name") == "name");
}

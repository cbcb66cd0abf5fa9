// Extrema, distances and floor division: vectors from outside, and each generic item once at a concrete type.
use pu_num::{AbsDiff, FloorDivMod, IsFloat, MinMax, compare_fn_nan_max, compare_fn_nan_min};
use std::test::Fail;

fn divided<T: FloorDivMod>(a: T, b: T) -> (T, T) {
    a.wrapping_floor_div_mod(b)
}

fn apart<T: AbsDiff>(a: T, b: T) -> T::Abs {
    a.abs_diff(b)
}

fn lesser<T: MinMax>(a: T, b: T) -> T {
    a.min_propagate_nan(b)
}

fn greater<T: MinMax>(a: T, b: T) -> T {
    a.max_ignore_nan(b)
}

fn is_plain<T: IsFloat>(value: &T) -> bool {
    !T::is_float() && !T::is_f32() && !T::is_f64() && !value.is_nan() && value.is_finite()
}

#[test]
fn divides_down(rt: HostRuntime) {
    for (a, b, want) in [
        (-7, 3, (-3, 2)),
        (7, -3, (-3, -2)),
        (7, 0, (0, 0)),
        (i32::MIN, -1, (i32::MIN, 0)),
        (-7, 2, (-4, 1)),
        (-6, -4, (1, -2)),
        (-8, 2, (-4, 0)),
    ] {
        assert!(rt; divided(a, b) == want);
    }
    assert!(rt; divided(7u32, 0) == (0, 0) && divided(7u8, 2) == (3, 1));
    assert!(rt; divided(-7i8, 3) == (-3, 2) && divided(i64::MIN, -1) == (i64::MIN, 0));
}

#[test]
fn distances(rt: HostRuntime) {
    assert!(rt;
        apart(-128i8, 127) == 255 && apart(3u16, 5) == 2 && apart(i64::MAX, i64::MIN) == u64::MAX
    );
    assert!(rt; i8::max_abs_diff() == 255 && u64::max_abs_diff() == u64::MAX);
}

#[test]
fn extrema(rt: HostRuntime) -> Result<(), Fail> {
    assert!(rt;
        lesser(2u8, 1) == 1
            && greater(-2i64, 1) == 1
            && lesser("ab", "b") == "ab"
            && greater(false, true)
    );
    assert!(rt; 1u32.min_ignore_nan(2) == 1 && 'a'.max_propagate_nan('b') == 'b');
    let (a, b) = (
        String::from_str(rt.alloc(), "a")?,
        String::from_str(rt.alloc(), "b")?,
    );
    assert!(rt; a.nan_min_lt(&b) && !b.nan_max_lt(&a));
    assert!(rt; greater(a, b).as_str() == "b");
    Ok(())
}

#[test]
fn no_floats(rt: HostRuntime) {
    let bytes: &[u8] = b"a";
    assert!(rt; is_plain(&1i8) && is_plain(&"a") && is_plain(&bytes) && is_plain(&Some(true)));
    assert!(rt; compare_fn_nan_min(&1u8, &2).is_lt() && compare_fn_nan_max(&2i128, &1).is_gt());
}

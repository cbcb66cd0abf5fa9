// Values that may be null, and lengths.
ghost use Rattle.std.specs.Prelude.{◌≡◌, false};

use pu_order::{Bounded, BytesHash, IsNull, NullCount, TotalOrdWrap};

fn holds<T: IsNull>(value: T) -> T::Inner
    requires { T.is_null value ≡ false }
{
    value.unwrap_inner()
}

#[test]
fn nulls_and_lengths(rt: HostRuntime) {
    assert!(rt; None::<u8>.is_null() && !Some(1u8).is_null() && Option::<u8>::HAS_NULLS);
    assert!(rt; <&Option<u8>>::HAS_NULLS && <&Option<u8>>::nullable() && !u8::HAS_NULLS);
    assert!(rt; TotalOrdWrap(None::<u8>).is_null() && (&None::<u8>).is_null());
    assert!(rt; holds(Some(4u8)) == 4);
    assert!(rt; holds(TotalOrdWrap(5u8)) == 5);
    assert!(rt; *holds(&6u8) == 6);
    let bytes: &[u8] = b"ab";
    assert!(rt; BytesHash::new(None, 1).is_null() && !BytesHash::new(Some(bytes), 1).is_null());
    assert!(rt; NullCount::null_count(&bytes) == 0 && NullCount::null_count(&&bytes) == 0);
    assert!(rt; Bounded::len(&bytes) == 2 && !Bounded::is_empty(&bytes));
}

#[test]
fn nullability_is_that_of_the_part(rt: HostRuntime) {
    assert!(rt; TotalOrdWrap::<Option<u8>>::HAS_NULLS && TotalOrdWrap::<Option<u8>>::nullable());
    assert!(rt; !TotalOrdWrap::<u8>::HAS_NULLS && !TotalOrdWrap::<u8>::nullable());
    assert!(rt; !<&u8>::HAS_NULLS && !<&u8>::nullable());
    assert!(rt; BytesHash::HAS_NULLS && !<&[u8]>::HAS_NULLS && !bool::HAS_NULLS && !i64::HAS_NULLS);
}

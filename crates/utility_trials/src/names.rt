// Names, their macros, and the printed texts of errors.
use crate::hashed::hashed;
use pu_order::{PlSmallStr, PolarsUtilsError, format_pl_smallstr, matches_any_order};
use std::convert::AsStr;
use std::test::Fail;

#[test]
fn names(rt: HostRuntime) -> Result<(), Fail> {
    let alloc = rt.alloc();
    let (a, b) = (
        PlSmallStr::from_static(alloc, "a\"")?,
        PlSmallStr::from_str(alloc, "b")?,
    );
    assert!(rt; a < b && a != b && a.try_clone(alloc)? == a && a.cmp(&b).is_lt());
    assert!(rt; b.eq_str("b") && !b.eq_str("B") && hashed(&b) == hashed(&"b"));
    assert!(rt; PlSmallStr::empty(alloc).as_str().is_empty() && AsStr::as_str(&b) == "b");
    let both = PlSmallStr::concat(alloc, vec![in alloc; a, b]?.as_slice())?;
    assert!(rt; both.as_bytes() == [97, 34, 98].as_slice());
    assert!(rt; format!(in alloc; "{both} {both:?}")?.as_str() == "a\"b \"a\\\"b\"");
    assert!(rt;
        format_pl_smallstr!(alloc, "{}-{both}", 1)?
            .into_string()
            .as_str()
            == "1-a\"b"
    );
    let (zero, one) = (Some(0u8), None::<u8>);
    assert!(rt;
        matches_any_order!(zero, one, None, Some(0))
            && !matches_any_order!(zero, zero, None, Some(0))
    );
    Ok(())
}

#[test]
fn errors(rt: HostRuntime) -> Result<(), Fail> {
    let alloc = rt.alloc();
    let out = PolarsUtilsError::OutOfBounds { index: 3, len: 2 };
    let own = PolarsUtilsError::ComputeError(PlSmallStr::from_str(alloc, "no")?);
    assert!(rt;
        format!(in alloc; "{out}")?.as_str() == "index 3 is out of bounds for a length of 2"
    );
    assert!(rt;
        format!(in alloc; "{out:?} {own:?}")?.as_str()
            == "OutOfBounds { index: 3, len: 2 } ComputeError(\"no\")"
    );
    assert!(rt;
        format!(in alloc; "{own} {}", PolarsUtilsError::OutOfMemory)?.as_str() == "no out of memory"
    );
    assert!(rt;
        format!(in alloc; "{}", PolarsUtilsError::SeekOutOfRange)?.as_str()
            == "the position is out of range"
    );
    Ok(())
}

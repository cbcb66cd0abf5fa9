// Numbers of rows, chunks and entries, and their texts.
use pu_base::PolarsUtilsError;
use pu_index::{ChunkId, Node, NullableIdxSize, ToIdx, check_bounds};
use std::test::Fail;

#[test]
fn numbers_rows(rt: HostRuntime) {
    assert!(rt; (-1i8).to_idx(10) == 9);
    assert!(rt; (-2i64).to_idx(10) == 8);
    assert!(rt; 7u8.to_idx(10) == 7);
    assert!(rt; NullableIdxSize::null().to_opt() == None);
    assert!(rt; NullableIdxSize::from(4).to_opt() == Some(4));
    assert!(rt;
        matches!(
            check_bounds(&[0, 4], 4),
            Err(PolarsUtilsError::OutOfBounds { index: 4, len: 4 })
        )
    );
    assert!(rt; check_bounds(&[], 0).is_ok());
}

#[test]
fn keeps_chunks_and_rows(rt: HostRuntime) {
    let id = ChunkId::<24>::store(3, 5);
    assert!(rt; id.into_inner() == 83886083);
    assert!(rt; id.extract() == (3, 5));
    let mut other = ChunkId::<24>::from_inner(83886083);
    assert!(rt; !other.is_null());
    *other.inner_mut() += 1;
    assert!(rt; other.extract() == (4, 5));
}

#[test]
fn writes_numbers(rt: HostRuntime) -> Result<(), Fail> {
    let alloc = rt.alloc();
    let id = ChunkId::<24>::store(3, 5);
    let text = format!(in alloc; "{id:?}")?;
    assert!(rt; text.as_str() == "(3, 5)");
    let none = ChunkId::<24>::null();
    let text = format!(in alloc; "{none:?}")?;
    assert!(rt; text.as_str() == "NULL");
    let far = ChunkId::<24>::from_inner((1 << 60) + 1);
    let text = format!(in alloc; "{far:?}")?;
    assert!(rt; far.extract() == (1, 0));
    assert!(rt; text.as_str() == "(1, 0)");
    let number = NullableIdxSize::from(4);
    let text = format!(in alloc; "{number:?}")?;
    assert!(rt; text.as_str() == "4");
    let node = Node(3);
    let text = format!(in alloc; "{node:?}")?;
    assert!(rt; text.as_str() == "Node(3)");
    Ok(())
}

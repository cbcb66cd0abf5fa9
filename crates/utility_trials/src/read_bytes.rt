// Shared bytes, and their readers.
use bytes::Bytes;
use pu_base::PolarsUtilsError;
use pu_index::{MemReader, MemSlice};
use std::convert::AsSlice;
use std::io::SeekFrom;
use std::test::Fail;

#[test]
fn reads_bytes(rt: HostRuntime) -> Result<(), Fail> {
    let mut reader = MemReader::new(MemSlice::from_static(b"abcd"));
    assert!(rt; reader.seek(SeekFrom::Start(2)).ok() == Some(2));
    assert!(rt;
        matches!(
            reader.seek(SeekFrom::Current(3)),
            Err(PolarsUtilsError::SeekOutOfRange)
        )
    );
    assert!(rt; reader.position() == 2);
    let rest = reader.read_slice(9)?;
    assert!(rt; rest.as_slice() == b"cd".as_slice());
    assert!(rt; reader.remaining_len() == 0);
    Ok(())
}

#[test]
fn reads_into_buffers(rt: HostRuntime) -> Result<(), Fail> {
    let mut reader = MemReader::from_vec([1u8, 2, 3].to_vec(rt.alloc())?)?;
    let mut buffer = [0; 2];
    assert!(rt; reader.read(&mut buffer) == 2);
    assert!(rt; buffer == [1, 2]);
    let mut copy = reader.try_clone()?;
    let rest = copy.read_slice(2)?;
    assert!(rt; rest.as_slice() == [3].as_slice());
    assert!(rt; reader.remaining_len() == 1);
    assert!(rt; reader.total_len() == 3);
    Ok(())
}

#[test]
fn shares_bytes(rt: HostRuntime) -> Result<(), Fail> {
    let alloc = rt.alloc();
    let whole = MemSlice::from_vec([1u8, 2, 3].to_vec(alloc)?)?;
    assert!(rt; whole.len() == 3);
    let part = whole.slice(1..3)?.to_vec(alloc)?;
    assert!(rt; part.as_slice() == [2, 3].as_slice());
    let copy = whole.try_clone()?;
    assert!(rt; AsSlice::as_slice(&copy) == [1, 2, 3].as_slice());
    Ok(())
}

#[test]
fn shows_bytes_that_stand_already(rt: HostRuntime) {
    assert!(rt; MemSlice::empty().is_empty());
    assert!(rt; MemSlice::default().is_empty());
    let slice = MemSlice::from(Bytes::from_static(b"ab"));
    assert!(rt; slice.as_slice() == b"ab".as_slice());
    let reader = MemReader::from_bytes(Bytes::from_static(b"abc"));
    assert!(rt; reader.total_len() == 3);
    assert!(rt; MemReader::from(slice).remaining_len() == 2);
}

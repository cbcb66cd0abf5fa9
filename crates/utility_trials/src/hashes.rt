// Hash words, dirty hashes, partitions, and products without carries.
use crate::hashed::{hashed, written};
use crate::orders::{are_equal, peeled};
use pu_order::{
    _boost_hash_combine, BytesHash, DirtyHash, HashPartitioner, TotalOrdWrap, clmul64,
    folded_multiply, hash_to_partition, portable_clmul64, portable_prefix_xorsum,
    portable_prefix_xorsum_inclusive, prefix_xorsum, prefix_xorsum_inclusive,
};
use std::test::Fail;

fn dirty<T: DirtyHash>(value: &T) -> u64 {
    value.dirty_hash()
}

#[test]
fn hashes_and_partitions(rt: HostRuntime) -> Result<(), Fail> {
    assert!(rt; folded_multiply(u64::MAX, u64::MAX) == u64::MAX);
    assert!(rt; _boost_hash_combine(0, 0) == 0x9e3779b9);
    assert!(rt; _boost_hash_combine(12345, 67890) == 0x9e44e34e);
    assert!(rt; 1u64.dirty_hash() == 0x55fbfd6bfc5458e9);
    assert!(rt; dirty(&-1i8) == 0xaa04029403aba717);
    assert!(rt; dirty(&-3i128) == 0xfe0c07bc0b02f544);
    assert!(rt;
        dirty(&None::<u8>) == 0
            && dirty(&Some(1u8)) == dirty(&&1u64)
            && dirty(&TotalOrdWrap(1u8)) == dirty(&1i64)
    );
    for (h, want) in [(0, 0), (1 << 63, 2), (u64::MAX, 3)] {
        assert!(rt; hash_to_partition(h, 4) == want);
    }
    assert!(rt; hash_to_partition(9, 0) == 0);
    assert!(rt; HashPartitioner::new(7, 42).hash_to_partition(1) == 0);
    assert!(rt; HashPartitioner::new(7, 42).hash_to_partition(2) == 1);
    let thousand = HashPartitioner::new(1000, 3);
    assert!(rt;
        thousand.clone()?.hash_to_partition(12345) == 802 && thousand.num_partitions() == 1000
    );
    assert!(rt; HashPartitioner::new(16, u64::MAX).hash_to_partition(1 << 63) == 8);
    let bytes: &[u8] = b"ab";
    let (a, b) = (BytesHash::new(Some(bytes), 5), BytesHash::new(None, 5));
    assert!(rt;
        !are_equal(&a, &b)
            && are_equal(&a, &a)
            && written(&a) == written(&b)
            && hashed(&a) == written(&5u64)
    );
    assert!(rt; dirty(&a) == 5 && peeled(&a) == a);
    Ok(())
}

#[test]
fn products_without_carry(rt: HostRuntime) {
    assert!(rt; clmul64(3, 3) == 5 && portable_clmul64(3, 3) == 5);
    assert!(rt; clmul64(0x9e3779b97f4a7c15, 0xdeadbeefcafebabe) == 0x67375cf4b68f53a6);
    assert!(rt; prefix_xorsum(1) == u64::MAX ^ 1 && portable_prefix_xorsum(1) == u64::MAX ^ 1);
    assert!(rt; prefix_xorsum_inclusive(5) == 3 && portable_prefix_xorsum_inclusive(5) == 3);
}

// A chunk's number and a row's in one number.
ghost use Rattle.std.specs.Prelude.{◌≡◌, ◌↔◌, ◌+◌, ◌*◌, ◌-◌, ◌^◌, ◌<◌, ◌≤◌, IsTrue};
ghost use Rattle.std.specs.Borrow.{Lends, sem, u64 as word};
ghost use Rattle.pu_index.specs.contracts.chunk_id.ChunkId.{the_row};
ghost use Rattle.pu_index.specs.StoredIn.{inner_of};
ghost use Rattle.pu_index.specs.Parts.{joined, chunk_part, row_part};

use crate::idx::IdxSize;
use std::fmt;

/// How many bits a chunk's number has where nothing else is said: 2^24 chunks.
pub const DEFAULT_CHUNK_BITS: u64 = 24;

/// A row of a chunk, or none: the row's number above the bits of the chunk's number.
#[derive(Clone, Copy)]
pub struct ChunkId<const CHUNK_BITS: u64> {
    swizzled: u64,
}

impl<const CHUNK_BITS: u64> ChunkId<CHUNK_BITS> {
    /// No row.
    pub const fn null() -> ChunkId<CHUNK_BITS>
        ensures { inner_of result ≡ u64.MAX }
    {
        ChunkId { swizzled: u64::MAX }
    }

    /// Whether this is no row.
    pub fn is_null(&self) -> bool
        ensures { IsTrue result ↔ (inner_of self.now ≡ u64.MAX) }
    {
        self.swizzled == u64::MAX
    }

    /// The row of a chunk, whose number has to be below the greatest of `CHUNK_BITS` bits. These are
    /// 1 to 32, as in [`extract`](ChunkId::extract).
    pub fn store(chunk: IdxSize, row: IdxSize) -> ChunkId<CHUNK_BITS>
        requires bits { (1 ≤ CHUNK_BITS) × (CHUNK_BITS ≤ 32) }
        requires chunk { chunk + 1 < 2 ^ CHUNK_BITS }
        ensures value { inner_of result ≡ joined CHUNK_BITS chunk row }
        ensures kept { (chunk_part CHUNK_BITS (inner_of result) ≡ chunk) × (row_part CHUNK_BITS (inner_of result) ≡ row) }
    {
        ChunkId {
            swizzled: (u64::from(row) << CHUNK_BITS) + u64::from(chunk),
        }
    }

    /// The numbers of the chunk and of the row, which are those that were stored.
    pub fn extract(self) -> (IdxSize, IdxSize)
        requires { (1 ≤ CHUNK_BITS) × (CHUNK_BITS ≤ 32) }
        ensures chunk { result.0 ≡ chunk_part CHUNK_BITS (inner_of self.entry) }
        ensures row { result.1 ≡ row_part CHUNK_BITS (inner_of self.entry) }
    {
        let size = 1u64 << CHUNK_BITS;
        let chunk = self.swizzled % size;
        let row = self.swizzled / size % (1 << 32);
        (chunk as IdxSize, row as IdxSize)
    }

    /// The number that keeps both, to write to.
    pub fn inner_mut(&mut self) -> &mut u64
        ensures* writes_back { sem 𝓛 (Lends (the_row CHUNK_BITS.row) word self.entry result (λ w. record { swizzled = w })) }
        ensures value { result.now ≡ inner_of self.old }
    {
        &mut self.swizzled
    }

    /// What a number keeps.
    pub fn from_inner(inner: u64) -> ChunkId<CHUNK_BITS>
        ensures { inner_of result ≡ inner }
    {
        ChunkId { swizzled: inner }
    }

    /// The number that keeps both.
    pub fn into_inner(self) -> u64
        ensures { result ≡ inner_of self.entry }
    {
        self.swizzled
    }
}

impl<const CHUNK_BITS: u64> fmt::Debug for ChunkId<CHUNK_BITS> {
    fn fmt<W: fmt::Write>(&self, f: &mut fmt::Formatter<W>) -> fmt::Result {
        if self.is_null() {
            return write!(f, "NULL");
        }
        let size = 1u64 << CHUNK_BITS % 64;
        let chunk = self.swizzled % size;
        let row = self.swizzled / size % (1 << 32);
        write!(f, "({chunk}, {row})")
    }
}

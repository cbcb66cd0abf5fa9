// The keys of rows, found by their hashes.
ghost use Rattle.std.specs.Prelude.{◌≡◌, ◌<◌, ◌+◌, ℕ, List, [], ◌∷◌, ◌++◌, length, slice_index, ◌↔◌, IsTrue, IfOk, IfSome, IfNone, OnOk};
ghost use Rattle.ps_frame.specs.declared.value.Value.{Value};
ghost use Rattle.ps_keys.specs.Chains.{HaveRows, IsKeyOf, IsNew, IsNumbered, IsSound};
ghost use Rattle.ps_keys.specs.Hashes.{HaveRow, row_at, row_hash};

use crate::rows::{are_same, hash_of, tells_apart};
use ps_frame::column::Column;
use pu_partition::hash_to_partition;
use std::alloc::{AllocError, Global};

// How many buckets a table has at first.
const FEWEST_BUCKETS: usize = 64;

// How many times as many it has when it grows.
const GROWTH: usize = 4;

// How many keys of a bucket are looked at. There are no more keys than buckets, so chains are far shorter
// unless keys were chosen to share theirs.
const LONGEST_WALK: usize = 32;

/// A chain that is too long to be walked.
#[derive(Drop)]
struct ChainTooLong;

/// The first row of each key by the key's number, its hash, and chains of the keys of each bucket.
///
/// A head or a next is one more than a key's number, and 0 is the end of a chain.
#[derive(Drop)]
pub(crate) struct KeyBuckets {
    pub(crate) heads: Vec<usize>,
    pub(crate) hashes: Vec<u64>,
    pub(crate) nexts: Vec<usize>,
    pub(crate) firsts: Vec<usize>,
}

impl KeyBuckets {
    /// A table without keys. It has at least as many buckets as keys, so it grows with them.
    ///
    /// Fails only for want of memory.
    pub(crate) fn new(alloc: Global) -> Result<KeyBuckets, AllocError>
        ensures empty { IfOk result (λ t. t.firsts.items ≡ []) }
        ensures buckets { IfOk result (λ t. 0 < length t.heads.items) }
        ensures sound { (row : ℕ → List Value) → IfOk result (IsSound row) }
    {
        KeyBuckets::with_buckets(alloc, FEWEST_BUCKETS)
    }

    // A table without keys, with so many buckets.
    fn with_buckets(alloc: Global, count: usize) -> Result<KeyBuckets, AllocError>
        ensures empty { IfOk result (λ t. t.firsts.items ≡ []) }
        ensures buckets { IfOk result (λ t. length t.heads.items ≡ count) }
        ensures sound { (row : ℕ → List Value) → IfOk result (IsSound row) }
    {
        Ok(KeyBuckets {
            heads: vec![in alloc; 0usize; count]?,
            hashes: Vec::new(alloc),
            nexts: Vec::new(alloc),
            firsts: Vec::new(alloc),
        })
    }

    /// The number of a row's key, which is put in if it is new. There is none if a chain is too long to
    /// be walked, and nothing is put in then.
    ///
    /// Fails only for want of memory.
    pub(crate) fn number_of(
        &mut self,
        alloc: Global,
        columns: &[Column],
        row: usize,
    ) -> Result<Option<usize>, AllocError>
        requires sound { IsSound (row_at columns.now) self.old }
        requires buckets { 0 < length self.old.heads.items }
        requires rows { HaveRows columns.now self.old.firsts.items }
        requires row { HaveRow columns.now row }
        ensures sound { OnOk result (IsSound (row_at columns.now) self.new) }
        ensures number { IfOk result (λ o. IfSome o (IsNumbered (row_at columns.now) self.old.firsts.items self.new.firsts.items row)) }
        ensures kept { IfOk result (λ o. IfNone o (self.new.firsts.items ≡ self.old.firsts.items)) }
        ensures buckets { OnOk result (0 < length self.new.heads.items) }
    {
        let hash = hash_of(columns, row);
        match self.find(columns, row, hash) {
            Ok(Some(key)) => return Ok(Some(key)),
            Ok(None) => {}
            Err(ChainTooLong) => return Ok(None),
        }
        self.make_room(alloc, columns)?;
        let key = self.firsts.len();
        self.push(columns, row, hash)?;
        Ok(Some(key))
    }

    // Has more buckets than keys from here on.
    fn make_room(&mut self, alloc: Global, columns: &[Column]) -> Result<(), AllocError>
        requires sound { IsSound (row_at columns.now) self.old }
        requires buckets { 0 < length self.old.heads.items }
        ensures sound { OnOk result (IsSound (row_at columns.now) self.new) }
        ensures kept { OnOk result (self.new.firsts.items ≡ self.old.firsts.items) }
        ensures buckets { OnOk result (0 < length self.new.heads.items) }
    {
        if self.firsts.len() >= self.heads.len() {
            let count = self.heads.len().saturating_mul(GROWTH);
            *self = self.spread(alloc, columns, count)?;
        }
        Ok(())
    }

    // The same keys in so many buckets.
    fn spread(
        &self,
        alloc: Global,
        columns: &[Column],
        count: usize,
    ) -> Result<KeyBuckets, AllocError>
        requires sound { IsSound (row_at columns.now) self.now }
        requires buckets { 0 < count }
        ensures sound { IfOk result (IsSound (row_at columns.now)) }
        ensures kept { IfOk result (λ t. t.firsts.items ≡ self.now.firsts.items) }
        ensures buckets { IfOk result (λ t. length t.heads.items ≡ count) }
    {
        let mut table = KeyBuckets::with_buckets(alloc, count)?;
        for key in 0..self.firsts.len() {
            table.push(columns, self.firsts[key], self.hashes[key])?;
        }
        Ok(table)
    }

    // The number of a row's key, whose hash is given, unless the chain of its bucket is too long.
    fn find(&self, columns: &[Column], row: usize, hash: u64) -> Result<Option<usize>, ChainTooLong>
        requires sound { IsSound (row_at columns.now) self.now }
        requires buckets { 0 < length self.now.heads.items }
        requires rows { HaveRows columns.now self.now.firsts.items }
        requires row { HaveRow columns.now row }
        requires hash { hash ≡ row_hash (row_at columns.now row) }
        ensures found { IfOk result (λ o. IfSome o (IsKeyOf (row_at columns.now) self.now.firsts.items row)) }
        ensures absent { IfOk result (λ o. IfNone o (IsNew (row_at columns.now) self.now.firsts.items row)) }
    {
        let mut next = self.heads[hash_to_partition(hash, self.heads.len())];
        for _ in 0..LONGEST_WALK {
            if next == 0 {
                return Ok(None);
            }
            let key = next - 1;
            if self.is_key_of(columns, row, hash, key) {
                return Ok(Some(key));
            }
            next = self.nexts[key];
        }
        Err(ChainTooLong)
    }

    // Whether a row has this key. The hashes are compared first.
    fn is_key_of(&self, columns: &[Column], row: usize, hash: u64, key: usize) -> bool
        requires sound { IsSound (row_at columns.now) self.now }
        requires rows { HaveRows columns.now self.now.firsts.items }
        requires row { HaveRow columns.now row }
        requires hash { hash ≡ row_hash (row_at columns.now row) }
        requires within { key < length self.now.firsts.items }
        ensures { IsTrue result ↔ (row_at columns.now (slice_index self.now.firsts.items key) ≡ row_at columns.now row) }
    {
        self.hashes[key] == hash
            && (tells_apart(columns, hash) || are_same(columns, self.firsts[key], row))
    }

    // Puts in a key that is new, by its first row and its hash.
    fn push(&mut self, columns: &[Column], row: usize, hash: u64) -> Result<(), AllocError>
        requires sound { IsSound (row_at columns.now) self.old }
        requires buckets { 0 < length self.old.heads.items }
        requires hash { hash ≡ row_hash (row_at columns.now row) }
        ensures sound { OnOk result (IsSound (row_at columns.now) self.new) }
        ensures pushed { OnOk result (self.new.firsts.items ≡ self.old.firsts.items ++ row ∷ []) }
        ensures buckets { length self.new.heads.items ≡ length self.old.heads.items }
    {
        let bucket = hash_to_partition(hash, self.heads.len());
        self.hashes.push(hash)?;
        self.firsts.push(row)?;
        self.nexts.push(self.heads[bucket])?;
        self.heads[bucket] = self.nexts.len();
        Ok(())
    }
}

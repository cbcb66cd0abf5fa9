// The keys of rows, found by their hashes as long as that is fast.
ghost use Rattle.std.specs.Prelude.{◌≡◌, ℕ, List, [], IfOk, OnOk};
ghost use Rattle.ps_frame.specs.declared.value.Value.{Value};
ghost use Rattle.ps_frame.specs.Series.{Series};
ghost use Rattle.ps_keys.specs.Chains.{HaveRows, IsNumbered};
ghost use Rattle.ps_keys.specs.Hashes.{HaveRow, row_at};
ghost use Rattle.ps_keys.specs.Tables.{IsReady, first_rows, firsts_of};

use crate::buckets::KeyBuckets;
use crate::ordered::OrderedKeys;
use ps_frame::column::Column;
use std::alloc::{AllocError, Global};

/// The keys of rows by their first rows. They are found by their hashes until a chain of keys is too long,
/// and from then on by the order of rows, so that no keys make this slow.
#[derive(Drop)]
pub(crate) enum KeyTable<'a> {
    Hashed(KeyBuckets),
    Ordered(OrderedKeys<'a>),
}

impl<'a> KeyTable<'a> {
    /// A table without keys.
    ///
    /// Fails only for want of memory.
    pub(crate) fn new(alloc: Global) -> Result<KeyTable<'a>, AllocError>
        ensures empty { IfOk result (λ t. firsts_of t ≡ []) }
        ensures ready { (columns : List Series) → IfOk result (IsReady columns) }
    {
        Ok(KeyTable::Hashed(KeyBuckets::new(alloc)?))
    }

    /// The number of a row's key, which is put in if it is new.
    ///
    /// Fails only for want of memory.
    pub(crate) fn number_of(
        &mut self,
        alloc: Global,
        columns: &'a [Column],
        row: usize,
    ) -> Result<usize, AllocError>
        requires ready { IsReady columns.now self.old }
        requires rows { HaveRows columns.now (firsts_of self.old) }
        requires row { HaveRow columns.now row }
        ensures ready { OnOk result (IsReady columns.now self.new) }
        ensures number { IfOk result (IsNumbered (row_at columns.now) (firsts_of self.old) (firsts_of self.new) row) }
    {
        match self {
            KeyTable::Hashed(buckets) => {
                if let Some(key) = buckets.number_of(alloc, columns, row)? {
                    return Ok(key);
                }
            }
            KeyTable::Ordered(keys) => return keys.number_of(columns, row),
        }
        self.number_by_order(alloc, columns, row)
    }

    // The same, and the keys are found by the order of rows from here on.
    fn number_by_order(
        &mut self,
        alloc: Global,
        columns: &'a [Column],
        row: usize,
    ) -> Result<usize, AllocError>
        requires rows { HaveRows columns.now (firsts_of self.old) }
        requires row { HaveRow columns.now row }
        ensures ready { OnOk result (IsReady columns.now self.new) }
        ensures number { IfOk result (IsNumbered (row_at columns.now) (firsts_of self.old) (firsts_of self.new) row) }
    {
        let mut keys = OrderedKeys::of(alloc, columns, self.firsts())?;
        let key = keys.number_of(columns, row)?;
        *self = KeyTable::Ordered(keys);
        Ok(key)
    }

    // The first row of each key.
    fn firsts(&self) -> &[usize]
        ensures { result.now ≡ firsts_of self.now }
    {
        match self {
            KeyTable::Hashed(buckets) => buckets.firsts.as_slice(),
            KeyTable::Ordered(keys) => keys.firsts.as_slice(),
        }
    }

    /// The first row of each key, by the key's number.
    pub(crate) fn into_firsts(self) -> Vec<usize>
        ensures { result ≡ first_rows self.entry }
    {
        match self {
            KeyTable::Hashed(KeyBuckets { firsts, .. }) => firsts,
            KeyTable::Ordered(OrderedKeys { firsts, .. }) => firsts,
        }
    }
}

// Keys that are known by the places of a row's values.
//
// Where each column picks its values from others, rows whose values stand at the same places have the
// same key, which is told without a look at the values. A key that isn't known is looked for in the table.
ghost use Rattle.std.specs.Prelude.{◌≡◌, ◌<◌, ℕ, List, length, IfOk, IfSome, OnOk};
ghost use Rattle.ps_keys.specs.Chains.{HaveRows, IsNumbered};
ghost use Rattle.ps_keys.specs.Codes.{ArePickedColumns, Knows, code_at};
ghost use Rattle.ps_keys.specs.Hashes.{HaveRow, row_at};
ghost use Rattle.ps_keys.specs.Tables.{IsReady, firsts_of};

use crate::table::KeyTable;
use ps_frame::column::Column;
use std::alloc::{AllocError, Global};

/// The places of a column's values among so many.
#[derive(Drop)]
pub(crate) struct PickedColumn<'a> {
    pub(crate) places: &'a [u32],
    pub(crate) count: usize,
}

/// The keys of rows by their codes: each is 0, or one more than the key's number.
///
/// No more than time depends on how many codes there are.
#[derive(Drop)]
pub(crate) struct KnownKeys<'a> {
    pub(crate) picks: Vec<PickedColumn<'a>>,
    pub(crate) keys: Vec<usize>,
}

impl<'a> KnownKeys<'a> {
    /// No key is known. Keys become known where the columns have at most `most` codes.
    ///
    /// Fails only for want of memory.
    pub(crate) fn new(
        alloc: Global,
        columns: &'a [Column],
        most: usize,
    ) -> Result<KnownKeys<'a>, AllocError>
        ensures { (firsts : List ℕ) → IfOk result (Knows columns.now firsts) }
    {
        if let Some(picks) = picks_of(alloc, columns)? {
            let count = code_count(picks.as_slice());
            if count <= most {
                let keys = vec![in alloc; 0usize; count]?;
                return Ok(KnownKeys { picks, keys });
            }
        }
        Ok(KnownKeys {
            picks: Vec::new(alloc),
            keys: Vec::new(alloc),
        })
    }

    /// The number of a row's key, which is put into the table if it is new.
    ///
    /// Fails only for want of memory.
    pub(crate) fn number_of(
        &mut self,
        alloc: Global,
        table: &mut KeyTable<'a>,
        columns: &'a [Column],
        row: usize,
    ) -> Result<usize, AllocError>
        requires known { Knows columns.now (firsts_of table.old) self.old }
        requires ready { IsReady columns.now table.old }
        requires rows { HaveRows columns.now (firsts_of table.old) }
        requires row { HaveRow columns.now row }
        ensures known { OnOk result (Knows columns.now (firsts_of table.new) self.new) }
        ensures ready { OnOk result (IsReady columns.now table.new) }
        ensures number { IfOk result (IsNumbered (row_at columns.now) (firsts_of table.old) (firsts_of table.new) row) }
    {
        let Some(slot) = self.slot(row) else {
            return table.number_of(alloc, columns, row);
        };
        if self.keys[slot] == 0 {
            let key = table.number_of(alloc, columns, row)?;
            self.keys[slot] = key + 1;
            return Ok(key);
        }
        Ok(self.keys[slot] - 1)
    }

    // Where the key of a row with these places stands, if there is room for it.
    fn slot(&self, row: usize) -> Option<usize>
        ensures code { IfSome result (λ slot. slot ≡ code_at self.now.picks.items row) }
        ensures within { IfSome result (λ slot. slot < length self.now.keys.items) }
    {
        let code = code_of(self.picks.as_slice(), row)?;
        if code < self.keys.len() {
            Some(code)
        } else {
            None
        }
    }
}

// The places of the values of each column, if each picks its values from others.
fn picks_of<'a>(
    alloc: Global,
    columns: &'a [Column],
) -> Result<Option<Vec<PickedColumn<'a>>>, AllocError>
    ensures { IfOk result (λ o. IfSome o (λ picks. ArePickedColumns picks.items columns.now)) }
{
    let mut picks = Vec::with_capacity(alloc, columns.len())?;
    for column in columns {
        let Some((places, count)) = column.picks() else {
            return Ok(None);
        };
        picks.push(PickedColumn { places, count })?;
    }
    Ok(Some(picks))
}

// How many codes there are.
fn code_count(picks: &[PickedColumn]) -> usize {
    let mut count = 1usize;
    for picks in picks {
        count = count.saturating_mul(picks.count);
    }
    count
}

// The code of a row: the number whose digits are the places of its values.
fn code_of(picks: &[PickedColumn], row: usize) -> Option<usize>
    ensures { IfSome result (λ code. code ≡ code_at picks.now row) }
{
    let mut code = 0usize;
    for picks in picks {
        let place = *picks.places.get(row)? as usize;
        code = code.checked_mul(picks.count)?.checked_add(place)?;
    }
    Some(code)
}

// The keys of rows, found by the order of their values.
//
// No keys make this slow: a number is found by some comparisons of rows, at most as many as there are
// digits in the binary number of keys, times a small factor.
ghost use Rattle.std.specs.Prelude.{◌≡◌, ◌∷◌, ◌++◌, [], IfOk, OnOk};
ghost use Rattle.ps_keys.specs.Chains.{HaveRows, IsNumbered};
ghost use Rattle.ps_keys.specs.Hashes.{HaveRow, row_at};
ghost use Rattle.ps_keys.specs.Ordered.{IsOrdered};

use crate::row_order::OrderedRow;
use ps_frame::column::Column;
use std::alloc::{AllocError, Global};
use std::collections::BTreeMap;

/// The first row of each key by the key's number, and the numbers of keys in the order of their rows.
#[derive(Drop)]
pub(crate) struct OrderedKeys<'a> {
    pub(crate) firsts: Vec<usize>,
    pub(crate) numbers: BTreeMap<OrderedRow<'a>, usize>,
}

impl<'a> OrderedKeys<'a> {
    /// The keys of which these are the first rows.
    ///
    /// Fails only for want of memory.
    pub(crate) fn of(
        alloc: Global,
        columns: &'a [Column],
        firsts: &[usize],
    ) -> Result<OrderedKeys<'a>, AllocError>
        requires { HaveRows columns.now firsts.now }
        ensures ordered { IfOk result (IsOrdered columns.now) }
        ensures kept { IfOk result (λ keys. keys.firsts.items ≡ firsts.now) }
    {
        let mut keys = OrderedKeys {
            firsts: Vec::with_capacity(alloc, firsts.len())?,
            numbers: BTreeMap::new(alloc),
        };
        for row in firsts {
            keys.push(columns, *row)?;
        }
        Ok(keys)
    }

    /// The number of a row's key, which is put in if it is new.
    ///
    /// Fails only for want of memory.
    pub(crate) fn number_of(
        &mut self,
        columns: &'a [Column],
        row: usize,
    ) -> Result<usize, AllocError>
        requires ordered { IsOrdered columns.now self.old }
        requires row { HaveRow columns.now row }
        ensures ordered { OnOk result (IsOrdered columns.now self.new) }
        ensures number { IfOk result (IsNumbered (row_at columns.now) self.old.firsts.items self.new.firsts.items row) }
    {
        if let Some(key) = self.numbers.get(&OrderedRow { columns, row }) {
            return Ok(*key);
        }
        let key = self.firsts.len();
        self.push(columns, row)?;
        Ok(key)
    }

    // Puts in a key by its first row.
    fn push(&mut self, columns: &'a [Column], row: usize) -> Result<(), AllocError>
        requires ordered { IsOrdered columns.now self.old }
        requires row { HaveRow columns.now row }
        ensures ordered { OnOk result (IsOrdered columns.now self.new) }
        ensures pushed { OnOk result (self.new.firsts.items ≡ self.old.firsts.items ++ row ∷ []) }
    {
        self.numbers
            .insert(OrderedRow { columns, row }, self.firsts.len())?;
        self.firsts.push(row)?;
        Ok(())
    }
}

//! The iterators of a `BytesIndexMap`, in the order of insertion. Each is seen as the list of what it still gives.
ghost use Rattle.std.specs.Iterator.{YieldsFirstRef, YieldsFirstBy, item_count};

use crate::key_table::KeyTable;
use std::marker::Model;

/// The hashes and keys of a map.
#[derive(Drop)]
pub struct HashKeys<'a> {
    pub(crate) table: &'a KeyTable,
    // The number of the next key.
    pub(crate) index: usize,
}

impl<'a> Model for HashKeys<'a> {
    ghost use Rattle.std.specs.Prelude.{List, drop, length, ◌≤◌};
    ghost use Rattle.pu_map.specs.Keys.{Key};

    ghost Value = { List Key };

    ghost view = { λ it. drop it.index it.table.now.keys };

    ghost invariant = { λ it. it.index ≤ length it.table.now.keys };
}

impl<'a> Iterator for HashKeys<'a> {
    type Item = (u64, &'a [u8]);

    ghost next_gives = { YieldsFirstBy (λ item. (item.0, item.1.now)) (λ rest. rest) };

    ghost remaining = { item_count (λ rest. rest) };

    fn next(&mut self) -> Option<(u64, &'a [u8])> {
        let table = self.table;
        let index = self.index;
        if index >= table.len() {
            return None;
        }
        self.index = index + 1;
        Some(table.key(index))
    }
}

/// The values of a map.
#[derive(Drop)]
pub struct Values<'a, V> {
    pub(crate) values: &'a [V],
}

impl<'a, V> Model for Values<'a, V> {
    ghost use Rattle.std.specs.Prelude.{List};

    ghost Value = { List V };

    ghost view = { λ it. it.values.now };
}

impl<'a, V> Iterator for Values<'a, V> {
    type Item = &'a V;

    ghost next_gives = { YieldsFirstRef (λ rest. rest) };

    ghost remaining = { item_count (λ rest. rest) };

    fn next(&mut self) -> Option<&'a V> {
        let (first, others) = self.values.split_first()?;
        self.values = others;
        Some(first)
    }
}

//! The iterators of a slot map, in the order of insertion. Each is seen as the list of what it still gives.
ghost use Rattle.std.specs.Iterator.{YieldsFirst, YieldsFirstBy, item_count};

use crate::key::Key;
use std::marker::{Model, PhantomData};

/// The keys that have a value, with their values.
#[derive(Drop)]
pub struct Iter<'a, K: Key, V> {
    pub(crate) slots: &'a [Option<V>],
    // The number of the first of `slots`.
    pub(crate) number: u32,
    pub(crate) key: PhantomData<K>,
}

impl<'a, K: Key, V> Model for Iter<'a, K, V> {
    ghost use Rattle.std.specs.Prelude.{List, length, ◌+◌, ◌<◌, ◌^◌};
    ghost use Rattle.keyed_slots.specs.Slots.{live_from};

    ghost Value = { List (K × V) };

    ghost view = { λ it. live_from K.key_of it.number it.slots.now };

    ghost invariant = { λ it. it.number + length it.slots.now < 2 ^ 32 };
}

impl<'a, K: Key, V> Iterator for Iter<'a, K, V> {
    type Item = (K, &'a V);

    ghost next_gives = { YieldsFirstBy (λ item. (item.0, item.1.now)) (λ rest. rest) };

    ghost remaining = { item_count (λ rest. rest) };

    fn next(&mut self) -> Option<(K, &'a V)> {
        while let Some((slot, rest)) = self.slots.split_first() {
            let number = self.number;
            self.slots = rest;
            self.number += 1;
            if let Some(value) = slot {
                return Some((K::from_number(number), value));
            }
        }
        None
    }
}

/// The keys that have a value.
#[derive(Drop)]
pub struct Keys<'a, K: Key, V> {
    pub(crate) pairs: Iter<'a, K, V>,
}

impl<'a, K: Key, V> Model for Keys<'a, K, V> {
    ghost use Rattle.std.specs.Prelude.{List, map};

    ghost Value = { List K };

    ghost view = { λ it. map (λ p. p.0) it.pairs };
}

impl<'a, K: Key, V> Iterator for Keys<'a, K, V> {
    type Item = K;

    ghost next_gives = { YieldsFirst (λ rest. rest) };

    ghost remaining = { item_count (λ rest. rest) };

    fn next(&mut self) -> Option<K> {
        let (key, _) = self.pairs.next()?;
        Some(key)
    }
}

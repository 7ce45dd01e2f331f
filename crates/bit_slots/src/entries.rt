//! An iterator over the values of a row of slots.

ghost use Rattle.std.specs.Iterator.{YieldsFirstBy, item_count};

use crate::Key;
use crate::slot::Slot;
use std::marker::Model;

/// An iterator that yields each key that finds a value in a row, together with that value, from the
/// first slot to the last. In a contract, the iterator is the list of the pairs that are left.
#[derive(Drop)]
pub struct Iter<'a, V> {
    pub(crate) slots: &'a [Slot<V>],
    // The number that the first slot of `slots` has in the row.
    pub(crate) slot: u32,
}

impl<'a, V> Model for Iter<'a, V> {
    ghost use Rattle.std.specs.Prelude.{◌+◌, ◌<◌, length, List};
    ghost use Rattle.bit_slots.specs.declared.Key.{Key};
    ghost use Rattle.bit_slots.specs.Entries.{entries_from};

    ghost Value = { List (Key × V) };

    ghost view = { λ it. entries_from it.slot it.slots.now };

    ghost invariant = { λ it. it.slot + length it.slots.now < 4294967296 };
}

impl<'a, V> Iterator for Iter<'a, V> {
    type Item = (Key, &'a V);

    ghost next_gives = { YieldsFirstBy (λ item. (item.0, item.1.now)) (λ rest. rest) };

    ghost remaining = { item_count (λ rest. rest) };

    fn next(&mut self) -> Option<(Key, &'a V)> {
        while let Some((first, rest)) = self.slots.split_first() {
            let slot = self.slot;
            self.slots = rest;
            self.slot += 1;
            if let Slot::Live(generation, value) = first {
                let generation = *generation;
                return Some((Key { slot, generation }, value));
            }
        }
        None
    }
}

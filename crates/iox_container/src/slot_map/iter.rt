//! The iterator over a slot map.
ghost use Rattle.std.specs.Prelude.{◌≡◌, [], ⊤};
ghost use Rattle.std.specs.Iterator.{YieldsFirstBy, item_count};

use crate::slot_map::SlotMapKey;
use std::iter::FusedIterator;
use std::marker::Model;

/// An iterator over the keys that hold a value, with the values, in rising order.
///
/// Contracts see it as the list of the pairs that are still to come.
///
/// Ported from `iceoryx2_bb_container::slotmap::Iter`.
#[derive(Drop)]
pub struct Iter<'a, T> {
    pub(crate) values: &'a [Option<T>],
    // The key of the first of `values`.
    pub(crate) key: usize,
}

impl<'a, T> Model for Iter<'a, T> {
    ghost use Rattle.std.specs.Prelude.{ℕ, List, length, ◌+◌, ◌^◌, ◌<◌};

    ghost Value = { List (ℕ × T) };

    ghost use Rattle.iox_container.specs.SlotTable.{held_from};

    ghost view = { λ it. held_from it.key it.values.now };

    ghost invariant = { λ it. it.key + length it.values.now < 2 ^ 64 };
}

impl<'a, T> Iterator for Iter<'a, T> {
    type Item = (SlotMapKey, &'a T);

    ghost next_gives = { YieldsFirstBy (λ item. (item.0, item.1.now)) (λ rest. rest) };

    ghost remaining = { item_count (λ rest. rest) };

    fn next(&mut self) -> Option<(SlotMapKey, &'a T)> {
        while let Some((slot, rest)) = self.values.split_first() {
            let key = self.key;
            self.values = rest;
            self.key += 1;
            if let Some(value) = slot {
                return Some((SlotMapKey::new(key), value));
            }
        }
        None
    }
}

impl<'a, T> FusedIterator for Iter<'a, T> {}

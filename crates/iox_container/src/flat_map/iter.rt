//! The iterator over a flat map.
ghost use Rattle.std.specs.Prelude.{◌≡◌, [], ⊤};
ghost use Rattle.std.specs.Iterator.{YieldsFirstBy, item_count};

use std::iter::FusedIterator;
use std::marker::Model;

/// An iterator over the keys with their values, in the order of the places.
///
/// Contracts see it as the list of the pairs that are still to come.
///
/// New in this port: iceoryx2 lists only the keys.
#[derive(Drop)]
pub struct Iter<'a, K, V> {
    pub(crate) places: &'a [Option<(K, V)>],
}

impl<'a, K, V> Model for Iter<'a, K, V> {
    ghost use Rattle.std.specs.Prelude.{List};

    ghost Value = { List (K × V) };

    ghost use Rattle.iox_container.specs.PairTable.{pairs};

    ghost view = { λ it. pairs it.places.now };
}

impl<'a, K, V> Iterator for Iter<'a, K, V> {
    type Item = (&'a K, &'a V);

    ghost next_gives = { YieldsFirstBy (λ item. (item.0.now, item.1.now)) (λ rest. rest) };

    ghost remaining = { item_count (λ rest. rest) };

    fn next(&mut self) -> Option<(&'a K, &'a V)> {
        while let Some((place, rest)) = self.places.split_first() {
            self.places = rest;
            if let Some((key, value)) = place {
                return Some((key, value));
            }
        }
        None
    }
}

impl<'a, K, V> FusedIterator for Iter<'a, K, V> {}

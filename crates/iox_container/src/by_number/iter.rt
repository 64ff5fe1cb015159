//! The iterator over a list by number.
ghost use Rattle.std.specs.Prelude.{length};
ghost use Rattle.std.specs.Iterator.{at_most};
ghost use Rattle.std.specs.Map.Iter.{TakesFirst, deref_pair};

use std::iter::FusedIterator;
use std::marker::Model;

/// An iterator over the numbers of a list with their values, by rising number.
///
/// Contracts see it as the list of what is still to come.
#[derive(Drop)]
pub struct Iter<'a, X> {
    pub(crate) entries: &'a [(u64, Option<Box<X>>)],
}

impl<'a, X> Model for Iter<'a, X> {
    ghost use Rattle.std.specs.Prelude.{ℕ, List};
    ghost use Rattle.iox_container.specs.ByNumber.{values_in};

    ghost Value = { List (ℕ × X) };

    ghost view = { λ it. values_in it.entries.now };
}

impl<'a, X> Iterator for Iter<'a, X> {
    type Item = (&'a u64, &'a X);

    ghost next_gives = { TakesFirst deref_pair };

    ghost remaining = { λ rest. at_most (length rest) };

    fn next(&mut self) -> Option<(&'a u64, &'a X)> {
        while let Some((entry, rest)) = self.entries.split_first() {
            self.entries = rest;
            if let Some(boxed) = &entry.1 {
                return Some((&entry.0, boxed));
            }
        }
        None
    }
}

impl<'a, X> FusedIterator for Iter<'a, X> {}

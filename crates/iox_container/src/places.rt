//! A row of places that touches its memory only as places are first used.
ghost use Rattle.std.specs.Prelude.{◌≡◌, ◌+◌, ◌-◌, ◌<◌, ◌≤◌, ◌++◌, IsSome, length, replicate, slice_set, Some, None, IfOk, option_copied};
ghost use Rattle.std.specs.Vec.{vec_capacity};
ghost use Rattle.std.specs.Borrow.{sem};
ghost use Rattle.iox_container.specs.SlotTable.{value_at};
ghost use Rattle.iox_container.specs.Places.{padded};

use std::alloc::{AllocError, Global};
use std::marker::Model;

/// A row of `count` places, each with a value or none. The memory for all of them is allocated by `new`, but none of it is touched before
/// it is used: the places after the last one that ever had a value are empty, and have no cell.
#[derive(Drop)]
pub(crate) struct Places<T> {
    cells: Vec<Option<T>>,
    count: usize,
}

impl<T> Model for Places<T> {
    ghost use Rattle.std.specs.Prelude.{◌≤◌, List, Option, length};
    ghost use Rattle.std.specs.Vec.{vec_capacity};
    ghost use Rattle.iox_container.specs.Places.{padded};

    ghost Value = { List (Option T) };

    ghost view = { λ p. padded p.count p.cells.items };

    ghost invariant = { λ p. (length p.cells.items ≤ p.count) × (p.count ≤ vec_capacity p.cells) };
}

impl<T> Places<T> {
    ghost use Rattle.iox_container.specs.PlacesLends.{LendsPlace};

    /// `count` empty places. It fails only if an allocation fails.
    pub(crate) fn new(alloc: Global, count: usize) -> Result<Self, AllocError>
        ensures { IfOk result (λ places. places ≡ replicate count None) }
    {
        Ok(Places {
            cells: Vec::with_capacity(alloc, count)?,
            count,
        })
    }

    /// How many places there are.
    pub(crate) fn len(&self) -> usize
        ensures { result ≡ length self.now }
    {
        self.count
    }

    /// The places up to the last that ever had a value.
    pub(crate) fn used(&self) -> &[Option<T>]
        ensures whole { padded (length self.now) result.now ≡ self.now }
        ensures bound { length result.now ≤ length self.now }
    {
        self.cells.as_slice()
    }

    /// The value at a place, if it has one.
    pub(crate) fn get(&self, index: usize) -> Option<&T>
        ensures { option_copied result ≡ value_at self.now index }
    {
        match self.cells.get(index) {
            Some(Some(value)) => Some(value),
            _ => None,
        }
    }

    /// The value at a place that has one, for modification in place.
    pub(crate) fn value_mut(&mut self, index: usize) -> &mut T
        requires { IsSome (value_at self.old index) }
        ensures* writes_back { sem 𝓛 (LendsPlace T.row self.entry index result) }
        ensures value { value_at self.old index ≡ Some result.now }
    {
        self.cells[index].as_mut().unwrap()
    }

    /// Puts a value at a place. A value that the place had before is dropped.
    pub(crate) fn put(&mut self, index: usize, value: T)
    where
        T: Drop,
        requires { index < length self.old }
        ensures { self.new ≡ slice_set self.old index (Some value) }
    {
        make_up_to(index, &mut self.cells);
        self.cells[index] = Some(value);
    }

    /// Takes the value out of a place, if it has one.
    pub(crate) fn take(&mut self, index: usize) -> Option<T>
        ensures value { result ≡ value_at self.old index }
        ensures after { self.new ≡ slice_set self.old index None }
    {
        if index < self.cells.len() {
            self.cells[index].take()
        } else {
            None
        }
    }
}

// Makes the cells up to `index`, each of them empty.
fn make_up_to<T>(index: usize, cells: &mut Vec<Option<T>>)
    requires { index < vec_capacity cells.old }
    ensures items { cells.new.items ≡ cells.old.items ++ replicate (index + 1 - length cells.old.items) None }
    ensures capacity { vec_capacity cells.new ≡ vec_capacity cells.old }
{
    while cells.len() <= index {
        cells.push_reserved(None);
    }
}

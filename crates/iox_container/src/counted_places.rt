//! A row of places that touches its memory only as places are first used.
ghost use Rattle.std.specs.Prelude.{◌≡◌, ◌≤◌, length, replicate, get_or, slice_set, Some, None, IfOk, IfSome, IfNone};
ghost use Rattle.iox_container.specs.CountedPlaces.{padded, lowest_empty, count_filled};

use std::alloc::{AllocError, Global};
use std::marker::Model;

/// A row of `count` places, each empty or filled. The memory for all of them is allocated by `new`, but none of it is touched before it is
/// used: the places after the last one that was ever filled are empty, and have no cell.
#[derive(Drop)]
pub(crate) struct Places<C: Copy> {
    cells: Vec<Option<C>>,
    count: usize,
    // How many of them are filled.
    filled: usize,
}

impl<C: Copy> Model for Places<C> {
    ghost use Rattle.std.specs.Prelude.{◌≡◌, ◌≤◌, List, Option, length};
    ghost use Rattle.std.specs.Vec.{vec_capacity};
    ghost use Rattle.iox_container.specs.CountedPlaces.{padded, count_filled};

    ghost Value = { List (Option C) };

    ghost view = { λ p. padded p.count p.cells.items };

    ghost invariant = { λ p. (length p.cells.items ≤ p.count) × (p.count ≤ vec_capacity p.cells)
        × (p.filled ≡ count_filled p.cells.items) };
}

impl<C: Copy> Places<C> {
    /// `count` empty places. It fails only if an allocation fails.
    pub(crate) fn new(alloc: Global, count: usize) -> Result<Self, AllocError>
        ensures { IfOk result (λ places. places ≡ replicate count None) }
    {
        Ok(Places {
            cells: Vec::with_capacity(alloc, count)?,
            count,
            filled: 0,
        })
    }

    /// A copy of the places, with the same capacity. It fails only if an allocation fails.
    pub(crate) fn copy(&self, alloc: Global) -> Result<Self, AllocError>
        ensures { IfOk result (λ places. places ≡ self.now) }
    {
        let mut cells = Vec::with_capacity(alloc, self.count)?;
        cells.extend_from_slice(self.cells.as_slice())?;
        Ok(Places {
            cells,
            count: self.count,
            filled: self.filled,
        })
    }

    /// Copies the contents of a row of the same length into this one.
    pub(crate) fn copy_from(&mut self, others: &Places<C>)
        requires { length self.old ≡ length others.now }
        ensures { self.new ≡ others.now }
    {
        self.cells.clear();
        // There is room, so it can't fail.
        let _ = self.cells.extend_from_slice(others.cells.as_slice());
        self.filled = others.filled;
    }

    /// How many places there are.
    pub(crate) fn len(&self) -> usize
        ensures { result ≡ length self.now }
    {
        self.count
    }

    /// The places up to the last that was ever filled.
    pub(crate) fn used(&self) -> &[Option<C>]
        ensures whole { padded (length self.now) result.now ≡ self.now }
        ensures bound { length result.now ≤ length self.now }
    {
        self.cells.as_slice()
    }

    /// The content of the place; `None` if the place is empty or the index lies past the last place.
    pub(crate) fn get(&self, index: usize) -> Option<C>
        ensures { result ≡ get_or self.now index None }
    {
        *self.cells.get(index)?
    }

    /// The lowest empty place; `None` if each place is filled.
    pub(crate) fn lowest_empty(&self) -> Option<usize>
        ensures { result ≡ lowest_empty self.now }
    {
        if let Some(index) = lowest_empty(self.cells.as_slice()) {
            return Some(index);
        }
        let next = self.cells.len();
        if next == self.count {
            return None;
        }
        Some(next)
    }

    /// Fills the lowest empty place, and returns its index; `None` if each place is filled.
    pub(crate) fn fill(&mut self, content: C) -> Option<usize>
        ensures answer { result ≡ lowest_empty self.old }
        ensures some { IfSome result (λ index. self.new ≡ slice_set self.old index (Some content)) }
        ensures none { IfNone result (self.new ≡ self.old) }
    {
        if let Some(index) = lowest_empty(self.cells.as_slice()) {
            self.cells[index] = Some(content);
            self.filled += 1;
            return Some(index);
        }
        let index = self.cells.len();
        if index == self.count {
            return None;
        }
        self.cells.push_reserved(Some(content));
        self.filled += 1;
        Some(index)
    }

    /// Empties a place. An index past the last place changes nothing.
    pub(crate) fn empty(&mut self, index: usize)
        ensures { self.new ≡ slice_set self.old index None }
    {
        if index >= self.cells.len() {
            return;
        }
        if !self.cells[index].is_some() {
            return;
        }
        self.cells[index] = None;
        self.filled -= 1;
    }

    /// How many places are filled.
    pub(crate) fn filled(&self) -> usize
        ensures { result ≡ count_filled self.now }
    {
        self.filled
    }
}

fn lowest_empty<C: Copy>(cells: &[Option<C>]) -> Option<usize>
    ensures { result ≡ lowest_empty cells.now }
{
    cells.iter().position(|cell| !cell.is_some())
}

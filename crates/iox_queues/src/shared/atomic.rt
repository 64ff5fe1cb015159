//! The shared single value.
//!
//! The value is stored in two cells alternately: a store writes the cell that no load reads, then moves the position.
//!
//! Ported from `UnrestrictedAtomic` of iceoryx2.
ghost use Rattle.std.specs.Prelude.{◌≡◌, Some, None, true, nat_le, if◌then◌else◌};

use super::calls::{load_single, store_single};
use super::words::{Values, fill, width_of};
use super::{Producer, Shareable, Shared};
use iox_queues_base::{UnrestrictedAtomic, Words};
use std::sync::atomic::AtomicU64;

impl<T: Words> Shareable for UnrestrictedAtomic<T> {
    ghost room = { λ a. 1 };

    fn width(&self) -> Option<usize>
        ensures { result ≡ (if nat_le T.WORDS 16 then Some T.WORDS else None) }
    {
        width_of::<T>()
    }

    fn cells(&self) -> usize
        ensures { result ≡ 2 }
    {
        2
    }

    fn limit(&self) -> u64 {
        1
    }

    // Fills the second cell with the value too, before any store.
    fn pour(&mut self, cell: &[AtomicU64]) -> bool
        ensures answer { result ≡ true }
        ensures after { self.new ≡ self.old }
    {
        fill(cell, &self.load());
        true
    }
}

impl<T: Words> Producer<'_, UnrestrictedAtomic<T>> {
    /// Replaces the value by another.
    pub fn store(&mut self, value: T) {
        let mut cells = Values {
            words: self.words,
            value: Some(value),
        };
        store_single(&mut cells);
    }
}

impl<T: Words> Shared<UnrestrictedAtomic<T>> {
    /// The value stored last; `None` if during each of 2^20 tries a store finished.
    pub fn load(&self) -> Option<T> {
        let mut cells = Values {
            words: &self.words,
            value: None,
        };
        if load_single(&mut cells) {
            cells.value
        } else {
            None
        }
    }
}

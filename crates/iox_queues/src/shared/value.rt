//! The shared queue of values of any type that is copied as words.
//!
//! Its pushes and pops are those of the refusing ring. An access to a cell accesses the words of a value one after another.
ghost use Rattle.std.specs.Prelude.{◌≡◌, Some, None, drop, slice_get, nat_le, if◌then◌else◌};
ghost use Rattle.std.specs.Option.{is_some};

use super::calls::{pop_refusing, push_refusing};
use super::words::{Values, fill, width_of};
use super::{Consumer, Producer, Shareable, SharedQueue};
use iox_queues_base::{Queue, Words};
use std::sync::atomic::AtomicU64;

impl<T: Words, const CAPACITY: usize> Shareable for Queue<T, CAPACITY> {
    ghost room = { λ q. CAPACITY };

    fn width(&self) -> Option<usize>
        ensures { result ≡ (if nat_le T.WORDS 16 then Some T.WORDS else None) }
    {
        width_of::<T>()
    }

    fn cells(&self) -> usize
        ensures { result ≡ CAPACITY }
    {
        CAPACITY
    }

    fn limit(&self) -> u64 {
        CAPACITY as u64
    }

    fn pour(&mut self, cell: &[AtomicU64]) -> bool
        ensures answer { result ≡ is_some (slice_get self.old 0) }
        ensures after { self.new ≡ drop 1 self.old }
    {
        match self.pop() {
            Some(value) => {
                fill(cell, &value);
                true
            }
            None => false,
        }
    }
}

impl<T: Words, const CAPACITY: usize> SharedQueue for Queue<T, CAPACITY> {}

impl<T: Words, const CAPACITY: usize> Producer<'_, Queue<T, CAPACITY>> {
    /// Appends the value and returns true, or returns false if the queue is full.
    pub fn push(&mut self, value: &T) -> bool {
        let mut cells = Values {
            words: self.words,
            value: Some(*value),
        };
        push_refusing(&mut cells, self.limit, 0)
    }
}

impl<T: Words, const CAPACITY: usize> Consumer<'_, Queue<T, CAPACITY>> {
    /// Removes the oldest value and returns it; `None` if the queue is empty.
    pub fn pop(&mut self) -> Option<T> {
        let mut cells = Values {
            words: self.words,
            value: None,
        };
        pop_refusing(&mut cells)?;
        cells.value
    }
}

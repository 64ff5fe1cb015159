//! The shared queues of numbers.
ghost use Rattle.std.specs.Prelude.{◌≡◌, ◌+◌, ◌-◌, ◌^◌, min, Some, drop, slice_get};
ghost use Rattle.std.specs.Option.{is_some};

use super::calls::{pop_overflowing, pop_refusing, push_overflowing, push_refusing};
use super::words::{Numbers, SharedWords, fill};
use super::{Consumer, Producer, Shareable, SharedQueue};
use iox_queues_base::{
    FixedSizeIndexQueue, FixedSizeSafelyOverflowingIndexQueue, IndexQueue,
    SafelyOverflowingIndexQueue,
};
use std::sync::atomic::AtomicU64;

// Stores the number in the cell, if there is one.
fn pour_number(cell: &[AtomicU64], oldest: Option<u64>) -> bool
    ensures { result ≡ is_some oldest }
{
    match oldest {
        Some(value) => {
            fill(cell, &value);
            true
        }
        None => false,
    }
}

impl Shareable for IndexQueue {
    ghost room = { λ q. q.capacity };

    fn width(&self) -> Option<usize>
        ensures { result ≡ Some 1 }
    {
        Some(1)
    }

    fn cells(&self) -> usize
        ensures { result ≡ self.now.capacity }
    {
        self.capacity()
    }

    fn limit(&self) -> u64 {
        self.capacity() as u64
    }

    fn pour(&mut self, cell: &[AtomicU64]) -> bool
        ensures answer { result ≡ is_some (slice_get self.old.waiting 0) }
        ensures after { self.new ≡ record self.old { waiting = drop 1 self.old.waiting } }
    {
        pour_number(cell, self.pop())
    }
}

impl SharedQueue for IndexQueue {}

impl<const CAPACITY: usize> Shareable for FixedSizeIndexQueue<CAPACITY> {
    ghost room = { λ q. CAPACITY };

    fn width(&self) -> Option<usize>
        ensures { result ≡ Some 1 }
    {
        Some(1)
    }

    fn cells(&self) -> usize
        ensures { result ≡ CAPACITY }
    {
        self.capacity()
    }

    fn limit(&self) -> u64 {
        self.capacity() as u64
    }

    fn pour(&mut self, cell: &[AtomicU64]) -> bool
        ensures answer { result ≡ is_some (slice_get self.old 0) }
        ensures after { self.new ≡ drop 1 self.old }
    {
        pour_number(cell, self.pop())
    }
}

impl<const CAPACITY: usize> SharedQueue for FixedSizeIndexQueue<CAPACITY> {}

impl Shareable for SafelyOverflowingIndexQueue {
    ghost room = { λ q. q.capacity };

    fn width(&self) -> Option<usize>
        ensures { result ≡ Some 1 }
    {
        Some(1)
    }

    fn cells(&self) -> usize
        ensures { result ≡ min (self.now.capacity + 1) (2 ^ 64 - 1) }
    {
        self.capacity().saturating_add(1)
    }

    fn limit(&self) -> u64 {
        self.capacity() as u64
    }

    fn pour(&mut self, cell: &[AtomicU64]) -> bool
        ensures answer { result ≡ is_some (slice_get self.old.waiting 0) }
        ensures after { self.new ≡ record self.old { waiting = drop 1 self.old.waiting } }
    {
        pour_number(cell, self.pop())
    }
}

impl SharedQueue for SafelyOverflowingIndexQueue {}

impl<const CAPACITY: usize> Shareable for FixedSizeSafelyOverflowingIndexQueue<CAPACITY> {
    ghost room = { λ q. CAPACITY };

    fn width(&self) -> Option<usize>
        ensures { result ≡ Some 1 }
    {
        Some(1)
    }

    fn cells(&self) -> usize
        ensures { result ≡ min (CAPACITY + 1) (2 ^ 64 - 1) }
    {
        self.capacity().saturating_add(1)
    }

    fn limit(&self) -> u64 {
        self.capacity() as u64
    }

    fn pour(&mut self, cell: &[AtomicU64]) -> bool
        ensures answer { result ≡ is_some (slice_get self.old 0) }
        ensures after { self.new ≡ drop 1 self.old }
    {
        pour_number(cell, self.pop())
    }
}

impl<const CAPACITY: usize> SharedQueue for FixedSizeSafelyOverflowingIndexQueue<CAPACITY> {}

impl Producer<'_, IndexQueue> {
    /// Appends the number and returns true, or returns false if the queue is full.
    pub fn push(&mut self, value: u64) -> bool {
        push_refusing(&mut numbers(self.words), self.limit, value)
    }
}

impl<const CAPACITY: usize> Producer<'_, FixedSizeIndexQueue<CAPACITY>> {
    /// Appends the number and returns true, or returns false if the queue is full.
    pub fn push(&mut self, value: u64) -> bool {
        push_refusing(&mut numbers(self.words), self.limit, value)
    }
}

impl Producer<'_, SafelyOverflowingIndexQueue> {
    /// Appends the number. A full queue removes its oldest number and returns it.
    pub fn push(&mut self, value: u64) -> Option<u64> {
        push_over(self.words, self.limit, value)
    }
}

impl<const CAPACITY: usize> Producer<'_, FixedSizeSafelyOverflowingIndexQueue<CAPACITY>> {
    /// Appends the number. A full queue removes its oldest number and returns it.
    pub fn push(&mut self, value: u64) -> Option<u64> {
        push_over(self.words, self.limit, value)
    }
}

impl Consumer<'_, IndexQueue> {
    /// Removes the oldest number and returns it; `None` if the queue is empty.
    pub fn pop(&mut self) -> Option<u64> {
        pop_refusing(&mut numbers(self.words))
    }
}

impl<const CAPACITY: usize> Consumer<'_, FixedSizeIndexQueue<CAPACITY>> {
    /// Removes the oldest number and returns it; `None` if the queue is empty.
    pub fn pop(&mut self) -> Option<u64> {
        pop_refusing(&mut numbers(self.words))
    }
}

impl Consumer<'_, SafelyOverflowingIndexQueue> {
    /// Removes the oldest number and returns it; `None` if the queue is empty, or after 2^20 lost exchanges.
    pub fn pop(&mut self) -> Option<u64> {
        pop_overflowing(&mut numbers(self.words))
    }
}

impl<const CAPACITY: usize> Consumer<'_, FixedSizeSafelyOverflowingIndexQueue<CAPACITY>> {
    /// Removes the oldest number and returns it; `None` if the queue is empty, or after 2^20 lost exchanges.
    pub fn pop(&mut self) -> Option<u64> {
        pop_overflowing(&mut numbers(self.words))
    }
}

// The words as the memory of a call.
fn numbers(words: &SharedWords) -> Numbers<'_> {
    Numbers { words }
}

// Pushes the number; a queue of capacity 0 returns it instead.
fn push_over(words: &SharedWords, limit: u64, value: u64) -> Option<u64> {
    if limit == 0 {
        return Some(value);
    }
    push_overflowing(&mut numbers(words), limit, value)
}

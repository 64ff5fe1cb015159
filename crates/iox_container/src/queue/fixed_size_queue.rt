//! A queue whose capacity is part of its type.
ghost use Rattle.std.specs.Prelude.{◌≡◌, ℕ, ◌+◌, ◌<◌, ◌≤◌, ◌↔◌, List, [], ◌∷◌, ◌++◌, length, drop, IsTrue, IsSome, IsOk, IfOk, IfNone};
ghost use Rattle.std.specs.Prelude.{Option, Some, None, slice_get, if◌then◌else◌};
ghost use Rattle.std.specs.Option.{option_copied, option_copied_mut, option_to_list};
ghost use Rattle.std.specs.Borrow.{sem};
ghost use Rattle.std.specs.Cmp.Lexicographic.{pointwise, lists_equiv, lists_per};
ghost use Rattle.iox_container.specs.BoundedList.{overflow_of, pushed_with_overflow};

use crate::queue::Queue;
use std::alloc::{AllocError, Global};
use std::fmt;
use std::marker::Model;

/// A queue of at most `CAPACITY` items. `new` allocates all its memory, and no other call allocates.
///
/// Contracts see it as the list of its items, the oldest first.
///
/// Ported from `iceoryx2_bb_container::queue::FixedSizeQueue`.
#[derive(Drop)]
pub struct FixedSizeQueue<T, const CAPACITY: usize> {
    queue: Queue<T>,
}

impl<T, const CAPACITY: usize> Model for FixedSizeQueue<T, CAPACITY> {
    ghost use Rattle.std.specs.Prelude.{◌≡◌, List};

    ghost Value = { List T };

    ghost view = { λ q. q.queue.items };

    ghost invariant = { λ q. q.queue.capacity ≡ CAPACITY };
}

impl<T, const CAPACITY: usize> FixedSizeQueue<T, CAPACITY> {
    ghost use Rattle.iox_container.specs.FixedSizeQueueLends.{LendsOldest};

    /// An empty queue. It fails only if an allocation fails, and never at capacity 0.
    pub fn new(alloc: Global) -> Result<Self, AllocError>
        ensures empty { IfOk result (λ q. q ≡ []) }
        ensures succeeds { CAPACITY ≡ 0 → IsOk result }
    {
        Ok(FixedSizeQueue {
            queue: Queue::new(alloc, CAPACITY)?,
        })
    }

    /// How many items the queue holds.
    pub fn len(&self) -> usize
        ensures value { result ≡ length self.now }
        ensures fits { result ≤ CAPACITY }
    {
        self.queue.len()
    }

    /// The maximum number of items, which is `CAPACITY`.
    pub fn capacity(&self) -> usize
        ensures { result ≡ CAPACITY }
    {
        CAPACITY
    }

    /// Whether the queue holds no item.
    pub fn is_empty(&self) -> bool
        ensures { IsTrue result ↔ (self.now ≡ []) }
    {
        self.queue.is_empty()
    }

    /// Whether no further item fits.
    pub fn is_full(&self) -> bool
        ensures { IsTrue result ↔ (length self.now ≡ CAPACITY) }
    {
        self.queue.is_full()
    }

    /// Appends the item and returns true. If the queue is full, drops the item and returns false.
    pub fn push(&mut self, value: T) -> bool
    where
        T: Drop,
        ensures answer { IsTrue result ↔ (length self.old < CAPACITY) }
        ensures items { self.new ≡ (if result then self.old ++ value ∷ [] else self.old) }
    {
        self.queue.push(value)
    }

    /// Appends the item. If the queue is full, its oldest item is removed and returned; at capacity 0 the new item itself is returned.
    pub fn push_with_overflow(&mut self, value: T) -> Option<T>
        ensures overflow { result ≡ overflow_of CAPACITY self.old value }
        ensures items { self.new ≡ pushed_with_overflow CAPACITY self.old value }
    {
        self.queue.push_with_overflow(value)
    }

    /// Removes the oldest item and returns it, if there is one.
    pub fn pop(&mut self) -> Option<T>
        ensures oldest { self.old ≡ option_to_list result ++ self.new }
        ensures variant { IsSome result ↔ (0 < length self.old) }
    {
        self.queue.pop()
    }

    /// The oldest item, if there is one.
    pub fn peek(&self) -> Option<&T>
        ensures { option_copied result ≡ slice_get self.now 0 }
    {
        self.queue.peek()
    }

    /// The oldest item for modification in place, if there is one.
    pub fn peek_mut(&mut self) -> Option<&mut T>
        ensures* writes_back { sem 𝓛 (LendsOldest T.row CAPACITY.row self.entry result) }
        ensures value { option_copied_mut result ≡ slice_get self.old 0 }
    {
        self.queue.peek_mut()
    }

    /// The item at `index`, counted from the oldest, which has index 0.
    pub fn get(&self, index: usize) -> T
    where
        T: Copy,
        requires { index < length self.now }
        ensures { slice_get self.now index ≡ Some result }
    {
        self.queue.get(index)
    }

    /// Drops every item, the oldest first.
    pub fn clear(&mut self)
    where
        T: Drop,
        ensures { self.new ≡ [] }
    {
        self.queue.clear();
    }
}

/// Two queues are equal if their items are equal, in order.
impl<T: PartialEq, const CAPACITY: usize> PartialEq for FixedSizeQueue<T, CAPACITY> {
    ghost eq = { λ p q. pointwise T.eq p q };

    ghost laws = { lists_per T.laws };

    fn eq(&self, other: &Self) -> bool {
        self.queue == other.queue
    }
}

impl<T: Eq, const CAPACITY: usize> Eq for FixedSizeQueue<T, CAPACITY> {
    ghost laws = { lists_equiv T.Eq.laws };
}

/// Shows the items as a list, the oldest first.
impl<T: fmt::Debug, const CAPACITY: usize> fmt::Debug for FixedSizeQueue<T, CAPACITY> {
    fn fmt<W: fmt::Write>(&self, f: &mut fmt::Formatter<W>) -> fmt::Result {
        fmt::Debug::fmt(&self.queue, f)
    }
}

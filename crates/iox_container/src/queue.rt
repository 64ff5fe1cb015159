//! First-in, first-out queues of fixed capacity.
ghost use Rattle.std.specs.Prelude.{◌≡◌, ℕ, ◌+◌, ◌<◌, ◌≤◌, ◌↔◌, List, [], ◌∷◌, ◌++◌, length, drop, IsTrue, IsSome, IsOk, IfOk, IfNone};
ghost use Rattle.std.specs.Prelude.{Option, Some, None, slice_get, slice_index_or, if◌then◌else◌};
ghost use Rattle.std.specs.Option.{option_copied, option_copied_mut, option_to_list};
ghost use Rattle.std.specs.Borrow.{sem};
ghost use Rattle.std.specs.Cmp.{on_equiv, on_per};
ghost use Rattle.std.specs.Cmp.Lexicographic.{pointwise, lists_equiv, lists_per};
ghost use Rattle.iox_container.specs.BoundedList.{overflow_of, pushed_with_overflow};

use std::alloc::{AllocError, Global};
use std::collections::VecDeque;
use std::fmt;
use std::marker::Model;

mod fixed_size_queue;

pub use fixed_size_queue::FixedSizeQueue;

/// A queue of at most `capacity` items. `new` allocates all its memory, and no other call allocates.
///
/// Contracts see it as its `items`, the oldest first, and its `capacity`.
///
/// Ported from `iceoryx2_bb_container::queue::Queue`.
#[derive(Drop)]
pub struct Queue<T> {
    ring: VecDeque<T>,
    capacity: usize,
}

impl<T> Model for Queue<T> {
    ghost use Rattle.std.specs.Prelude.{◌≤◌};
    ghost use Rattle.std.specs.VecDeque.{deque_capacity, deque_len};
    ghost use Rattle.iox_container.specs.BoundedList.{BoundedList};

    ghost Value = { BoundedList T };

    ghost view = { λ q. record { items = q.ring.items; capacity = q.capacity } };

    ghost invariant = { λ q. (deque_len q.ring ≤ q.capacity) × (q.capacity ≤ deque_capacity q.ring) };
}

impl<T> Queue<T> {
    ghost use Rattle.iox_container.specs.QueueLends.{LendsOldest};

    /// An empty queue with this capacity. It fails only if an allocation fails, and never at capacity 0.
    pub fn new(alloc: Global, capacity: usize) -> Result<Self, AllocError>
        ensures empty { IfOk result (λ q. q.items ≡ []) }
        ensures capacity { IfOk result (λ q. q.capacity ≡ capacity) }
        ensures succeeds { capacity ≡ 0 → IsOk result }
    {
        Ok(Queue {
            ring: VecDeque::with_capacity(alloc, capacity)?,
            capacity,
        })
    }

    /// How many items the queue holds.
    pub fn len(&self) -> usize
        ensures value { result ≡ length self.now.items }
        ensures fits { result ≤ self.now.capacity }
    {
        self.ring.len()
    }

    /// The maximum number of items.
    pub fn capacity(&self) -> usize
        ensures { result ≡ self.now.capacity }
    {
        self.capacity
    }

    /// Whether the queue holds no item.
    pub fn is_empty(&self) -> bool
        ensures { IsTrue result ↔ (self.now.items ≡ []) }
    {
        self.ring.is_empty()
    }

    /// Whether no further item fits.
    pub fn is_full(&self) -> bool
        ensures { IsTrue result ↔ (length self.now.items ≡ self.now.capacity) }
    {
        self.len() == self.capacity
    }

    /// Appends the item and returns true. If the queue is full, drops the item and returns false.
    pub fn push(&mut self, value: T) -> bool
    where
        T: Drop,
        ensures answer { IsTrue result ↔ (length self.old.items < self.old.capacity) }
        ensures items { self.new.items ≡ (if result then self.old.items ++ value ∷ [] else self.old.items) }
        ensures capacity { self.new.capacity ≡ self.old.capacity }
    {
        if self.is_full() {
            return false;
        }
        self.ring.push_back_reserved(value);
        true
    }

    /// Appends the item. If the queue is full, its oldest item is removed and returned; at capacity 0 the new item itself is returned.
    pub fn push_with_overflow(&mut self, value: T) -> Option<T>
        ensures overflow { result ≡ overflow_of self.old.capacity self.old.items value }
        ensures items { self.new.items ≡ pushed_with_overflow self.old.capacity self.old.items value }
        ensures capacity { self.new.capacity ≡ self.old.capacity }
    {
        if self.capacity == 0 {
            return Some(value);
        }
        let oldest = if self.is_full() { self.pop() } else { None };
        self.ring.push_back_reserved(value);
        oldest
    }

    /// Removes the oldest item and returns it, if there is one.
    pub fn pop(&mut self) -> Option<T>
        ensures oldest { self.old.items ≡ option_to_list result ++ self.new.items }
        ensures variant { IsSome result ↔ (0 < length self.old.items) }
        ensures capacity { self.new.capacity ≡ self.old.capacity }
    {
        self.ring.pop_front()
    }

    /// The oldest item, if there is one.
    pub fn peek(&self) -> Option<&T>
        ensures { option_copied result ≡ slice_get self.now.items 0 }
    {
        self.ring.front()
    }

    /// The oldest item for modification in place, if there is one.
    pub fn peek_mut(&mut self) -> Option<&mut T>
        ensures* writes_back { sem 𝓛 (LendsOldest T.row self.entry result) }
        ensures value { option_copied_mut result ≡ slice_get self.old.items 0 }
    {
        self.ring.front_mut()
    }

    /// The item at `index`, counted from the oldest, which has index 0.
    pub fn get(&self, index: usize) -> T
    where
        T: Copy,
        requires { index < length self.now.items }
        ensures { slice_get self.now.items index ≡ Some result }
    {
        self.ring[index]
    }

    /// Drops every item, the oldest first.
    pub fn clear(&mut self)
    where
        T: Drop,
        ensures items { self.new.items ≡ [] }
        ensures capacity { self.new.capacity ≡ self.old.capacity }
    {
        self.ring.clear();
    }
}

/// Two queues are equal if their items are equal, in order.
impl<T: PartialEq> PartialEq for Queue<T> {
    ghost eq = { λ p q. pointwise T.eq p.items q.items };

    ghost laws = { on_per (λ q. q.items) (lists_per T.laws) };

    fn eq(&self, other: &Self) -> bool {
        self.ring == other.ring
    }
}

impl<T: Eq> Eq for Queue<T> {
    ghost laws = { on_equiv (λ q. q.items) (lists_equiv T.Eq.laws) };
}

/// Shows the items as a list, the oldest first.
impl<T: fmt::Debug> fmt::Debug for Queue<T> {
    fn fmt<W: fmt::Write>(&self, f: &mut fmt::Formatter<W>) -> fmt::Result {
        fmt::Debug::fmt(&self.ring, f)
    }
}

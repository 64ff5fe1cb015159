//! Queues of numbers of two kinds: when full, one kind refuses a push, and the other removes its oldest number and returns it.
//!
//! Ported from `IndexQueue`, `SafelyOverflowingIndexQueue` and their fixed-size forms in iceoryx2.
ghost use Rattle.std.specs.Prelude.{◌≡◌, ◌<◌, ◌≤◌, ◌==◌, ◌++◌, ◌∷◌, [], option_to_list, length, drop, nat_lt, nat_le, slice_get};
ghost use Rattle.std.specs.Prelude.{if◌then◌else◌, IfOk, IfSome};
ghost use Rattle.iox_queues_base.specs.Waiting.{Bounded, put, put_over, left_out};

use std::alloc::{AllocError, Global};
use std::collections::VecDeque;
use std::marker::{Model, PhantomData};

/// The kind of a queue that refuses a push when it is full.
#[derive(Clone, Copy, Debug)]
pub struct Refusing;

/// The kind of a queue that removes its oldest number when a push finds it full.
#[derive(Clone, Copy, Debug)]
pub struct Overflowing;

/// A queue of numbers of kind `K` whose capacity is chosen by `new`. Contracts see the waiting numbers, oldest first, and the capacity.
#[derive(Debug, Drop)]
pub struct NumberQueue<K> {
    waiting: VecDeque<u64>,
    capacity: usize,
    kind: PhantomData<K>,
}

/// A queue that refuses a push when it is full, and whose capacity is chosen by `new`.
pub type IndexQueue = NumberQueue<Refusing>;

/// A queue that removes its oldest number when a push finds it full, and whose capacity is chosen by `new`.
pub type SafelyOverflowingIndexQueue = NumberQueue<Overflowing>;

impl<K> Model for NumberQueue<K> {
    ghost use Rattle.std.specs.Prelude.{◌≤◌, length};
    ghost use Rattle.std.specs.VecDeque.{deque_capacity};
    ghost use Rattle.iox_queues_base.specs.Waiting.{Bounded};

    ghost Value = { Bounded };

    ghost view = { λ q. record { waiting = q.waiting.items; capacity = q.capacity } };

    ghost invariant = { λ q. (length q.waiting.items ≤ q.capacity) × (q.capacity ≤ deque_capacity q.waiting) };
}

impl<K> NumberQueue<K> {
    /// An empty queue, which allocates memory for `capacity` numbers. It fails only if an allocation fails.
    pub fn new(alloc: Global, capacity: usize) -> Result<NumberQueue<K>, AllocError>
        ensures { IfOk result (λ q. q ≡ record { waiting = []; capacity = capacity }) }
    {
        Ok(NumberQueue {
            waiting: VecDeque::with_capacity(alloc, capacity)?,
            capacity,
            kind: PhantomData,
        })
    }

    /// Removes the oldest number and returns it; `None` if the queue is empty.
    pub fn pop(&mut self) -> Option<u64>
        ensures answer { result ≡ slice_get self.old.waiting 0 }
        ensures after { self.new ≡ record self.old { waiting = drop 1 self.old.waiting } }
    {
        self.waiting.pop_front()
    }

    /// How many numbers wait.
    pub fn len(&self) -> usize
        ensures waiting { result ≡ length self.now.waiting }
        ensures within { length self.now.waiting ≤ self.now.capacity }
    {
        self.waiting.len()
    }

    /// The maximum number of waiting numbers.
    pub fn capacity(&self) -> usize
        ensures { result ≡ self.now.capacity }
    {
        self.capacity
    }

    /// Whether no number waits.
    pub fn is_empty(&self) -> bool
        ensures { result ≡ (length self.now.waiting == 0) }
    {
        self.waiting.len() == 0
    }

    /// Whether the queue is full.
    pub fn is_full(&self) -> bool
        ensures { result ≡ nat_le self.now.capacity (length self.now.waiting) }
    {
        self.capacity <= self.waiting.len()
    }
}

impl NumberQueue<Refusing> {
    /// Appends the number and returns true. If the queue is full, it stays as it was, and the result is false.
    pub fn push(&mut self, value: u64) -> bool
        ensures answer { result ≡ nat_lt (length self.old.waiting) self.old.capacity }
        ensures after { self.new ≡ record self.old { waiting = put self.old.capacity self.old.waiting value } }
        ensures told { self.new.waiting ≡ self.old.waiting ++ (if result then value ∷ [] else []) }
    {
        if self.waiting.len() < self.capacity {
            self.waiting.push_back_reserved(value);
            true
        } else {
            false
        }
    }
}

impl NumberQueue<Overflowing> {
    /// Appends the number. A full queue removes its oldest number and returns it; a queue of capacity 0 returns the new number.
    pub fn push(&mut self, value: u64) -> Option<u64>
        ensures answer { result ≡ left_out self.old.capacity self.old.waiting value }
        ensures none_lost { option_to_list result ++ self.new.waiting ≡ self.old.waiting ++ value ∷ [] }
        ensures full { IfSome result (λ oldest. self.old.capacity ≤ length self.old.waiting) }
        ensures after { self.new ≡ record self.old { waiting = put_over self.old.capacity self.old.waiting value } }
    {
        if self.waiting.len() < self.capacity {
            self.waiting.push_back_reserved(value);
            return None;
        }
        let Some(oldest) = self.waiting.pop_front() else {
            return Some(value);
        };
        self.waiting.push_back_reserved(value);
        Some(oldest)
    }
}

/// A queue of numbers of kind `K` and of capacity `CAPACITY`. Contracts see the waiting numbers, oldest first.
#[derive(Debug, Drop)]
pub struct FixedSizeNumberQueue<K, const CAPACITY: usize> {
    queue: NumberQueue<K>,
}

/// A queue of capacity `CAPACITY` that refuses a push when it is full.
pub type FixedSizeIndexQueue<const CAPACITY: usize> = FixedSizeNumberQueue<Refusing, CAPACITY>;

/// A queue of capacity `CAPACITY` that removes its oldest number when a push finds it full.
pub type FixedSizeSafelyOverflowingIndexQueue<const CAPACITY: usize> = FixedSizeNumberQueue<
    Overflowing,
    CAPACITY,
>;

impl<K, const CAPACITY: usize> Model for FixedSizeNumberQueue<K, CAPACITY> {
    ghost use Rattle.std.specs.Prelude.{◌≡◌, ◌≤◌, ℕ, List, length};

    ghost Value = { List ℕ };

    ghost view = { λ q. q.queue.waiting };

    ghost invariant = { λ q. (q.queue.capacity ≡ CAPACITY) × (length q.queue.waiting ≤ CAPACITY) };
}

impl<K, const CAPACITY: usize> FixedSizeNumberQueue<K, CAPACITY> {
    /// An empty queue, which allocates all its memory. It fails only if an allocation fails.
    pub fn new(alloc: Global) -> Result<FixedSizeNumberQueue<K, CAPACITY>, AllocError>
        ensures { IfOk result (λ q. q ≡ []) }
    {
        Ok(FixedSizeNumberQueue {
            queue: NumberQueue::new(alloc, CAPACITY)?,
        })
    }

    /// Removes the oldest number and returns it; `None` if the queue is empty.
    pub fn pop(&mut self) -> Option<u64>
        ensures answer { result ≡ slice_get self.old 0 }
        ensures after { self.new ≡ drop 1 self.old }
    {
        self.queue.pop()
    }

    /// How many numbers wait.
    pub fn len(&self) -> usize
        ensures waiting { result ≡ length self.now }
        ensures within { length self.now ≤ CAPACITY }
    {
        self.queue.len()
    }

    /// The maximum number of waiting numbers, which is `CAPACITY`.
    pub fn capacity(&self) -> usize
        ensures { result ≡ CAPACITY }
    {
        self.queue.capacity()
    }

    /// Whether no number waits.
    pub fn is_empty(&self) -> bool
        ensures { result ≡ (length self.now == 0) }
    {
        self.queue.is_empty()
    }

    /// Whether the queue is full.
    pub fn is_full(&self) -> bool
        ensures { result ≡ nat_le CAPACITY (length self.now) }
    {
        self.queue.is_full()
    }
}

impl<const CAPACITY: usize> FixedSizeNumberQueue<Refusing, CAPACITY> {
    /// Appends the number and returns true. If the queue is full, it stays as it was, and the result is false.
    pub fn push(&mut self, value: u64) -> bool
        ensures answer { result ≡ nat_lt (length self.old) CAPACITY }
        ensures after { self.new ≡ put CAPACITY self.old value }
        ensures told { self.new ≡ self.old ++ (if result then value ∷ [] else []) }
    {
        self.queue.push(value)
    }
}

impl<const CAPACITY: usize> FixedSizeNumberQueue<Overflowing, CAPACITY> {
    /// Appends the number. A full queue removes its oldest number and returns it; a queue of capacity 0 returns the new number.
    pub fn push(&mut self, value: u64) -> Option<u64>
        ensures answer { result ≡ left_out CAPACITY self.old value }
        ensures none_lost { option_to_list result ++ self.new ≡ self.old ++ value ∷ [] }
        ensures full { IfSome result (λ oldest. CAPACITY ≤ length self.old) }
        ensures after { self.new ≡ put_over CAPACITY self.old value }
    {
        self.queue.push(value)
    }
}

//! Queues of values of any type that is copied as words.
//!
//! Ported from `Queue` of iceoryx2's lock-free structures.
ghost use Rattle.std.specs.Prelude.{◌≡◌, ◌<◌, ◌≤◌, ◌==◌, ◌++◌, ◌∷◌, [], length, drop, nat_lt, nat_le, slice_get, if◌then◌else◌, IfOk};
ghost use Rattle.iox_queues_base.specs.Waiting.{put};

use crate::words::Words;
use std::alloc::{AllocError, Global};
use std::collections::VecDeque;
use std::marker::Model;

/// A queue of at most `CAPACITY` values. Contracts see the waiting values, oldest first.
#[derive(Drop)]
pub struct Queue<T: Words, const CAPACITY: usize> {
    waiting: VecDeque<T>,
}

impl<T: Words, const CAPACITY: usize> Model for Queue<T, CAPACITY> {
    ghost use Rattle.std.specs.Prelude.{◌≤◌, List, length};
    ghost use Rattle.std.specs.VecDeque.{deque_capacity};

    ghost Value = { List T };

    ghost view = { λ q. q.waiting.items };

    ghost invariant = { λ q. (length q.waiting.items ≤ CAPACITY) × (CAPACITY ≤ deque_capacity q.waiting) };
}

impl<T: Words, const CAPACITY: usize> Queue<T, CAPACITY> {
    /// An empty queue, which allocates all its memory. It fails only if an allocation fails.
    pub fn new(alloc: Global) -> Result<Queue<T, CAPACITY>, AllocError>
        ensures { IfOk result (λ q. q ≡ []) }
    {
        Ok(Queue {
            waiting: VecDeque::with_capacity(alloc, CAPACITY)?,
        })
    }

    /// Appends the value and returns true. If the queue is full, it stays as it was, and the result is false.
    pub fn push(&mut self, value: &T) -> bool
        ensures answer { result ≡ nat_lt (length self.old) CAPACITY }
        ensures after { self.new ≡ put CAPACITY self.old value.now }
        ensures told { self.new ≡ self.old ++ (if result then value.now ∷ [] else []) }
    {
        if self.waiting.len() < CAPACITY {
            self.waiting.push_back_reserved(*value);
            true
        } else {
            false
        }
    }

    /// Removes the oldest value and returns it; `None` if the queue is empty.
    pub fn pop(&mut self) -> Option<T>
        ensures answer { result ≡ slice_get self.old 0 }
        ensures after { self.new ≡ drop 1 self.old }
    {
        self.waiting.pop_front()
    }

    /// How many values wait.
    pub fn len(&self) -> usize
        ensures waiting { result ≡ length self.now }
        ensures within { length self.now ≤ CAPACITY }
    {
        self.waiting.len()
    }

    /// The maximum number of waiting values, which is `CAPACITY`.
    pub fn capacity(&self) -> usize
        ensures { result ≡ CAPACITY }
    {
        CAPACITY
    }

    /// Whether no value waits.
    pub fn is_empty(&self) -> bool
        ensures { result ≡ (length self.now == 0) }
    {
        self.waiting.len() == 0
    }

    /// Whether the queue is full.
    pub fn is_full(&self) -> bool
        ensures { result ≡ nat_le CAPACITY (length self.now) }
    {
        CAPACITY <= self.waiting.len()
    }
}

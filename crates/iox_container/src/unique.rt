//! Index sets that hand out the index released last first.
ghost use Rattle.std.specs.Prelude.{◌≡◌, ◌≤◌, ◌<◌, ◌+◌, ℕ, length, true, false, IfOk, OnErr};
ghost use Rattle.std.specs.List.{count_by, range_with_len};
ghost use Rattle.iox_container.specs.Release.{locks, state_of};
ghost use Rattle.iox_container.specs.Unique.{UniqueSetState, new_unique_set, is_held, borrowed, answer_of, acquired, freed, settled, Takes};

use crate::error::UniqueIndexSetAcquireFailure;
use crate::release::{ReleaseMode, ReleaseState};
use std::alloc::{AllocError, Global};
use std::marker::Model;

/// A set of the indices below a capacity. They are handed out in the order 0, 1, 2 and so on; a released index is the next one handed out.
///
/// Ported from `iceoryx2_bb_lock_free::mpmc::unique_index_set::UniqueIndexSet`.
#[derive(Drop)]
pub struct UniqueIndexSet {
    // The free indices; the last one in the list is handed out next.
    free: Vec<usize>,
    // Whether each index is held.
    held: Vec<bool>,
    locked: bool,
}

impl Model for UniqueIndexSet {
    ghost use Rattle.std.specs.Prelude.{◌-◌, ◌≤◌, length, reverse};
    ghost use Rattle.std.specs.Vec.{vec_capacity};
    ghost use Rattle.iox_container.specs.Release.{IsUnheldIfLocked};
    ghost use Rattle.iox_container.specs.Unique.{UniqueSetState, AreFree};

    ghost Value = { UniqueSetState };

    ghost view = { λ s. record { capacity = length s.held.items; free = reverse s.free.items; locked = s.locked } };

    ghost invariant = { λ s. AreFree s.held.items (reverse s.free.items) × (length s.held.items ≤ vec_capacity s.free)
        × IsUnheldIfLocked s.locked (length s.held.items - length (reverse s.free.items)) };
}

impl UniqueIndexSet {
    /// A set of the indices below `capacity`, none of which is held. It fails only if an allocation fails.
    pub fn new(alloc: Global, capacity: usize) -> Result<Self, AllocError>
        ensures { IfOk result (λ set. set ≡ new_unique_set capacity) }
    {
        let held = vec![in alloc; false; capacity]?;
        let mut free = Vec::with_capacity(alloc, capacity)?;
        for count in 0..capacity {
            free.push_reserved(capacity - 1 - count);
        }
        Ok(UniqueIndexSet {
            free,
            held,
            locked: false,
        })
    }

    /// Hands out the next free index.
    ///
    /// Refused with `IsLocked` if the set is locked, else with `OutOfIndices` if every index is held.
    pub fn acquire_raw_index(&mut self) -> Result<usize, UniqueIndexSetAcquireFailure>
        ensures answer { result ≡ answer_of self.old.locked self.old.free }
        ensures ok { IfOk result (λ index. self.new ≡ acquired self.old) }
        ensures taken { IfOk result (λ index. Takes index self.old self.new) }
        ensures one_more { IfOk result (λ index. borrowed self.new ≡ borrowed self.old + 1) }
        ensures err { OnErr result (self.new ≡ self.old) }
    {
        if self.locked {
            return Err(UniqueIndexSetAcquireFailure::IsLocked);
        }
        let Some(index) = self.free.pop() else {
            return Err(UniqueIndexSetAcquireFailure::OutOfIndices);
        };
        self.held[index] = true;
        Ok(index)
    }

    /// Whether the index is held, which `release_raw_index` requires.
    pub fn is_held(&self, index: usize) -> bool
        ensures { result ≡ is_held index self.now }
    {
        index < self.held.len() && self.held[index]
    }

    /// Releases a held index. With `LockIfLastIndex`, the set is then locked for good if no index is held any longer.
    pub fn release_raw_index(&mut self, index: usize, mode: ReleaseMode) -> ReleaseState
        requires { is_held index self.old ≡ true }
        ensures after { self.new ≡ settled mode (freed index self.old) }
        ensures taken { Takes index (freed index self.old) self.old }
        ensures one_fewer { borrowed self.new + 1 ≡ borrowed self.old }
        ensures answer { result ≡ state_of self.new.locked }
    {
        self.put_back(index);
        self.settle(mode)
    }

    // Makes the index the next one that is handed out.
    fn put_back(&mut self, index: usize)
        requires { is_held index self.old ≡ true }
        ensures after { self.new ≡ freed index self.old }
        ensures taken { Takes index (freed index self.old) self.old }
        ensures one_fewer { borrowed self.new + 1 ≡ borrowed self.old }
    {
        self.held[index] = false;
        self.free.push_reserved(index);
    }

    // Locks the set if its last index was released in this mode.
    fn settle(&mut self, mode: ReleaseMode) -> ReleaseState
        ensures after { self.new ≡ settled mode self.old }
        ensures answer { result ≡ state_of self.new.locked }
    {
        if mode == ReleaseMode::LockIfLastIndex && self.borrowed_indices() == 0 {
            self.locked = true;
        }
        if self.locked {
            ReleaseState::Locked
        } else {
            ReleaseState::Unlocked
        }
    }

    // The free indices; the last one in the list is handed out next.
    pub(crate) fn free_indices(&self) -> &[usize] {
        self.free.as_slice()
    }

    /// How many indices are held.
    pub fn borrowed_indices(&self) -> usize
        ensures value { result ≡ borrowed self.now }
        ensures counted { result ≡ count_by (λ index. is_held index self.now) (range_with_len 0 self.now.capacity) }
    {
        self.held.len() - self.free.len()
    }

    /// Whether the set is locked for good; then no index is held.
    pub fn is_locked(&self) -> bool
        ensures value { result ≡ self.now.locked }
        ensures none { result ≡ true → borrowed self.now ≡ 0 }
        ensures unheld { result ≡ true → (index : ℕ) → is_held index self.now ≡ false }
    {
        self.locked
    }

    /// The capacity: every index is below it.
    pub fn capacity(&self) -> usize
        ensures { result ≡ self.now.capacity }
    {
        self.held.len()
    }
}

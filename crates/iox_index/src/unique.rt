//! An index set whose type bounds its capacity, and which hands out the index released last first.
ghost use Rattle.std.specs.Prelude.{◌≡◌, ◌≤◌, ◌<◌, ◌+◌, ◌^◌, ℕ, true, false, IfOk, IfErr, OnErr};
ghost use Rattle.std.specs.List.{count_by, range_with_len};
ghost use Rattle.iox_container.specs.Shared.{shared_form};
ghost use Rattle.iox_container.specs.Release.{state_of};
ghost use Rattle.iox_container.specs.Unique.{UniqueSetState, new_unique_set, is_held, borrowed, answer_of, acquired, freed, settled, Takes};

use iox_container::{
    ReleaseMode, ReleaseState, SharedIndexSet, UniqueIndexSet, UniqueIndexSetAcquireFailure,
};
use std::alloc::{AllocError, Global};
use std::marker::Model;

/// A set of at most `CAPACITY` indices. They are handed out in the order 0, 1, 2 and so on; a released index is the next one handed out.
///
/// Ported from `iceoryx2_bb_lock_free::mpmc::unique_index_set::FixedSizeUniqueIndexSet`.
#[derive(Drop)]
pub struct FixedSizeUniqueIndexSet<const CAPACITY: usize> {
    set: UniqueIndexSet,
}

impl<const CAPACITY: usize> Model for FixedSizeUniqueIndexSet<CAPACITY> {
    ghost use Rattle.std.specs.Prelude.{◌≤◌};
    ghost use Rattle.iox_container.specs.Unique.{UniqueSetState};

    ghost Value = { UniqueSetState };

    ghost view = { λ s. s.set };

    ghost invariant = { λ s. s.set.capacity ≤ CAPACITY };
}

impl<const CAPACITY: usize> FixedSizeUniqueIndexSet<CAPACITY> {
    /// A set of the indices below `CAPACITY`, none of which is held. It fails only if an allocation fails.
    pub fn new(alloc: Global) -> Result<Self, AllocError>
        ensures { IfOk result (λ set. set ≡ new_unique_set CAPACITY) }
    {
        FixedSizeUniqueIndexSet::new_with_reduced_capacity(alloc, CAPACITY)
    }

    /// A set of the indices below `capacity`, which must be at most `CAPACITY`. It fails only if an allocation fails.
    pub fn new_with_reduced_capacity(alloc: Global, capacity: usize) -> Result<Self, AllocError>
        requires { capacity ≤ CAPACITY }
        ensures { IfOk result (λ set. set ≡ new_unique_set capacity) }
    {
        Ok(FixedSizeUniqueIndexSet {
            set: UniqueIndexSet::new(alloc, capacity)?,
        })
    }

    /// Hands out the next free index.
    ///
    /// Refused with `IsLocked` if the set is locked, else with `OutOfIndices` if every index is held.
    pub fn acquire_raw_index(&mut self) -> Result<usize, UniqueIndexSetAcquireFailure>
        ensures answer { result ≡ answer_of self.old.locked self.old.free }
        ensures ok { IfOk result (λ index. self.new ≡ acquired self.old) }
        ensures taken { IfOk result (λ index. Takes index self.old self.new) }
        ensures one_more { IfOk result (λ index. borrowed self.new ≡ borrowed self.old + 1) }
        ensures err { OnErr result (self.new ≡ self.old) }
    {
        self.set.acquire_raw_index()
    }

    /// Whether the index is held, which `release_raw_index` requires.
    pub fn is_held(&self, index: usize) -> bool
        ensures { result ≡ is_held index self.now }
    {
        self.set.is_held(index)
    }

    /// Releases a held index. With `LockIfLastIndex`, the set is then locked for good if no index is held any longer.
    pub fn release_raw_index(&mut self, index: usize, mode: ReleaseMode) -> ReleaseState
        requires { is_held index self.old ≡ true }
        ensures after { self.new ≡ settled mode (freed index self.old) }
        ensures taken { Takes index (freed index self.old) self.old }
        ensures one_fewer { borrowed self.new + 1 ≡ borrowed self.old }
        ensures answer { result ≡ state_of self.new.locked }
    {
        self.set.release_raw_index(index, mode)
    }

    /// Makes a shared set with the same free indices. The set is returned unchanged if memory runs out, or if it has 2^24 indices or more,
    /// which a head can't store.
    pub fn share(self, alloc: Global) -> Result<SharedIndexSet, FixedSizeUniqueIndexSet<CAPACITY>>
        ensures shared { IfOk result (λ set. set ≡ shared_form self.entry) }
        ensures room { IfOk result (λ set. self.entry.capacity < 2 ^ 24) }
        ensures back { IfErr result (λ set. set ≡ self.entry) }
    {
        let FixedSizeUniqueIndexSet { set } = self;
        match set.share(alloc) {
            Ok(shared) => Ok(shared),
            Err(set) => Err(FixedSizeUniqueIndexSet { set }),
        }
    }

    /// How many indices are held.
    pub fn borrowed_indices(&self) -> usize
        ensures value { result ≡ borrowed self.now }
        ensures counted { result ≡ count_by (λ index. is_held index self.now) (range_with_len 0 self.now.capacity) }
    {
        self.set.borrowed_indices()
    }

    /// Whether the set is locked for good; then no index is held.
    pub fn is_locked(&self) -> bool
        ensures value { result ≡ self.now.locked }
        ensures none { result ≡ true → borrowed self.now ≡ 0 }
        ensures unheld { result ≡ true → (index : ℕ) → is_held index self.now ≡ false }
    {
        self.set.is_locked()
    }

    /// The capacity, which is at most `CAPACITY`: every index is below it.
    pub fn capacity(&self) -> usize
        ensures value { result ≡ self.now.capacity }
        ensures within { result ≤ CAPACITY }
    {
        self.set.capacity()
    }
}

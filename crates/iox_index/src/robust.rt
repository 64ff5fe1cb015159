//! An index set whose type bounds its capacity, and which knows the owner of each held index.
ghost use Rattle.std.specs.Prelude.{◌≡◌, ◌≤◌, ℕ, List, Option, Some, length, slice_set, true, false, IfOk, OnErr};
ghost use Rattle.std.specs.List.{FoldsTo};
ghost use Rattle.iox_container.specs.Release.{state_of};
ghost use Rattle.iox_container.specs.Robust.{RobustSetState, new_robust_set, is_held, lowest_free, borrowed, answer_of, freed, settled};
ghost use Rattle.iox_container.specs.Robust.{held_by, Recovered};

use iox_container::{
    OwnerId, ReleaseMode, ReleaseState, RobustUniqueIndexSet, UniqueIndexSetAcquireFailure,
};
use std::alloc::{AllocError, Global};
use std::marker::Model;

/// A set of at most `CAPACITY` indices, which hands out the lowest free index and knows the owner of each held index.
///
/// Ported from `iceoryx2_bb_lock_free::mpmc::robust_unique_index_set::StaticRobustUniqueIndexSet`.
#[derive(Drop)]
pub struct StaticRobustUniqueIndexSet<const CAPACITY: usize> {
    set: RobustUniqueIndexSet,
}

impl<const CAPACITY: usize> Model for StaticRobustUniqueIndexSet<CAPACITY> {
    ghost use Rattle.std.specs.Prelude.{◌≤◌, length};
    ghost use Rattle.iox_container.specs.Robust.{RobustSetState};

    ghost Value = { RobustSetState };

    ghost view = { λ s. s.set };

    ghost invariant = { λ s. length s.set.holders ≤ CAPACITY };
}

impl<const CAPACITY: usize> StaticRobustUniqueIndexSet<CAPACITY> {
    /// A set of the indices below `CAPACITY`, none of which is held. It fails only if an allocation fails.
    pub fn new(alloc: Global) -> Result<Self, AllocError>
        ensures { IfOk result (λ set. set ≡ new_robust_set CAPACITY) }
    {
        StaticRobustUniqueIndexSet::new_with_reduced_capacity(alloc, CAPACITY)
    }

    /// A set of the indices below `capacity`, which must be at most `CAPACITY`. It fails only if an allocation fails.
    pub fn new_with_reduced_capacity(alloc: Global, capacity: usize) -> Result<Self, AllocError>
        requires { capacity ≤ CAPACITY }
        ensures { IfOk result (λ set. set ≡ new_robust_set capacity) }
    {
        Ok(StaticRobustUniqueIndexSet {
            set: RobustUniqueIndexSet::new(alloc, capacity)?,
        })
    }

    /// Hands the lowest free index to the owner, and returns it.
    ///
    /// Refused with `IsLocked` if the set is locked, else with `OutOfIndices` if every index is held.
    pub fn acquire(&mut self, owner: OwnerId) -> Result<usize, UniqueIndexSetAcquireFailure>
        ensures answer { result ≡ answer_of self.old.locked (lowest_free self.old) }
        ensures ok { IfOk result (λ index. self.new ≡ record self.old { holders = slice_set self.old.holders index (Some owner) }) }
        ensures err { OnErr result (self.new ≡ self.old) }
    {
        self.set.acquire(owner)
    }

    /// Whether the index is held, which `release` requires.
    pub fn is_held(&self, index: usize) -> bool
        ensures { result ≡ is_held index self.now }
    {
        self.set.is_held(index)
    }

    /// Releases a held index. With `LockIfLastIndex`, the set is then locked for good if no index is held any longer.
    pub fn release(&mut self, index: usize, mode: ReleaseMode) -> ReleaseState
        requires { is_held index self.old ≡ true }
        ensures after { self.new ≡ settled mode (freed index self.old) }
        ensures answer { result ≡ state_of self.new.locked }
    {
        self.set.release(index, mode)
    }

    /// Calls `callback` with each index that the owner holds, in rising order.
    pub fn find<F: FnMut(usize)>(&self, owner: OwnerId, callback: &mut F)
        requires { F.IsAlwaysCallable callback.old }
        ensures called { FoldsTo (λ p x q. F.step p x tt q) callback.old (held_by owner self.now.holders) callback.new }
        ensures callable { F.IsAlwaysCallable callback.new }
    {
        self.set.find(owner, callback);
    }

    /// Calls `decide` for each index that the owner holds, in rising order, and releases the indices for which it returns true. With
    /// `LockIfLastIndex`, the set is then locked for good if no index is held any longer, even if this call released none.
    pub fn recover<F: FnMut(usize) -> bool>(
        &mut self,
        owner: OwnerId,
        mode: ReleaseMode,
        decide: &mut F,
    ) -> ReleaseState
        requires { F.IsAlwaysCallable decide.old }
        ensures after { (holders : List (Option ℕ))
            × Recovered (λ p index answer q. F.step p index answer q) owner decide.old self.old.holders holders decide.new
            × (self.new ≡ settled mode (record self.old { holders = holders })) }
        ensures callable { F.IsAlwaysCallable decide.new }
        ensures capacity { length self.new.holders ≡ length self.old.holders }
        ensures answer { result ≡ state_of self.new.locked }
    {
        self.set.recover(owner, mode, decide)
    }

    /// How many indices are held.
    pub fn borrowed_indices(&self) -> usize
        ensures { result ≡ borrowed self.now }
    {
        self.set.borrowed_indices()
    }

    /// Whether the set is locked for good; then no index is held.
    pub fn is_locked(&self) -> bool
        ensures value { result ≡ self.now.locked }
        ensures none { result ≡ true → borrowed self.now ≡ 0 }
        ensures unheld { result ≡ true → (index : ℕ) → is_held index self.now ≡ false }
    {
        self.set.is_locked()
    }

    /// The capacity, which is at most `CAPACITY`: every index is below it.
    pub fn capacity(&self) -> usize
        ensures value { result ≡ length self.now.holders }
        ensures within { result ≤ CAPACITY }
    {
        self.set.capacity()
    }
}

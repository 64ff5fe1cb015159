//! Index sets that know the owner of each held index.
ghost use Rattle.std.specs.Prelude.{◌≡◌, ℕ, List, [], Option, length, slice_set, Some, IfOk, OnErr, IfSome, IfNone, true, false};
ghost use Rattle.std.specs.List.{FoldsTo};
ghost use Rattle.iox_container.specs.Release.{state_of};
ghost use Rattle.iox_container.specs.Owners.{AreOwned, IsToldNext, rest_from};
ghost use Rattle.iox_container.specs.Robust.{RobustSetState, new_robust_set, is_held, lowest_free, borrowed, answer_of, freed, settled};
ghost use Rattle.iox_container.specs.Robust.{is_of, index_of, held_by, Recovered};

use crate::counted_places::Places;
use crate::error::UniqueIndexSetAcquireFailure;
use crate::owner::OwnerId;
use crate::owners::Owners;
use crate::release::{ReleaseMode, ReleaseState};
use std::alloc::{AllocError, Global};
use std::marker::Model;

/// A set of the indices below a capacity, which hands out the lowest free index and knows the owner of each held index.
///
/// `find` and `recover` search a sorted list of owners and indices once, in logarithmic time. After that, each index that the owner holds,
/// or was the last to hold, costs the same at any size. `release` costs the same at any size. `acquire` scans the indices below the one
/// that it hands out. If another owner held that index last, `acquire` also moves the entries of the list that lie after the old and the
/// new position.
///
/// Ported from `iceoryx2_bb_lock_free::mpmc::robust_unique_index_set::RobustUniqueIndexSet`.
#[derive(Drop)]
pub struct RobustUniqueIndexSet {
    // The owner of each held index.
    cells: Places<OwnerId>,
    // The owner that held each index last, by which the indices of one owner are found.
    owners: Owners,
    locked: bool,
}

impl Model for RobustUniqueIndexSet {
    ghost use Rattle.iox_container.specs.Release.{IsUnheldIfLocked};
    ghost use Rattle.iox_container.specs.CountedPlaces.{count_filled};
    ghost use Rattle.iox_container.specs.Owners.{AreOwned};
    ghost use Rattle.iox_container.specs.Robust.{RobustSetState};

    ghost Value = { RobustSetState };

    ghost view = { λ s. record { holders = s.cells; locked = s.locked } };

    ghost invariant = { λ s. IsUnheldIfLocked s.locked (count_filled s.cells) × AreOwned (λ owner. owner) s.cells s.owners };
}

impl RobustUniqueIndexSet {
    /// A set of the indices below `capacity`, none of which is held. It fails only if an allocation fails.
    pub fn new(alloc: Global, capacity: usize) -> Result<Self, AllocError>
        ensures { IfOk result (λ set. set ≡ new_robust_set capacity) }
    {
        Ok(RobustUniqueIndexSet {
            cells: Places::new(alloc, capacity)?,
            owners: Owners::new(alloc, capacity)?,
            locked: false,
        })
    }

    /// Hands the lowest free index to the owner, and returns it.
    ///
    /// Refused with `IsLocked` if the set is locked, else with `OutOfIndices` if every index is held.
    pub fn acquire(&mut self, owner: OwnerId) -> Result<usize, UniqueIndexSetAcquireFailure>
        ensures answer { result ≡ answer_of self.old.locked (lowest_free self.old) }
        ensures ok { IfOk result (λ index. self.new ≡ record self.old { holders = slice_set self.old.holders index (Some owner) }) }
        ensures err { OnErr result (self.new ≡ self.old) }
    {
        if self.locked {
            return Err(UniqueIndexSetAcquireFailure::IsLocked);
        }
        let Some(index) = self.cells.fill(owner) else {
            return Err(UniqueIndexSetAcquireFailure::OutOfIndices);
        };
        self.owners.set(index, owner);
        Ok(index)
    }

    /// Whether the index is held, which `release` requires.
    pub fn is_held(&self, index: usize) -> bool
        ensures { result ≡ is_held index self.now }
    {
        self.cells.get(index).is_some()
    }

    /// Releases a held index. With `LockIfLastIndex`, the set is then locked for good if no index is held any longer.
    pub fn release(&mut self, index: usize, mode: ReleaseMode) -> ReleaseState
        requires { is_held index self.old ≡ true }
        ensures after { self.new ≡ settled mode (freed index self.old) }
        ensures answer { result ≡ state_of self.new.locked }
    {
        self.cells.empty(index);
        self.settle(mode)
    }

    // Locks the set if its last index was released in this mode.
    fn settle(&mut self, mode: ReleaseMode) -> ReleaseState
        ensures after { self.new ≡ settled mode self.old }
        ensures answer { result ≡ state_of self.new.locked }
    {
        if mode == ReleaseMode::LockIfLastIndex && self.borrowed_indices() == 0 {
            self.locked = true;
        }
        if self.locked {
            ReleaseState::Locked
        } else {
            ReleaseState::Unlocked
        }
    }

    /// Calls `callback` with each index that the owner holds, in rising order.
    pub fn find<F: FnMut(usize)>(&self, owner: OwnerId, callback: &mut F)
        requires { F.IsAlwaysCallable callback.old }
        ensures called { FoldsTo (λ p x q. F.step p x tt q) callback.old (held_by owner self.now.holders) callback.new }
        ensures callable { F.IsAlwaysCallable callback.new }
    {
        call_held(callback, owner, &self.owners, &self.cells);
    }

    /// Calls `decide` for each index that the owner holds, in rising order, and releases the indices for which it returns true. With
    /// `LockIfLastIndex`, the set is then locked for good if no index is held any longer, even if this call released none.
    pub fn recover<F: FnMut(usize) -> bool>(
        &mut self,
        owner: OwnerId,
        mode: ReleaseMode,
        decide: &mut F,
    ) -> ReleaseState
        requires { F.IsAlwaysCallable decide.old }
        ensures after { (holders : List (Option ℕ))
            × Recovered (λ p index answer q. F.step p index answer q) owner decide.old self.old.holders holders decide.new
            × (self.new ≡ settled mode (record self.old { holders = holders })) }
        ensures callable { F.IsAlwaysCallable decide.new }
        ensures capacity { length self.new.holders ≡ length self.old.holders }
        ensures answer { result ≡ state_of self.new.locked }
    {
        free_where(decide, owner, &self.owners, &mut self.cells);
        self.settle(mode)
    }

    /// How many indices are held.
    pub fn borrowed_indices(&self) -> usize
        ensures { result ≡ borrowed self.now }
    {
        self.cells.filled()
    }

    /// Whether the set is locked for good; then no index is held.
    pub fn is_locked(&self) -> bool
        ensures value { result ≡ self.now.locked }
        ensures none { result ≡ true → borrowed self.now ≡ 0 }
        ensures unheld { result ≡ true → (index : ℕ) → is_held index self.now ≡ false }
    {
        self.locked
    }

    /// The capacity: every index is below it.
    pub fn capacity(&self) -> usize
        ensures { result ≡ length self.now.holders }
    {
        self.cells.len()
    }
}

fn is_of(owner: OwnerId, cell: Option<OwnerId>) -> bool
    ensures { result ≡ is_of owner cell }
{
    match cell {
        None => false,
        Some(holder) => holder.value() == owner.value(),
    }
}

// The owner's first index at or after `from`. It is looked up as `Owners::next` says.
fn next_held(
    owner: OwnerId,
    owners: &Owners,
    cells: &Places<OwnerId>,
    from: usize,
    near: &mut usize,
) -> Option<usize>
    requires { AreOwned (λ owner. owner) cells.now owners.now }
    ensures some { IfSome result (λ index. IsToldNext (index_of owner) cells.now from index index) }
    ensures none { IfNone result (rest_from (index_of owner) cells.now from ≡ []) }
{
    let mut at = from;
    while let Some(index) = owners.next(owner, at, near) {
        at = index + 1;
        if is_of(owner, cells.get(index)) {
            return Some(index);
        }
    }
    None
}

// Calls `callback` with each index that the owner holds, in rising order.
fn call_held<F: FnMut(usize)>(
    callback: &mut F,
    owner: OwnerId,
    owners: &Owners,
    cells: &Places<OwnerId>,
)
    requires may_call { F.IsAlwaysCallable callback.old }
    requires owned { AreOwned (λ owner. owner) cells.now owners.now }
    ensures called { FoldsTo (λ p x q. F.step p x tt q) callback.old (held_by owner cells.now) callback.new }
    ensures callable { F.IsAlwaysCallable callback.new }
{
    let mut at = 0usize;
    let mut near = 0usize;
    while let Some(index) = next_held(owner, owners, cells, at, &mut near) {
        at = index + 1;
        callback(index);
    }
}

// Releases each index that the owner holds and for which `decide` returns true.
fn free_where<F: FnMut(usize) -> bool>(
    decide: &mut F,
    owner: OwnerId,
    owners: &Owners,
    cells: &mut Places<OwnerId>,
)
    requires may_call { F.IsAlwaysCallable decide.old }
    requires owned { AreOwned (λ owner. owner) cells.old owners.now }
    ensures freed { Recovered (λ p index answer q. F.step p index answer q) owner decide.old cells.old cells.new decide.new }
    ensures callable { F.IsAlwaysCallable decide.new }
    ensures capacity { length cells.new ≡ length cells.old }
    ensures owned { AreOwned (λ owner. owner) cells.new owners.now }
{
    let mut at = 0usize;
    let mut near = 0usize;
    while let Some(index) = next_held(owner, owners, cells, at, &mut near) {
        at = index + 1;
        if decide(index) {
            cells.empty(index);
        }
    }
}

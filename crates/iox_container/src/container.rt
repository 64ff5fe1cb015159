//! A container of members at indices, each with its owner.
ghost use Rattle.std.specs.Prelude.{◌≡◌, ◌≤◌, ◌<◌, ◌↔◌, ◌+◌, true, false, length, not, is_some, ℕ, List, Option, slice_get, nat_eq, []};
ghost use Rattle.std.specs.Prelude.{IfOk, OnErr, IfSome, IfNone, IsErr, if◌then◌else◌};
ghost use Rattle.std.specs.Bool.{OnFalse};
ghost use Rattle.std.specs.List.{FoldsTo, position};
ghost use Rattle.iox_container.specs.Callback.{CallsUntilStop};
ghost use Rattle.iox_container.specs.Owners.{AreOwned, IsToldNext, rest_from};
ghost use Rattle.iox_container.specs.Recovery.{asked_from};
ghost use Rattle.iox_container.specs.CountedPlaces.{padded};
ghost use Rattle.iox_container.specs.Release.{locks, state_of};
ghost use Rattle.iox_container.specs.Container.{Contents, Copied, empty_container, count_members, lowest_free, handle_of, with_member};
ghost use Rattle.iox_container.specs.Container.{without_member, settled, owns, is_numbered, is_of, HasRoom, copy_of, may_update};
ghost use Rattle.iox_container.specs.Container.{IsCopyOf, value_of, member_of, handle_at, first_handle, told, told_of, members_of};
ghost use Rattle.iox_container.specs.Container.{Recovered, all_members};

use crate::CallbackProgression;
use crate::counted_places::Places;
use crate::error::{ContainerAddFailure, ContainerRemoveError};
use crate::owner::OwnerId;
use crate::owners::Owners;
use crate::release::{ReleaseMode, ReleaseState};
use std::alloc::{AllocError, Global};
use std::marker::Model;

/// A value in a container, with its owner.
#[derive(Clone, Copy, Debug)]
pub struct Member<T> {
    /// Identifies the member: no other member that the container ever had has the same number.
    pub number: u64,
    /// The owner of the member.
    pub owner: OwnerId,
    /// The value of the member.
    pub value: T,
}

/// Identifies one member of one container.
///
/// Ported from `iceoryx2_bb_lock_free::mpmc::container::ContainerHandle`.
#[derive(Clone, Copy, Debug, PartialEq, Eq)]
pub struct ContainerHandle {
    pub(crate) container: u64,
    pub(crate) index: usize,
    pub(crate) number: u64,
}

impl ContainerHandle {
    /// The index of the member.
    pub fn index(&self) -> usize
        ensures { result ≡ self.now.index }
    {
        self.index
    }
}

/// Members at the indices below a capacity, each with its owner. New members get the lowest free index.
///
/// `new` allocates the memory for all members, but touches none of it: a place is touched when it, or one after it, first gets a member.
/// So a container of many places that has few members is small, and it is created and searched quickly.
///
/// `first_of`, `find` and `recover` search a sorted list of owners and places once, in logarithmic time. After that, each place that the
/// owner has, or was the last to have, costs the same at any size. `remove` costs the same at any size. `add` scans the places below the
/// one that it fills. If another owner had that place last, `add` also moves the entries of the list that lie after the old and the new
/// position.
///
/// Ported from `iceoryx2_bb_lock_free::mpmc::container::Container`.
#[derive(Drop)]
pub struct Container<T: Copy> {
    id: u64,
    members: Places<Member<T>>,
    // The owner that had each place last, by which the members of one owner are found.
    owners: Owners,
    changes: u64,
    locked: bool,
}

impl<T: Copy> Model for Container<T> {
    ghost use Rattle.iox_container.specs.Release.{IsUnheldIfLocked};
    ghost use Rattle.iox_container.specs.CountedPlaces.{count_filled};
    ghost use Rattle.iox_container.specs.Owners.{AreOwned};
    ghost use Rattle.iox_container.specs.Container.{Contents};

    ghost Value = { Contents T };

    ghost view = { λ c. record { id = c.id; members = c.members; changes = c.changes; locked = c.locked } };

    ghost invariant = { λ c. IsUnheldIfLocked c.locked (count_filled c.members) × AreOwned (λ member. member.owner) c.members c.owners };
}

/// A copy of a container's members, made by `get_state` and refreshed by `update_state`.
///
/// Ported from `iceoryx2_bb_lock_free::mpmc::container::ContainerState`.
#[derive(Drop)]
pub struct ContainerState<T: Copy> {
    id: u64,
    members: Places<Member<T>>,
    changes: u64,
}

impl<T: Copy> Model for ContainerState<T> {
    ghost use Rattle.iox_container.specs.Container.{Copied};

    ghost Value = { Copied T };

    ghost view = { λ s. record { id = s.id; members = s.members; changes = s.changes } };
}

impl<T: Copy> Container<T> {
    /// A container without members, which `id` distinguishes from other containers. It fails only if an allocation fails.
    pub fn new(alloc: Global, id: u64, capacity: usize) -> Result<Self, AllocError>
        ensures { IfOk result (λ container. container ≡ empty_container id capacity) }
    {
        Ok(Container {
            id,
            members: Places::new(alloc, capacity)?,
            owners: Owners::new(alloc, capacity)?,
            changes: 0,
            locked: false,
        })
    }

    /// Whether the members may change once more: they may if they changed at most 2^64 - 2 times. Each call that changes them requires it.
    pub fn has_room(&self) -> bool
        ensures { result ≡ true ↔ HasRoom self.now }
    {
        self.changes < u64::MAX
    }

    /// How often the members have changed so far. A port that follows the container compares this with the count that it last saw.
    pub fn changes(&self) -> u64
        ensures { result ≡ self.now.changes }
    {
        self.changes
    }

    /// The lowest index without a member, which the next member gets; `None` if each index has a member.
    pub fn lowest_free(&self) -> Option<usize>
        ensures { result ≡ lowest_free self.now }
    {
        self.members.lowest_empty()
    }

    /// Adds a member at the lowest free index, and returns its handle.
    ///
    /// Refused with `IsLocked` if the container is locked, else with `OutOfSpace` if it is full.
    pub fn add(&mut self, value: T, owner: OwnerId) -> Result<ContainerHandle, ContainerAddFailure>
        requires { HasRoom self.old }
        ensures answer { result ≡ handle_of self.old.id (self.old.changes + 1) self.old.locked (lowest_free self.old) }
        ensures ok { IfOk result (λ handle. self.new
            ≡ with_member handle.index (record { number = handle.number; owner = owner; value = value }) self.old) }
        ensures err { OnErr result (self.new ≡ self.old) }
    {
        if self.locked {
            return Err(ContainerAddFailure::IsLocked);
        }
        let number = self.changes + 1;
        let member = Member {
            number,
            owner,
            value,
        };
        let Some(index) = self.members.fill(member) else {
            return Err(ContainerAddFailure::OutOfSpace);
        };
        self.owners.set(index, owner);
        self.changes = number;
        Ok(ContainerHandle {
            container: self.id,
            index,
            number,
        })
    }

    /// Removes the member of the handle. With `LockIfLastIndex`, the container is then locked for good if it has no member left.
    ///
    /// Refused with `ContainerHandleNotOwnedByContainer` if the handle is of another container, or if its member was removed.
    pub fn remove(
        &mut self,
        handle: ContainerHandle,
        mode: ReleaseMode,
    ) -> Result<ReleaseState, ContainerRemoveError>
        requires { HasRoom self.old }
        ensures answer { IsErr result ↔ (owns handle self.old ≡ false) }
        ensures ok { IfOk result (λ state. (self.new ≡ settled mode (without_member handle.index self.old))
            × (state ≡ state_of self.new.locked)) }
        ensures err { OnErr result (self.new ≡ self.old) }
    {
        if !self.owns(handle) {
            return Err(ContainerRemoveError::ContainerHandleNotOwnedByContainer);
        }
        self.members.empty(handle.index);
        self.changes += 1;
        Ok(self.settle(mode))
    }

    // Whether the handle is of this container, and its member wasn't removed.
    fn owns(&self, handle: ContainerHandle) -> bool
        ensures { result ≡ owns handle self.now }
    {
        if handle.container != self.id {
            return false;
        }
        match self.members.get(handle.index) {
            None => false,
            Some(member) => member.number == handle.number,
        }
    }

    // Locks the container if its last member was removed in this mode.
    fn settle(&mut self, mode: ReleaseMode) -> ReleaseState
        ensures after { self.new ≡ settled mode self.old }
        ensures answer { result ≡ state_of self.new.locked }
    {
        if mode == ReleaseMode::LockIfLastIndex && self.len() == 0 {
            self.locked = true;
        }
        if self.locked {
            ReleaseState::Locked
        } else {
            ReleaseState::Unlocked
        }
    }

    /// The handle of the owner's first member, by rising index; `None` if the owner has no member.
    pub fn first_of(&self, owner: OwnerId) -> Option<ContainerHandle>
        ensures { result ≡ first_handle (members_of owner self.now.id self.now.members) }
    {
        match next_told(owner, self.id, &self.owners, &self.members, 0, &mut 0) {
            None => None,
            Some(first) => Some(first.0),
        }
    }

    /// The member at this index; `None` if the index has no member or isn't below the capacity.
    pub fn get(&self, index: usize) -> Option<Member<T>>
        ensures { result ≡ member_of (slice_get self.now.members index) }
    {
        self.members.get(index)
    }

    /// The places up to the last one that ever had a member. The places after them, up to the capacity, are empty.
    pub fn places(&self) -> &[Option<Member<T>>]
        ensures whole { padded (length self.now.members) result.now ≡ self.now.members }
        ensures bound { length result.now ≤ length self.now.members }
    {
        self.members.used()
    }

    /// The handle of the member at this index; `None` if the index has no member or isn't below the capacity.
    pub fn handle(&self, index: usize) -> Option<ContainerHandle>
        ensures { result ≡ handle_at self.now.id index (member_of (slice_get self.now.members index)) }
    {
        let member = self.get(index)?;
        Some(ContainerHandle {
            container: self.id,
            index,
            number: member.number,
        })
    }

    /// Calls `callback` with the handle and the value of each member of the owner, by rising index.
    pub fn find<F: FnMut(ContainerHandle, T)>(&self, owner: OwnerId, callback: &mut F)
        requires { F.IsAlwaysCallable callback.old }
        ensures called { FoldsTo (λ p x q. F.step p x.0 x.1 tt q) callback.old (members_of owner self.now.id self.now.members)
            callback.new }
        ensures callable { F.IsAlwaysCallable callback.new }
    {
        call_members(callback, owner, self.id, &self.owners, &self.members);
    }

    /// Calls `decide` for each member of the owner, by rising index, and removes the members for which it returns true. With
    /// `LockIfLastIndex`, the container is then locked for good if it has no member, even if this call removed none. The whole call counts
    /// as one change.
    pub fn recover<F: FnMut(ContainerHandle, T) -> bool>(
        &mut self,
        owner: OwnerId,
        mode: ReleaseMode,
        decide: &mut F,
    ) -> ReleaseState
        requires room { HasRoom self.old }
        requires may_call { F.IsAlwaysCallable decide.old }
        ensures after { (members : List (Option (Member T)))
            × Recovered (λ p x answer q. F.step p x.0 x.1 answer q) owner self.old.id decide.old self.old.members members decide.new
            × (self.new ≡ settled mode (record self.old { members = members; changes = self.old.changes + 1 })) }
        ensures callable { F.IsAlwaysCallable decide.new }
        ensures capacity { length self.new.members ≡ length self.old.members }
        ensures answer { result ≡ state_of self.new.locked }
    {
        remove_where(decide, owner, self.id, &self.owners, &mut self.members);
        self.changes += 1;
        self.settle(mode)
    }

    /// Copies the members as they are. It fails only if an allocation fails.
    pub fn get_state(&self, alloc: Global) -> Result<ContainerState<T>, AllocError>
        ensures copied { IfOk result (λ state. state ≡ copy_of self.now) }
    {
        Ok(ContainerState {
            id: self.id,
            members: self.members.copy(alloc)?,
            changes: self.changes,
        })
    }

    /// Whether the copy has the id and the capacity of this container, which `update_state` requires.
    pub fn is_state_of(&self, state: &ContainerState<T>) -> bool
        ensures { result ≡ may_update self.now state.now }
    {
        state.id == self.id && state.members.len() == self.members.len()
    }

    /// Updates a copy, and returns whether the members changed since it was made. If they didn't, the copy stays as it was.
    pub fn update_state(&self, state: &mut ContainerState<T>) -> bool
        requires { may_update self.now state.old ≡ true }
        ensures answer { result ≡ not (nat_eq state.old.changes self.now.changes) }
        ensures whole { IsCopyOf self.now state.old → state.new ≡ copy_of self.now }
        ensures changed { result ≡ true → state.new ≡ copy_of self.now }
        ensures kept { OnFalse result (state.new ≡ state.old) }
    {
        if state.changes == self.changes {
            return false;
        }
        state.members.copy_from(&self.members);
        state.changes = self.changes;
        true
    }

    /// Whether the container is locked for good; then it has no member.
    pub fn is_locked(&self) -> bool
        ensures value { result ≡ self.now.locked }
        ensures none { result ≡ true → count_members self.now ≡ 0 }
    {
        self.locked
    }

    /// Whether the container has no member.
    pub fn is_empty(&self) -> bool
        ensures { result ≡ nat_eq (count_members self.now) 0 }
    {
        self.len() == 0
    }

    /// How many members the container has.
    pub fn len(&self) -> usize
        ensures { result ≡ count_members self.now }
    {
        self.members.filled()
    }

    /// The maximum number of members.
    pub fn capacity(&self) -> usize
        ensures { result ≡ length self.now.members }
    {
        self.members.len()
    }
}

impl<T: Copy> ContainerState<T> {
    /// Calls `callback` with the handle and the value of each member, by rising index, until it returns `Stop` or all members were passed
    /// to it.
    pub fn for_each<F: FnMut(ContainerHandle, T) -> CallbackProgression>(&self, callback: &mut F)
        requires { F.IsAlwaysCallable callback.old }
        ensures called { CallsUntilStop (λ p x answer q. F.step p x.0 x.1 answer q) callback.old (all_members self.now) callback.new }
        ensures callable { F.IsAlwaysCallable callback.new }
    {
        call_until_stop(callback, self.id, self.members.used());
    }

    /// The value of the member at this index; `None` if the copy has no member there, or the index isn't below the capacity.
    pub fn get(&self, index: usize) -> Option<T>
        ensures { result ≡ value_of (slice_get self.now.members index) }
    {
        let member = self.members.get(index)?;
        Some(member.value)
    }
}

// The handle and the value of a member.
fn told<T: Copy>(id: u64, index: usize, member: Option<Member<T>>) -> Option<(ContainerHandle, T)>
    ensures { result ≡ told id index member }
{
    let member = member?;
    let handle = ContainerHandle {
        container: id,
        index,
        number: member.number,
    };
    Some((handle, member.value))
}

// The handle and the value of a member, if it is this owner's.
fn told_of<T: Copy>(
    owner: OwnerId,
    id: u64,
    index: usize,
    member: Option<Member<T>>,
) -> Option<(ContainerHandle, T)>
    ensures { result ≡ told_of owner id index member }
{
    if member?.owner.value() != owner.value() {
        return None;
    }
    told(id, index, member)
}

// The handle and the value of the owner's first member at or after an index. Its place is looked up as `Owners::next` says.
fn next_told<T: Copy>(
    owner: OwnerId,
    id: u64,
    owners: &Owners,
    members: &Places<Member<T>>,
    from: usize,
    near: &mut usize,
) -> Option<(ContainerHandle, T)>
    requires { AreOwned (λ member. member.owner) members.now owners.now }
    ensures some { IfSome result (λ found. IsToldNext (told_of owner id) members.now from found.0.index found) }
    ensures none { IfNone result (rest_from (told_of owner id) members.now from ≡ []) }
{
    let mut at = from;
    while let Some(index) = owners.next(owner, at, near) {
        at = index + 1;
        if let Some(found) = told_of(owner, id, index, members.get(index)) {
            return Some(found);
        }
    }
    None
}

fn call_members<T: Copy, F: FnMut(ContainerHandle, T)>(
    callback: &mut F,
    owner: OwnerId,
    id: u64,
    owners: &Owners,
    members: &Places<Member<T>>,
)
    requires may_call { F.IsAlwaysCallable callback.old }
    requires owned { AreOwned (λ member. member.owner) members.now owners.now }
    ensures called { FoldsTo (λ p x q. F.step p x.0 x.1 tt q) callback.old (members_of owner id members.now) callback.new }
    ensures callable { F.IsAlwaysCallable callback.new }
{
    let mut at = 0usize;
    let mut near = 0usize;
    while let Some(found) = next_told(owner, id, owners, members, at, &mut near) {
        at = found.0.index + 1;
        callback(found.0, found.1);
    }
}

fn call_until_stop<T: Copy, F: FnMut(ContainerHandle, T) -> CallbackProgression>(
    callback: &mut F,
    id: u64,
    members: &[Option<Member<T>>],
)
    requires { F.IsAlwaysCallable callback.old }
    ensures called { CallsUntilStop (λ p x answer q. F.step p x.0 x.1 answer q) callback.old (asked_from (told id) 0 members.now)
        callback.new }
    ensures callable { F.IsAlwaysCallable callback.new }
{
    let mut rest = members;
    let mut at = 0usize;
    while let Some(split) = rest.split_first() {
        let index = at;
        at += 1;
        rest = split.1;
        let Some(found) = told(id, index, *split.0) else {
            continue;
        };
        match callback(found.0, found.1) {
            CallbackProgression::Continue => continue,
            CallbackProgression::Stop => return,
        }
    }
}

// Removes each member of the owner for which `decide` returns true.
fn remove_where<T: Copy, F: FnMut(ContainerHandle, T) -> bool>(
    decide: &mut F,
    owner: OwnerId,
    id: u64,
    owners: &Owners,
    members: &mut Places<Member<T>>,
)
    requires may_call { F.IsAlwaysCallable decide.old }
    requires owned { AreOwned (λ member. member.owner) members.old owners.now }
    ensures removed { Recovered (λ p x answer q. F.step p x.0 x.1 answer q) owner id decide.old members.old members.new decide.new }
    ensures callable { F.IsAlwaysCallable decide.new }
    ensures capacity { length members.new ≡ length members.old }
    ensures owned { AreOwned (λ member. member.owner) members.new owners.now }
{
    let mut at = 0usize;
    let mut near = 0usize;
    while let Some(found) = next_told(owner, id, owners, members, at, &mut near) {
        at = found.0.index + 1;
        if decide(found.0, found.1) {
            members.empty(found.0.index);
        }
    }
}

//! A container whose capacity is part of its type.
ghost use Rattle.std.specs.Prelude.{◌≡◌, ◌≤◌, ◌↔◌, ◌+◌, ℕ, List, Option, true, false, length, slice_get, not, nat_eq, IfOk, OnErr, IsErr};
ghost use Rattle.iox_container.specs.declared.container.Member.{Member};
ghost use Rattle.std.specs.Bool.{OnFalse};
ghost use Rattle.std.specs.List.{FoldsTo};
ghost use Rattle.iox_container.specs.CountedPlaces.{padded};
ghost use Rattle.iox_container.specs.Release.{state_of};
ghost use Rattle.iox_container.specs.Container.{Contents, Copied, empty_container, count_members, lowest_free, handle_of, with_member};
ghost use Rattle.iox_container.specs.Container.{without_member, settled, owns, HasRoom, copy_of, may_update, IsCopyOf, member_of};
ghost use Rattle.iox_container.specs.Container.{handle_at, first_handle, members_of, Recovered};

use iox_container::{
    Container, ContainerAddFailure, ContainerHandle, ContainerRemoveError, ContainerState, Member,
    OwnerId, ReleaseMode, ReleaseState,
};
use std::alloc::{AllocError, Global};
use std::marker::Model;

/// A container of at most `CAPACITY` members, each with its owner. New members get the lowest free index. A place takes memory once it, or
/// one after it, had a member.
///
/// Ported from `iceoryx2_bb_lock_free::mpmc::container::FixedSizeContainer`.
#[derive(Drop)]
pub struct FixedSizeContainer<T: Copy, const CAPACITY: usize> {
    container: Container<T>,
}

impl<T: Copy, const CAPACITY: usize> Model for FixedSizeContainer<T, CAPACITY> {
    ghost use Rattle.std.specs.Prelude.{◌≡◌, length};
    ghost use Rattle.iox_container.specs.Container.{Contents};

    ghost Value = { Contents T };

    ghost view = { λ c. c.container };

    ghost invariant = { λ c. length c.container.members ≡ CAPACITY };
}

impl<T: Copy, const CAPACITY: usize> FixedSizeContainer<T, CAPACITY> {
    /// A container without members, which `id` distinguishes from other containers. It fails only if an allocation fails.
    pub fn new(alloc: Global, id: u64) -> Result<Self, AllocError>
        ensures { IfOk result (λ container. container ≡ empty_container id CAPACITY) }
    {
        Ok(FixedSizeContainer {
            container: Container::new(alloc, id, CAPACITY)?,
        })
    }

    /// Whether the members may change once more: they may if they changed at most 2^64 - 2 times. Each call that changes them requires it.
    pub fn has_room(&self) -> bool
        ensures { result ≡ true ↔ HasRoom self.now }
    {
        self.container.has_room()
    }

    /// Adds a member at the lowest free index, and returns its handle.
    ///
    /// Refused with `IsLocked` if the container is locked, else with `OutOfSpace` if it is full.
    pub fn add(&mut self, value: T, owner: OwnerId) -> Result<ContainerHandle, ContainerAddFailure>
        requires { HasRoom self.old }
        ensures answer { result ≡ handle_of self.old.id (self.old.changes + 1) self.old.locked (lowest_free self.old) }
        ensures ok { IfOk result (λ handle. self.new
            ≡ with_member handle.index (record { number = handle.number; owner = owner; value = value }) self.old) }
        ensures err { OnErr result (self.new ≡ self.old) }
    {
        self.container.add(value, owner)
    }

    /// Removes the member of the handle. With `LockIfLastIndex`, the container is then locked for good if it has no member left.
    ///
    /// Refused with `ContainerHandleNotOwnedByContainer` if the handle is of another container, or if its member was removed.
    pub fn remove(
        &mut self,
        handle: ContainerHandle,
        mode: ReleaseMode,
    ) -> Result<ReleaseState, ContainerRemoveError>
        requires { HasRoom self.old }
        ensures answer { IsErr result ↔ (owns handle self.old ≡ false) }
        ensures ok { IfOk result (λ state. (self.new ≡ settled mode (without_member handle.index self.old))
            × (state ≡ state_of self.new.locked)) }
        ensures err { OnErr result (self.new ≡ self.old) }
    {
        self.container.remove(handle, mode)
    }

    /// The handle of the owner's first member, by rising index; `None` if the owner has no member.
    pub fn first_of(&self, owner: OwnerId) -> Option<ContainerHandle>
        ensures { result ≡ first_handle (members_of owner self.now.id self.now.members) }
    {
        self.container.first_of(owner)
    }

    /// The member at this index; `None` if the index has no member or isn't below the capacity.
    pub fn get(&self, index: usize) -> Option<Member<T>>
        ensures { result ≡ member_of (slice_get self.now.members index) }
    {
        self.container.get(index)
    }

    /// The places up to the last one that ever had a member. The places after them, up to the capacity, are empty.
    pub fn places(&self) -> &[Option<Member<T>>]
        ensures whole { padded (length self.now.members) result.now ≡ self.now.members }
        ensures bound { length result.now ≤ length self.now.members }
    {
        self.container.places()
    }

    /// The handle of the member at this index; `None` if the index has no member or isn't below the capacity.
    pub fn handle(&self, index: usize) -> Option<ContainerHandle>
        ensures { result ≡ handle_at self.now.id index (member_of (slice_get self.now.members index)) }
    {
        self.container.handle(index)
    }

    /// Calls `callback` with the handle and the value of each member of the owner, by rising index.
    pub fn find<F: FnMut(ContainerHandle, T)>(&self, owner: OwnerId, callback: &mut F)
        requires { F.IsAlwaysCallable callback.old }
        ensures called { FoldsTo (λ p x q. F.step p x.0 x.1 tt q) callback.old (members_of owner self.now.id self.now.members)
            callback.new }
        ensures callable { F.IsAlwaysCallable callback.new }
    {
        self.container.find(owner, callback);
    }

    /// Calls `decide` for each member of the owner, by rising index, and removes the members for which it returns true. With
    /// `LockIfLastIndex`, the container is then locked for good if it has no member, even if this call removed none. The whole call counts
    /// as one change.
    pub fn recover<F: FnMut(ContainerHandle, T) -> bool>(
        &mut self,
        owner: OwnerId,
        mode: ReleaseMode,
        decide: &mut F,
    ) -> ReleaseState
        requires room { HasRoom self.old }
        requires may_call { F.IsAlwaysCallable decide.old }
        ensures after { (members : List (Option (Member T)))
            × Recovered (λ p x answer q. F.step p x.0 x.1 answer q) owner self.old.id decide.old self.old.members members decide.new
            × (self.new ≡ settled mode (record self.old { members = members; changes = self.old.changes + 1 })) }
        ensures callable { F.IsAlwaysCallable decide.new }
        ensures capacity { length self.new.members ≡ length self.old.members }
        ensures answer { result ≡ state_of self.new.locked }
    {
        self.container.recover(owner, mode, decide)
    }

    /// Copies the members as they are. It fails only if an allocation fails.
    pub fn get_state(&self, alloc: Global) -> Result<ContainerState<T>, AllocError>
        ensures { IfOk result (λ state. state ≡ copy_of self.now) }
    {
        self.container.get_state(alloc)
    }

    /// Whether the copy has the id and the capacity of this container, which `update_state` requires.
    pub fn is_state_of(&self, state: &ContainerState<T>) -> bool
        ensures { result ≡ may_update self.now state.now }
    {
        self.container.is_state_of(state)
    }

    /// Updates a copy, and returns whether the members changed since it was made. If they didn't, the copy stays as it was.
    pub fn update_state(&self, state: &mut ContainerState<T>) -> bool
        requires { may_update self.now state.old ≡ true }
        ensures answer { result ≡ not (nat_eq state.old.changes self.now.changes) }
        ensures whole { IsCopyOf self.now state.old → state.new ≡ copy_of self.now }
        ensures changed { result ≡ true → state.new ≡ copy_of self.now }
        ensures kept { OnFalse result (state.new ≡ state.old) }
    {
        self.container.update_state(state)
    }

    /// Whether the container is locked for good; then it has no member.
    pub fn is_locked(&self) -> bool
        ensures value { result ≡ self.now.locked }
        ensures none { result ≡ true → count_members self.now ≡ 0 }
    {
        self.container.is_locked()
    }

    /// Whether the container has no member.
    pub fn is_empty(&self) -> bool
        ensures { result ≡ nat_eq (count_members self.now) 0 }
    {
        self.container.is_empty()
    }

    /// How many members the container has.
    pub fn len(&self) -> usize
        ensures { result ≡ count_members self.now }
    {
        self.container.len()
    }

    /// The maximum number of members, which is `CAPACITY`.
    pub fn capacity(&self) -> usize
        ensures { result ≡ CAPACITY }
    {
        CAPACITY
    }
}

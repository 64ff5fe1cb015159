//! The owner that had each place last, and the sorted list by which the places of one owner are found.
ghost use Rattle.std.specs.Prelude.{◌≡◌, ◌≢◌, ◌≤◌, ◌<◌, ◌^◌, ℕ, length, slice_get, Some, true, false, IfOk, IfSome, IfNone};
ghost use Rattle.std.specs.List.{Contains};
ghost use Rattle.std.specs.Vec.{vec_capacity};
ghost use Rattle.iox_container.specs.Owners.{new_owners, IsNext, IsSet, IsBefore, IsBehind, Rises, StandsAt, With, Without};

use crate::owner::OwnerId;
use std::alloc::{AllocError, Global};
use std::marker::Model;

/// The owner that had each place last, for places that come into use one after the other, and a list of these owners with their places,
/// sorted by owner and place, so that the places of one owner are found quickly.
///
/// A released place stays in the list under the owner that had it last, so a release costs nothing here. The memory for all places is
/// allocated by `new`, and none of it is touched before it is used.
#[derive(Drop)]
pub(crate) struct Owners {
    // The owner that had each place last.
    last: Vec<u64>,
    // The same owners with their places, sorted by owner and place.
    entries: Vec<(u64, usize)>,
    room: usize,
}

impl Model for Owners {
    ghost use Rattle.std.specs.Prelude.{◌≤◌, length};
    ghost use Rattle.std.specs.Vec.{vec_capacity};
    ghost use Rattle.iox_container.specs.Owners.{OwnersState, Lists};

    ghost Value = { OwnersState };

    ghost view = { λ o. record { last = o.last.items; room = o.room } };

    ghost invariant = { λ o. Lists o.last.items o.entries.items × (length o.last.items ≤ o.room) × (o.room ≤ vec_capacity o.last)
        × (o.room ≤ vec_capacity o.entries) };
}

impl Owners {
    /// A record for at most `room` places, none of which had an owner so far. It fails only if an allocation fails.
    pub(crate) fn new(alloc: Global, room: usize) -> Result<Self, AllocError>
        ensures { IfOk result (λ owners. owners ≡ new_owners room) }
    {
        Ok(Owners {
            last: Vec::with_capacity(alloc, room)?,
            entries: Vec::with_capacity(alloc, room)?,
            room,
        })
    }

    /// Records that the owner has a place now: one that had an owner before, or the next place.
    pub(crate) fn set(&mut self, place: usize, owner: OwnerId)
        requires within { place < self.old.room }
        requires next { place ≤ length self.old.last }
        ensures { IsSet place owner self.old self.new }
    {
        let owner = owner.value();
        if place < self.last.len() {
            let before = self.last[place];
            if before == owner {
                return;
            }
            remove(&mut self.entries, before, place);
            self.last[place] = owner;
        } else {
            self.last.push_reserved(owner);
        }
        insert(&mut self.entries, owner, place);
    }

    /// The first place, at or after `from`, that the owner had last; `None` if there is none. The list is tried at position `near` before
    /// it is searched. If a place is found, `near` becomes the position after it.
    pub(crate) fn next(&self, owner: OwnerId, from: usize, near: &mut usize) -> Option<usize>
        ensures some { IfSome result (λ place. IsNext self.now.last owner from place) }
        ensures none { IfNone result ((place : ℕ) → from ≤ place → slice_get self.now.last place ≢ Some owner) }
    {
        next_of(self.entries.as_slice(), owner.value(), from, near)
    }
}

// The first place, at or after `from`, that is listed with the owner. It is looked up as `Owners::next` says.
fn next_of(entries: &[(u64, usize)], owner: u64, from: usize, near: &mut usize) -> Option<usize>
    requires { Rises entries.now }
    ensures some { IfSome result (λ place. Contains entries.now (owner, place) × (from ≤ place)
        × ((other : ℕ) → from ≤ other → other < place → Contains entries.now (owner, other) → ⊥)) }
    ensures none { IfNone result ((place : ℕ) → from ≤ place → Contains entries.now (owner, place) → ⊥) }
    ensures bound { length entries.now < 2 ^ 64 }
{
    let at = search_near(entries, owner, from, *near);
    if at == entries.len() {
        return None;
    }
    let found = entries[at];
    if found.0 != owner {
        return None;
    }
    *near = at + 1;
    Some(found.1)
}

// Inserts an entry in order. There must be capacity for it.
fn insert(entries: &mut Vec<(u64, usize)>, owner: u64, place: usize)
    requires rises { Rises entries.old.items }
    requires new { Contains entries.old.items (owner, place) → ⊥ }
    requires room { length entries.old.items < vec_capacity entries.old }
    ensures with { With (owner, place) entries.old.items entries.new.items }
    ensures capacity { vec_capacity entries.old ≤ vec_capacity entries.new }
{
    let at = search(entries.as_slice(), owner, place);
    // There is room, so it can't fail.
    let _ = entries.insert(at, (owner, place));
}

// Removes an entry.
fn remove(entries: &mut Vec<(u64, usize)>, owner: u64, place: usize)
    requires rises { Rises entries.old.items }
    requires listed { Contains entries.old.items (owner, place) }
    ensures without { Without (owner, place) entries.old.items entries.new.items }
    ensures capacity { vec_capacity entries.new ≡ vec_capacity entries.old }
{
    let at = search(entries.as_slice(), owner, place);
    let _ = entries.remove(at);
}

// The position of an entry in the sorted list, or the position at which it would be inserted. The position `near` is tried before the list
// is searched.
fn search_near(entries: &[(u64, usize)], owner: u64, place: usize, near: usize) -> usize
    requires { Rises entries.now }
    ensures { StandsAt entries.now (owner, place) result }
{
    if stands_at(entries, owner, place, near) {
        near
    } else {
        search(entries, owner, place)
    }
}

// Whether an entry has this position in the sorted list, or would be inserted there.
fn stands_at(entries: &[(u64, usize)], owner: u64, place: usize, at: usize) -> bool
    requires { Rises entries.now }
    ensures { result ≡ true → StandsAt entries.now (owner, place) at }
{
    if at > entries.len() {
        return false;
    }
    if at > 0 && !is_before(entries[at - 1], owner, place) {
        return false;
    }
    at == entries.len() || !is_before(entries[at], owner, place)
}

// The position of an entry in the sorted list, or the position at which it would be inserted.
fn search(entries: &[(u64, usize)], owner: u64, place: usize) -> usize
    requires { Rises entries.now }
    ensures { StandsAt entries.now (owner, place) result }
{
    let mut low = 0usize;
    let mut high = entries.len();
    while low < high {
        let middle = low + (high - low) / 2;
        if is_before(entries[middle], owner, place) {
            low = middle + 1;
        } else {
            high = middle;
        }
    }
    low
}

fn is_before(entry: (u64, usize), owner: u64, place: usize) -> bool
    ensures yes { result ≡ true → IsBefore entry (owner, place) }
    ensures no { result ≡ false → IsBehind entry (owner, place) }
{
    entry.0 < owner || (entry.0 == owner && entry.1 < place)
}

//! The keys of connections in an order.
ghost use Rattle.std.specs.Prelude.{◌≡◌, ◌≢◌, ◌<◌, ◌≤◌, ◌==◌, ℕ, length, nat_le, slice_get, get_or, remove, [], IfOk, true, false};
ghost use Rattle.std.specs.List.{list_any};
ghost use Rattle.std.specs.Vec.{vec_capacity};
ghost use Rattle.iox_domain_ports.specs.Keys.{no_keys, with_last, IsKeyOf};

use std::alloc::{AllocError, Global};
use std::marker::Model;

/// Keys in the order in which they were added, up to a maximum. `new` allocates all memory for them.
///
/// A flag for each key below a maximum says whether the key is among them, so no search is needed for that.
#[derive(Drop)]
pub struct Keys {
    items: Vec<usize>,
    room: usize,
    flags: Vec<bool>,
    most_flags: usize,
}

impl Model for Keys {
    ghost use Rattle.std.specs.Prelude.{◌≡◌, ◌<◌, ◌≤◌, ℕ, length, get_or, vec_capacity, true, false};
    ghost use Rattle.iox_domain_ports.specs.Keys.{KeysState, IsKeyOf};

    ghost Value = { KeysState };

    ghost view = { λ k. record { items = k.items.items; room = k.room; most_flags = k.most_flags } };

    ghost invariant = { λ k. (k.room ≤ vec_capacity k.items) × (length k.items.items ≤ k.room)
        × ((key : ℕ) → get_or k.flags.items key false ≡ true → IsKeyOf key k.items.items)
        × ((key : ℕ) → key < k.most_flags → IsKeyOf key k.items.items → get_or k.flags.items key false ≡ true)
        × (length k.flags.items ≤ k.most_flags) × (k.most_flags ≤ vec_capacity k.flags) };
}

impl Keys {
    /// No keys, with capacity for `room` keys and for the flags of all keys below `most_flags`. The call fails only if an
    /// allocation fails.
    pub fn new(alloc: Global, room: usize, most_flags: usize) -> Result<Keys, AllocError>
        ensures { IfOk result (λ keys. keys ≡ no_keys room most_flags) }
    {
        Ok(Keys {
            items: Vec::with_capacity(alloc, room)?,
            room,
            flags: Vec::with_capacity(alloc, most_flags)?,
            most_flags,
        })
    }

    /// How many keys there are, at most the capacity.
    pub fn len(&self) -> usize
        ensures value { result ≡ length self.now.items }
        ensures few { length self.now.items ≤ self.now.room }
    {
        self.items.len()
    }

    /// Whether there are as many keys as the capacity permits.
    pub fn is_full(&self) -> bool
        ensures { result ≡ nat_le self.now.room (length self.now.items) }
    {
        self.room <= self.items.len()
    }

    /// The key at this place, if there is one.
    pub fn at(&self, place: usize) -> Option<usize>
        ensures { result ≡ slice_get self.now.items place }
    {
        self.items.get(place).copied()
    }

    /// Whether the key is among the keys. Keys below `most_flags` of `new` have flags; only others are searched for.
    pub fn has(&self, key: usize) -> bool
        ensures there { result ≡ true → IsKeyOf key self.now.items }
        ensures all { IsKeyOf key self.now.items → result ≡ true }
    {
        if key < self.most_flags {
            key < self.flags.len() && self.flags[key]
        } else {
            is_in(self.items.as_slice(), key)
        }
    }

    /// Appends a key; if there are as many keys as the capacity permits, nothing happens.
    pub fn push(&mut self, key: usize)
        ensures { self.new ≡ with_last key self.old }
    {
        if self.items.len() < self.room {
            self.items.push_reserved(key);
            flag(&mut self.flags, key, self.most_flags);
        }
    }

    /// Removes the key at this place, if there is one; otherwise nothing happens.
    pub fn remove(&mut self, place: usize)
        ensures { self.new ≡ record self.old { items = remove self.old.items place } }
    {
        if place < self.items.len() {
            let key = self.items.remove(place);
            if !is_in(self.items.as_slice(), key) {
                unflag(&mut self.flags, key);
            }
        }
    }
}

// Whether the key is one of these.
fn is_in(keys: &[usize], key: usize) -> bool
    ensures { result ≡ list_any (λ other. other == key) keys.now }
{
    keys.iter().any(|other| *other == key)
}

// Sets the flag of the key, if the key is below `most`.
fn flag(flags: &mut Vec<bool>, key: usize, most: usize)
    requires short { length flags.old.items ≤ most }
    requires room { most ≤ vec_capacity flags.old }
    ensures set { key < most → get_or flags.new.items key false ≡ true }
    ensures short { length flags.new.items ≤ most }
    ensures room { vec_capacity flags.old ≤ vec_capacity flags.new }
    ensures others { (other : ℕ) → other ≢ key → get_or flags.new.items other false ≡ get_or flags.old.items other false }
{
    if most <= key {
        return;
    }
    if flags.len() <= key {
        // `new` allocated the memory.
        let _resized = flags.resize(key + 1, false);
    }
    if key < flags.len() {
        flags[key] = true;
    }
}

// Clears the flag of the key.
fn unflag(flags: &mut Vec<bool>, key: usize)
    ensures none { get_or flags.new.items key false ≡ false }
    ensures short { length flags.new.items ≡ length flags.old.items }
    ensures room { vec_capacity flags.old ≤ vec_capacity flags.new }
    ensures others { (other : ℕ) → other ≢ key → get_or flags.new.items other false ≡ get_or flags.old.items other false }
{
    if key < flags.len() {
        flags[key] = false;
    }
}

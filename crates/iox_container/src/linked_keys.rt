//! A doubly linked list of keys, so that no key has to be searched for.
ghost use Rattle.std.specs.Prelude.{◌≡◌, ℕ, ◌+◌, ◌^◌, ◌<◌, ◌≤◌, [], ◌∷◌, length, IfOk, slice_get};
ghost use Rattle.iox_container.specs.SlotTable.{Among, Distinct, without};
ghost use Rattle.iox_container.specs.LinkedKeys.{KeysInOrder, with_next};

use std::alloc::{AllocError, Global};
use std::marker::Model;

/// A doubly linked list of keys below `made`. The memory for all keys is allocated by `new`, but none of it is touched before the key is
/// made.
///
/// The last key's link leads to `made`, the next key that can be made. The link back from the first key isn't kept up to date, so that
/// removing the first key writes nothing.
#[derive(Drop)]
pub(crate) struct LinkedKeys {
    next: Vec<usize>,
    previous: Vec<usize>,
    first: usize,
    len: usize,
    room: usize,
}

impl Model for LinkedKeys {
    ghost use Rattle.std.specs.Prelude.{◌≤◌, ◌+◌, length};
    ghost use Rattle.std.specs.Vec.{vec_capacity};
    ghost use Rattle.iox_container.specs.LinkedKeys.{KeysInOrder};
    ghost use Rattle.iox_container.specs.Links.{LinksKeys, walk};

    ghost Value = { KeysInOrder };

    ghost view = { λ l. record { keys = walk l.next.items l.len l.first; made = length l.next.items; room = l.room } };

    ghost invariant = { λ l. LinksKeys l.next.items l.previous.items l.first (length l.next.items) l.len (walk l.next.items l.len l.first)
        × (l.len ≤ length l.next.items) × (l.room ≤ vec_capacity l.next) × (l.room + 1 ≤ vec_capacity l.previous) };
}

impl LinkedKeys {
    /// An empty list that can hold `room` keys. It fails only if an allocation fails.
    pub(crate) fn new(alloc: Global, room: usize) -> Result<Self, AllocError>
        requires { room + 1 < 2 ^ 64 }
        ensures { IfOk result (λ l. l ≡ record { keys = []; made = 0; room = room }) }
    {
        let next = Vec::with_capacity(alloc, room)?;
        let mut previous = Vec::with_capacity(alloc, room + 1)?;
        previous.push_reserved(0);
        Ok(LinkedKeys {
            next,
            previous,
            first: 0,
            len: 0,
            room,
        })
    }

    /// How many keys there are.
    pub(crate) fn len(&self) -> usize
        ensures count { result ≡ length self.now.keys }
        ensures fits { result ≤ self.now.made }
    {
        self.len
    }

    /// How many keys were made.
    pub(crate) fn made(&self) -> usize
        ensures { result ≡ self.now.made }
    {
        self.next.len()
    }

    /// How many keys can be made in all.
    pub(crate) fn room(&self) -> usize
        ensures { result ≡ self.now.room }
    {
        self.room
    }

    /// The first key, if there is one.
    pub(crate) fn first(&self) -> Option<usize>
        ensures { result ≡ slice_get self.now.keys 0 }
    {
        if self.len == 0 {
            None
        } else {
            Some(self.first)
        }
    }

    /// Makes the next key and appends it.
    pub(crate) fn make_next(&mut self)
        requires { self.old.made < self.old.room }
        ensures { self.new ≡ with_next self.old }
    {
        let key = self.next.len();
        self.next.push_reserved(key + 1);
        self.previous.push_reserved(key);
        self.len += 1;
    }

    /// Adds a key at the front.
    pub(crate) fn add(&mut self, key: usize)
        requires below { key < self.old.made }
        requires held { Among key self.old.keys → ⊥ }
        requires fits { length self.old.keys < self.old.made }
        ensures { self.new ≡ record self.old { keys = key ∷ self.old.keys } }
    {
        self.next[key] = self.first;
        self.previous[self.first] = key;
        self.first = key;
        self.len += 1;
    }

    /// Removes a key.
    pub(crate) fn remove(&mut self, key: usize)
        requires { Among key self.old.keys }
        ensures { self.new ≡ record self.old { keys = without key self.old.keys } }
    {
        let next = self.next[key];
        self.len -= 1;
        if key == self.first {
            self.first = next;
            return;
        }
        let previous = self.previous[key];
        self.next[previous] = next;
        self.previous[next] = previous;
    }
}

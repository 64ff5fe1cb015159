//! The free keys of a slot map, in the order in which they are given out.
ghost use Rattle.std.specs.Prelude.{◌≡◌, ℕ, ◌+◌, ◌^◌, ◌<◌, ◌≤◌, [], ◌∷◌, length, IfOk, slice_get};
ghost use Rattle.std.specs.List.{range_with_len};
ghost use Rattle.iox_container.specs.SlotTable.{Among, Distinct, without};
ghost use Rattle.iox_container.specs.LinkedKeys.{all_keys};

use crate::linked_keys::LinkedKeys;
use std::alloc::{AllocError, Global};
use std::marker::Model;

/// The free keys of a slot map in the order in which they will be given out.
///
/// Keys that were used before are linked. After them come the keys that were never used, in rising order; these need no link.
#[derive(Drop)]
pub(crate) struct FreeKeys {
    used: LinkedKeys,
}

impl Model for FreeKeys {
    ghost use Rattle.std.specs.Prelude.{◌≤◌};
    ghost use Rattle.iox_container.specs.BoundedKeys.{BoundedKeys};
    ghost use Rattle.iox_container.specs.LinkedKeys.{all_keys};

    ghost Value = { BoundedKeys };

    ghost view = { λ f. record { keys = all_keys f.used; capacity = f.used.room } };

    ghost invariant = { λ f. f.used.made ≤ f.used.room };
}

impl FreeKeys {
    /// All keys below the capacity, in rising order. It fails only if an allocation fails.
    pub(crate) fn new(alloc: Global, capacity: usize) -> Result<Self, AllocError>
        requires { capacity + 1 < 2 ^ 64 }
        ensures keys { IfOk result (λ f. f.keys ≡ range_with_len 0 capacity) }
        ensures capacity { IfOk result (λ f. f.capacity ≡ capacity) }
    {
        Ok(FreeKeys {
            used: LinkedKeys::new(alloc, capacity)?,
        })
    }

    /// How many keys are free.
    pub(crate) fn len(&self) -> usize
        ensures { result ≡ length self.now.keys }
    {
        self.used.len() + (self.used.room() - self.used.made())
    }

    /// The key that is given out next, if there is a free key.
    pub(crate) fn first(&self) -> Option<usize>
        ensures { result ≡ slice_get self.now.keys 0 }
    {
        if let Some(key) = self.used.first() {
            return Some(key);
        }
        let key = self.used.made();
        if key == self.used.room() {
            None
        } else {
            Some(key)
        }
    }

    /// Adds a key at the front.
    pub(crate) fn add(&mut self, key: usize)
        requires below { key < self.old.capacity }
        requires held { Among key self.old.keys → ⊥ }
        requires fits { length self.old.keys < self.old.capacity }
        ensures { self.new ≡ record { keys = key ∷ self.old.keys; capacity = self.old.capacity } }
    {
        self.used.add(key);
    }

    /// Removes a key. If the key was never used, this takes as many steps as there are never-used keys up to it.
    pub(crate) fn remove(&mut self, key: usize)
        requires below { key < self.old.capacity }
        requires free { Among key self.old.keys }
        ensures { self.new ≡ record { keys = without key self.old.keys; capacity = self.old.capacity } }
    {
        make_up_to(key, &mut self.used);
        self.used.remove(key);
    }
}

// Makes all keys up to `key`.
fn make_up_to(key: usize, keys: &mut LinkedKeys)
    requires { key < keys.old.room }
    ensures all { all_keys keys.new ≡ all_keys keys.old }
    ensures made { key < keys.new.made }
    ensures fits { keys.old.made ≤ keys.old.room → keys.new.made ≤ keys.new.room }
    ensures room { keys.new.room ≡ keys.old.room }
{
    while keys.made() <= key {
        keys.make_next();
    }
}

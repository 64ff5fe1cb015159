//! A slot map whose capacity is part of its type.
ghost use Rattle.std.specs.Prelude.{◌≡◌, ℕ, ◌+◌, ◌<◌, ◌≤◌, ◌↔◌, [], ◌∷◌, length, drop, replicate, IsTrue, IsSome, IfOk, IfSome, IfNone};
ghost use Rattle.std.specs.Prelude.{Some, None, slice_get, option_copied};
ghost use Rattle.std.specs.Bool.{OnTrue, OnFalse};
ghost use Rattle.std.specs.Borrow.{sem};
ghost use Rattle.std.specs.List.{range_with_len};
ghost use Rattle.std.specs.Option.{option_copied_mut};
ghost use Rattle.iox_container.specs.SlotTable.{FreeKeysAreExact, ListsHeldKeys, held_count, held_from, released, stored, value_at};

use crate::slot_map::{Iter, SlotMap, SlotMapKey};
use std::alloc::{AllocError, Global};
use std::fmt;
use std::marker::Model;

/// Values under keys that the map generates, at most `CAPACITY` of them. `new` allocates all its memory, and no other call allocates. The
/// memory is touched only as it is used.
///
/// Contracts see it like a `SlotMap` with `CAPACITY` keys.
///
/// Ported from `iceoryx2_bb_container::slotmap::FixedSizeSlotMap`.
#[derive(Drop)]
pub struct FixedSizeSlotMap<T, const CAPACITY: usize> {
    map: SlotMap<T>,
}

impl<T, const CAPACITY: usize> Model for FixedSizeSlotMap<T, CAPACITY> {
    ghost use Rattle.std.specs.Prelude.{◌≡◌, length};
    ghost use Rattle.iox_container.specs.SlotTable.{SlotTable};

    ghost Value = { SlotTable T };

    ghost view = { λ m. m.map };

    ghost invariant = { λ m. length m.map.values ≡ CAPACITY };
}

impl<T, const CAPACITY: usize> FixedSizeSlotMap<T, CAPACITY> {
    ghost use Rattle.iox_container.specs.FixedSizeSlotMapLends.{LendsAt};

    /// An empty map. It fails only if an allocation fails.
    pub fn new(alloc: Global) -> Result<Self, AllocError>
        ensures empty { IfOk result (λ m. m.values ≡ replicate CAPACITY None) }
        ensures free { IfOk result (λ m. m.free ≡ range_with_len 0 CAPACITY) }
    {
        Ok(FixedSizeSlotMap {
            map: SlotMap::new(alloc, CAPACITY)?,
        })
    }

    /// How many keys hold a value.
    pub fn len(&self) -> usize
        ensures value { result ≡ held_count self.now }
        ensures free_keys { FreeKeysAreExact self.now }
        ensures capacity { length self.now.values ≡ CAPACITY }
    {
        self.map.len()
    }

    /// The maximum number of values, which is `CAPACITY`.
    pub fn capacity(&self) -> usize
        ensures { result ≡ CAPACITY }
    {
        CAPACITY
    }

    /// Whether no key holds a value.
    pub fn is_empty(&self) -> bool
        ensures { IsTrue result ↔ (held_count self.now ≡ 0) }
    {
        self.map.is_empty()
    }

    /// Whether every key holds a value.
    pub fn is_full(&self) -> bool
        ensures none_free { IsTrue result ↔ (self.now.free ≡ []) }
        ensures all_held { IsTrue result ↔ (held_count self.now ≡ CAPACITY) }
        ensures not_all_held { OnFalse result (held_count self.now < CAPACITY) }
    {
        self.map.is_full()
    }

    /// The key that `insert` would give out; `None` if the map is full.
    pub fn next_free_key(&self) -> Option<SlotMapKey>
        ensures first { result ≡ slice_get self.now.free 0 }
        ensures free_keys { FreeKeysAreExact self.now }
    {
        self.map.next_free_key()
    }

    /// Whether the key holds a value.
    pub fn contains(&self, key: SlotMapKey) -> bool
        ensures { IsTrue result ↔ IsSome (value_at self.now.values key) }
    {
        self.map.contains(key)
    }

    /// The value at the key, if it holds one.
    pub fn get(&self, key: SlotMapKey) -> Option<&T>
        ensures { option_copied result ≡ value_at self.now.values key }
    {
        self.map.get(key)
    }

    /// The value at the key for modification in place, if the key holds one.
    pub fn get_mut(&mut self, key: SlotMapKey) -> Option<&mut T>
        ensures* writes_back { sem 𝓛 (LendsAt T.row CAPACITY.row self.entry key result) }
        ensures value { option_copied_mut result ≡ value_at self.old.values key }
    {
        self.map.get_mut(key)
    }

    /// Stores the value under the key that `next_free_key` returns, and returns this key. If the map is full, the value is dropped.
    pub fn insert(&mut self, value: T) -> Option<SlotMapKey>
    where
        T: Drop,
        ensures key { result ≡ slice_get self.old.free 0 }
        ensures some { IfSome result (λ key. self.new ≡ stored self.old key value) }
        ensures within { IfSome result (λ key. key < CAPACITY) }
        ensures free { IfSome result (λ key. value_at self.old.values key ≡ None) }
        ensures rest { self.new.free ≡ drop 1 self.old.free }
        ensures none { IfNone result (self.new ≡ self.old) }
    {
        self.map.insert(value)
    }

    /// Stores the value under the key and returns true; a value that the key held before is dropped. If the key isn't below the capacity,
    /// drops the new value and returns false.
    pub fn insert_at(&mut self, key: SlotMapKey, value: T) -> bool
    where
        T: Drop,
        ensures answer { IsTrue result ↔ (key < CAPACITY) }
        ensures ok { OnTrue result (self.new ≡ stored self.old key value) }
        ensures refused { OnFalse result (self.new ≡ self.old) }
    {
        self.map.insert_at(key, value)
    }

    /// Drops the value at the key and returns true; the key is then the next one that is given out. Returns false if the key holds no
    /// value.
    pub fn remove(&mut self, key: SlotMapKey) -> bool
    where
        T: Drop,
        ensures answer { IsTrue result ↔ IsSome (value_at self.old.values key) }
        ensures ok { OnTrue result (self.new ≡ released self.old key) }
        ensures refused { OnFalse result (self.new ≡ self.old) }
    {
        self.map.remove(key)
    }

    /// An iterator over the keys that hold a value, with the values, each key once, in rising order.
    pub fn iter(&self) -> Iter<'_, T>
        ensures items { result ≡ held_from 0 self.now.values }
        ensures each_once { ListsHeldKeys self.now.values result }
    {
        self.map.iter()
    }
}

/// Iterates over the keys that hold a value, with the values, in rising order.
impl<'a, T, const CAPACITY: usize> IntoIterator for &'a FixedSizeSlotMap<T, CAPACITY> {
    type Item = (SlotMapKey, &'a T);

    type IntoIter = Iter<'a, T>;

    ghost into_iter_gives = { λ map iter. iter ≡ held_from 0 map.now.values };

    fn into_iter(self) -> Iter<'a, T> {
        self.iter()
    }
}

/// Shows the values with the numbers of their keys as a map, in rising order.
impl<T: fmt::Debug, const CAPACITY: usize> fmt::Debug for FixedSizeSlotMap<T, CAPACITY> {
    fn fmt<W: fmt::Write>(&self, f: &mut fmt::Formatter<W>) -> fmt::Result {
        fmt::Debug::fmt(&self.map, f)
    }
}

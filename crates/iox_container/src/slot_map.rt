//! Maps that generate the keys of their values.
ghost use Rattle.std.specs.Prelude.{◌≡◌, ℕ, ◌+◌, ◌<◌, ◌≤◌, ◌↔◌, [], ◌∷◌, length, drop, replicate, IsTrue, IsSome, IfOk, IfSome, IfNone};
ghost use Rattle.std.specs.Prelude.{OnSome, Some, None, slice_get, option_copied};
ghost use Rattle.std.specs.Bool.{OnTrue, OnFalse};
ghost use Rattle.std.specs.Borrow.{sem};
ghost use Rattle.std.specs.List.{range_with_len};
ghost use Rattle.std.specs.Option.{option_copied_mut};
ghost use Rattle.iox_container.specs.Places.{padded};
ghost use Rattle.iox_container.specs.SlotTable.{FreeKeysAreExact, ListsHeldKeys, held_count, held_from, released, stored, value_at};

use crate::free_keys::FreeKeys;
use crate::places::Places;
use std::alloc::{AllocError, Global};
use std::fmt;
use std::marker::Model;

mod fixed_size_slot_map;
mod iter;
mod key;

pub use fixed_size_slot_map::FixedSizeSlotMap;
pub use iter::Iter;
pub use key::SlotMapKey;

/// Values under keys that the map generates, at most `capacity` of them. `new` allocates all its memory, and no other call allocates. The
/// memory is touched only as it is used: a key costs memory once it, or one above it, held a value. So a map of many keys that holds few
/// values is small, and it is created and iterated quickly.
///
/// Contracts see it as its `values`, one or none at each key below the capacity, and its `free` keys in the order in which they will be
/// given out: rising at first, and the key of a removed value goes to the front. `insert`, `insert_at` and `remove` touch at most 5 cells,
/// at any capacity. Only `insert_at` at a key beyond `reached` touches more: 3 cells for each key between, which it prepares once in the
/// lifetime of the map. At key 1,000,000 of a new map these are 3,000,000 cells, and over the map's lifetime at most 3 for each key. In
/// return, `new` touches none.
///
/// Ported from `iceoryx2_bb_container::slotmap::SlotMap`.
#[derive(Drop)]
pub struct SlotMap<T> {
    values: Places<T>,
    free: FreeKeys,
}

impl<T> Model for SlotMap<T> {
    ghost use Rattle.std.specs.Prelude.{◌≡◌, length};
    ghost use Rattle.iox_container.specs.SlotTable.{FreeKeysAreExact, SlotTable};

    ghost Value = { SlotTable T };

    ghost view = { λ m. record { values = m.values; free = m.free.keys } };

    ghost invariant = { λ m. FreeKeysAreExact (record { values = m.values; free = m.free.keys }) × (m.free.capacity ≡ length m.values) };
}

impl<T> SlotMap<T> {
    ghost use Rattle.iox_container.specs.SlotMapLends.{LendsAt, LendsHeld};

    /// An empty map with this capacity. It fails only if an allocation fails.
    pub fn new(alloc: Global, capacity: usize) -> Result<Self, AllocError>
        ensures empty { IfOk result (λ m. m.values ≡ replicate capacity None) }
        ensures free { IfOk result (λ m. m.free ≡ range_with_len 0 capacity) }
    {
        if capacity == usize::MAX {
            return Err(AllocError);
        }
        let free = FreeKeys::new(alloc, capacity)?;
        let values = Places::new(alloc, capacity)?;
        Ok(SlotMap { values, free })
    }

    /// How many keys hold a value.
    pub fn len(&self) -> usize
        ensures value { result ≡ held_count self.now }
        ensures free_keys { FreeKeysAreExact self.now }
    {
        self.values.len() - self.free.len()
    }

    /// The maximum number of values.
    pub fn capacity(&self) -> usize
        ensures { result ≡ length self.now.values }
    {
        self.values.len()
    }

    /// Whether no key holds a value.
    pub fn is_empty(&self) -> bool
        ensures { IsTrue result ↔ (held_count self.now ≡ 0) }
    {
        self.len() == 0
    }

    /// Whether every key holds a value.
    pub fn is_full(&self) -> bool
        ensures none_free { IsTrue result ↔ (self.now.free ≡ []) }
        ensures all_held { IsTrue result ↔ (held_count self.now ≡ length self.now.values) }
        ensures not_all_held { OnFalse result (held_count self.now < length self.now.values) }
    {
        self.free.len() == 0
    }

    /// The key that `insert` would give out; `None` if the map is full.
    pub fn next_free_key(&self) -> Option<SlotMapKey>
        ensures first { result ≡ slice_get self.now.free 0 }
        ensures free_keys { FreeKeysAreExact self.now }
    {
        match self.free.first() {
            Some(key) => Some(SlotMapKey::new(key)),
            None => None,
        }
    }

    /// Whether the key holds a value.
    pub fn contains(&self, key: SlotMapKey) -> bool
        ensures { IsTrue result ↔ IsSome (value_at self.now.values key) }
    {
        self.get(key).is_some()
    }

    /// The value at the key, if it holds one.
    pub fn get(&self, key: SlotMapKey) -> Option<&T>
        ensures { option_copied result ≡ value_at self.now.values key }
    {
        self.values.get(key.value())
    }

    /// The value at the key for modification in place, if the key holds one.
    pub fn get_mut(&mut self, key: SlotMapKey) -> Option<&mut T>
        ensures* writes_back { sem 𝓛 (LendsAt T.row self.entry key result) }
        ensures value { option_copied_mut result ≡ value_at self.old.values key }
    {
        if self.contains(key) {
            Some(self.value_mut(key))
        } else {
            None
        }
    }

    fn value_mut(&mut self, key: SlotMapKey) -> &mut T
        requires { IsSome (value_at self.old.values key) }
        ensures* writes_back { sem 𝓛 (LendsHeld T.row self.entry key result) }
        ensures value { value_at self.old.values key ≡ Some result.now }
    {
        self.values.value_mut(key.value())
    }

    /// Stores the value under the key that `next_free_key` returns, and returns this key. If the map is full, the value is dropped.
    pub fn insert(&mut self, value: T) -> Option<SlotMapKey>
    where
        T: Drop,
        ensures key { result ≡ slice_get self.old.free 0 }
        ensures some { IfSome result (λ key. self.new ≡ stored self.old key value) }
        ensures within { IfSome result (λ key. key < length self.old.values) }
        ensures free { IfSome result (λ key. value_at self.old.values key ≡ None) }
        ensures rest { self.new.free ≡ drop 1 self.old.free }
        ensures none { IfNone result (self.new ≡ self.old) }
    {
        let key = self.next_free_key()?;
        self.insert_at(key, value);
        Some(key)
    }

    /// Stores the value under the key and returns true; a value that the key held before is dropped. If the key isn't below the capacity,
    /// drops the new value and returns false.
    ///
    /// At a key beyond `reached`, this call prepares each key between, which touches 3 cells for each.
    pub fn insert_at(&mut self, key: SlotMapKey, value: T) -> bool
    where
        T: Drop,
        ensures answer { IsTrue result ↔ (key < length self.old.values) }
        ensures ok { OnTrue result (self.new ≡ stored self.old key value) }
        ensures refused { OnFalse result (self.new ≡ self.old) }
    {
        let index = key.value();
        if index >= self.values.len() {
            return false;
        }
        let was_free = self.values.get(index).is_none();
        self.values.put(index, value);
        if was_free {
            self.free.remove(index);
        }
        true
    }

    /// Drops the value at the key and returns true; the key is then the next one that is given out. Returns false if the key holds no
    /// value.
    pub fn remove(&mut self, key: SlotMapKey) -> bool
    where
        T: Drop,
        ensures answer { IsTrue result ↔ IsSome (value_at self.old.values key) }
        ensures ok { OnTrue result (self.new ≡ released self.old key) }
        ensures refused { OnFalse result (self.new ≡ self.old) }
    {
        self.take(key).is_some()
    }

    // Takes out the value that `remove` drops.
    pub(crate) fn take(&mut self, key: SlotMapKey) -> Option<T>
        ensures value { result ≡ value_at self.old.values key }
        ensures some { OnSome result (self.new ≡ released self.old key) }
        ensures none { IfNone result (self.new ≡ self.old) }
    {
        if !self.contains(key) {
            return None;
        }
        let index = key.value();
        let value = self.values.take(index);
        self.free.add(index);
        value
    }

    /// How many keys, from key 0 on, were ever used. No key at or above this number holds a value, so a scan of all keys can stop there.
    ///
    /// New in this port.
    pub fn reached(&self) -> usize
        ensures bound { result ≤ length self.now.values }
        ensures none { (key : ℕ) → result ≤ key → value_at self.now.values key ≡ None }
    {
        self.values.used().len()
    }

    // The content of each key that was reached.
    pub(crate) fn places(&self) -> &[Option<T>]
        ensures whole { padded (length self.now.values) result.now ≡ self.now.values }
        ensures bound { length result.now ≤ length self.now.values }
    {
        self.values.used()
    }

    /// An iterator over the keys that hold a value, with the values, each key once, in rising order.
    pub fn iter(&self) -> Iter<'_, T>
        ensures items { result ≡ held_from 0 self.now.values }
        ensures each_once { ListsHeldKeys self.now.values result }
    {
        Iter {
            values: self.values.used(),
            key: 0,
        }
    }
}

/// Iterates over the keys that hold a value, with the values, in rising order.
impl<'a, T> IntoIterator for &'a SlotMap<T> {
    type Item = (SlotMapKey, &'a T);

    type IntoIter = Iter<'a, T>;

    ghost into_iter_gives = { λ map iter. iter ≡ held_from 0 map.now.values };

    fn into_iter(self) -> Iter<'a, T> {
        self.iter()
    }
}

/// Shows the values with the numbers of their keys as a map, in rising order.
impl<T: fmt::Debug> fmt::Debug for SlotMap<T> {
    fn fmt<W: fmt::Write>(&self, f: &mut fmt::Formatter<W>) -> fmt::Result {
        let mut out = f.debug_map();
        for (key, value) in self {
            let number = key.value();
            out.entry(&number, value);
        }
        out.finish()
    }
}

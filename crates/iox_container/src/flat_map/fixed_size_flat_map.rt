//! A flat map whose capacity is part of its type.
ghost use Rattle.std.specs.Prelude.{◌≡◌, ◌≢◌, ℕ, ◌+◌, ◌<◌, ◌≤◌, ◌↔◌, [], ◌∷◌, length, replicate, IsTrue, IsOk, IsSome, IfOk, IfSome};
ghost use Rattle.std.specs.Prelude.{IfNone, OnOk, OnErr, Ok, Err, Some, None, false, slice_get, option_copied, option_map};
ghost use Rattle.std.specs.Bool.{OnFalse};
ghost use Rattle.std.specs.Borrow.{sem};
ghost use Rattle.std.specs.Fn.{CalledAt};
ghost use Rattle.std.specs.List.{range_with_len};
ghost use Rattle.std.specs.Option.{ForSome, option_copied_mut};
ghost use Rattle.iox_container.specs.SlotTable.{released, stored};
ghost use Rattle.iox_container.specs.PairTable.{CallsAtKeys, KeysDiffer, pairs, place_of, value_of};

use crate::CallbackProgression;
use crate::flat_map::{FlatMap, FlatMapError, Iter};
use std::alloc::{AllocError, Global};
use std::fmt;
use std::marker::Model;

/// Pairs of a key and a value, at most `CAPACITY` of them, no two with equal keys; the caller provides the keys. `new` allocates all the
/// map's memory. Of the other calls only `get` may allocate.
///
/// Contracts see it like a `FlatMap` with `CAPACITY` places.
///
/// Ported from `iceoryx2_bb_container::flatmap::FixedSizeFlatMap`.
#[derive(Drop)]
pub struct FixedSizeFlatMap<K: Eq, V, const CAPACITY: usize> {
    map: FlatMap<K, V>,
}

impl<K: Eq, V, const CAPACITY: usize> Model for FixedSizeFlatMap<K, V, CAPACITY> {
    ghost use Rattle.std.specs.Prelude.{◌≡◌, length};
    ghost use Rattle.iox_container.specs.SlotTable.{SlotTable};

    ghost Value = { SlotTable (K × V) };

    ghost view = { λ m. m.map };

    ghost invariant = { λ m. length m.map.values ≡ CAPACITY };
}

impl<K: Eq, V, const CAPACITY: usize> FixedSizeFlatMap<K, V, CAPACITY> {
    ghost use Rattle.iox_container.specs.FixedSizeFlatMapLends.{LendsOf};

    /// An empty map. It fails only if an allocation fails.
    pub fn new(alloc: Global) -> Result<Self, AllocError>
        ensures empty { IfOk result (λ m. m.values ≡ replicate CAPACITY None) }
        ensures free { IfOk result (λ m. m.free ≡ range_with_len 0 CAPACITY) }
    {
        Ok(FixedSizeFlatMap {
            map: FlatMap::new(alloc, CAPACITY)?,
        })
    }

    /// How many pairs the map holds.
    pub fn len(&self) -> usize
        ensures value { result ≡ length (pairs self.now.values) }
        ensures fits { result ≤ CAPACITY }
        ensures free { result + length self.now.free ≡ CAPACITY }
        ensures keys_differ { KeysDiffer K.eq self.now.values }
        ensures capacity { length self.now.values ≡ CAPACITY }
    {
        self.map.len()
    }

    /// The maximum number of pairs, which is `CAPACITY`.
    pub fn capacity(&self) -> usize
        ensures { result ≡ CAPACITY }
    {
        CAPACITY
    }

    /// Whether the map holds no pair.
    pub fn is_empty(&self) -> bool
        ensures { IsTrue result ↔ (pairs self.now.values ≡ []) }
    {
        self.map.is_empty()
    }

    /// Whether the map has `CAPACITY` pairs, so that no further pair fits.
    pub fn is_full(&self) -> bool
        ensures none_free { IsTrue result ↔ (self.now.free ≡ []) }
        ensures all_held { IsTrue result ↔ (length (pairs self.now.values) ≡ CAPACITY) }
        ensures not_all_held { OnFalse result (length (pairs self.now.values) < CAPACITY) }
    {
        self.map.is_full()
    }

    /// Whether the map has a key equal to this one.
    pub fn contains(&self, key: &K) -> bool
        ensures { IsTrue result ↔ IsSome (value_of K.eq key.now self.now) }
    {
        self.map.contains(key)
    }

    /// The value under the key, if the map has the key.
    pub fn get_ref(&self, key: &K) -> Option<&V>
        ensures { option_copied result ≡ value_of K.eq key.now self.now }
    {
        self.map.get_ref(key)
    }

    /// The value under the key for modification in place, if the map has the key.
    pub fn get_mut_ref(&mut self, key: &K) -> Option<&mut V>
        ensures* writes_back { sem 𝓛 (LendsOf K.row V.row CAPACITY.row K.PartialEq self.entry key.now result) }
        ensures value { option_copied_mut result ≡ value_of K.eq key.now self.old }
    {
        self.map.get_mut_ref(key)
    }

    /// A clone of the value under the key, if the map has the key. It fails only if the map has the key and the clone of its value fails,
    /// for example because an allocation fails.
    pub fn get(&self, key: &K) -> Result<Option<V>, AllocError>
    where
        V: Clone,
        requires clones_equal { (x y : V) → V.is_clone x y → y ≡ x }
        ensures value { IfOk result (λ value. value ≡ value_of K.eq key.now self.now) }
        ensures err { OnErr result (IsSome (value_of K.eq key.now self.now)) }
        ensures refused { OnErr result (ForSome (value_of K.eq key.now self.now) (λ value. ¬ V.is_infallible value)) }
    {
        self.map.get(key)
    }

    /// Inserts a pair.
    ///
    /// Refused with `KeyAlreadyExists` if the map has an equal key, else with `IsFull` if no further pair fits. A refused pair is dropped.
    pub fn insert(&mut self, key: K, value: V) -> Result<(), FlatMapError>
    where
        K: Drop,
        V: Drop,
        ensures exists { (result ≡ Err FlatMapError.KeyAlreadyExists) ↔ IsSome (value_of K.eq key self.old) }
        ensures full { (result ≡ Err FlatMapError.IsFull) ↔ ((value_of K.eq key self.old ≡ None) × (self.old.free ≡ [])) }
        ensures accepted { IsOk result ↔ ((value_of K.eq key self.old ≡ None) × (self.old.free ≢ [])) }
        ensures full_by_pairs { (result ≡ Err FlatMapError.IsFull)
            ↔ ((value_of K.eq key self.old ≡ None) × (length (pairs self.old.values) ≡ CAPACITY)) }
        ensures accepted_by_pairs { IsOk result ↔ ((value_of K.eq key self.old ≡ None) × (length (pairs self.old.values) < CAPACITY)) }
        ensures ok { OnOk result (IfSome (slice_get self.old.free 0) (λ place. self.new ≡ stored self.old place (key, value))) }
        ensures found { OnOk result (value_of K.eq key self.new ≡ Some value) }
        ensures others { OnOk result ((other : K) → K.eq key other ≡ false → value_of K.eq other self.new ≡ value_of K.eq other self.old) }
        ensures err { OnErr result (self.new ≡ self.old) }
    {
        self.map.insert(key, value)
    }

    /// Removes the pair with this key and returns its value, if the map has the key. The removed key is dropped, and the pair's place is
    /// the next one used.
    pub fn remove(&mut self, key: &K) -> Option<V>
    where
        K: Drop,
        ensures value { result ≡ value_of K.eq key.now self.old }
        ensures some { IfSome (place_of K.eq key.now self.old) (λ found. self.new ≡ released self.old found.0) }
        ensures none { IfNone result (self.new ≡ self.old) }
        ensures gone { value_of K.eq key.now self.new ≡ None }
        ensures others { (other : K) → K.eq key.now other ≡ false → value_of K.eq other self.new ≡ value_of K.eq other self.old }
    {
        self.map.remove(key)
    }

    /// Calls `callback` with each key in the order of the places, until it returns `Stop` or all keys were passed to it. The contract also
    /// says in which state this leaves the callback.
    pub fn list_keys<F: FnMut(&K) -> CallbackProgression>(&self, callback: &mut F)
        requires { F.IsAlwaysCallable callback.old }
        ensures called { CallsAtKeys (CalledAt F.FnMut) callback.old (pairs self.now.values) callback.new }
        ensures callable { F.IsAlwaysCallable callback.new }
    {
        self.map.list_keys(callback);
    }
}

impl<K: Eq, V, const CAPACITY: usize> FixedSizeFlatMap<K, V, CAPACITY> {
    /// An iterator over the keys with their values, each pair once, in the order of the places.
    pub fn iter(&self) -> Iter<'_, K, V>
        ensures pairs { result ≡ pairs self.now.values }
        ensures keys_differ { KeysDiffer K.eq self.now.values }
    {
        self.map.iter()
    }
}

/// Iterates over the pairs, in the order of the places.
impl<'a, K: Eq, V, const CAPACITY: usize> IntoIterator for &'a FixedSizeFlatMap<K, V, CAPACITY> {
    type Item = (&'a K, &'a V);

    type IntoIter = Iter<'a, K, V>;

    ghost into_iter_gives = { λ map iter. iter ≡ pairs map.now.values };

    fn into_iter(self) -> Iter<'a, K, V> {
        self.iter()
    }
}

/// Shows the pairs as a map, in the order of the places.
impl<K: Eq + fmt::Debug, V: fmt::Debug, const CAPACITY: usize> fmt::Debug
    for FixedSizeFlatMap<K, V, CAPACITY> {
    fn fmt<W: fmt::Write>(&self, f: &mut fmt::Formatter<W>) -> fmt::Result {
        fmt::Debug::fmt(&self.map, f)
    }
}

//! Maps whose keys the caller provides.
ghost use Rattle.std.specs.Prelude.{◌≡◌, ◌≢◌, ℕ, ◌+◌, ◌<◌, ◌≤◌, ◌↔◌, [], ◌∷◌, length, replicate, IsTrue, IsOk, IsSome, IfOk, IfSome};
ghost use Rattle.std.specs.Prelude.{IfNone, OnOk, OnErr, Ok, Err, Some, None, false, slice_get, option_copied, option_map};
ghost use Rattle.std.specs.Bool.{OnFalse};
ghost use Rattle.std.specs.Borrow.{sem};
ghost use Rattle.std.specs.Fn.{CalledAt};
ghost use Rattle.std.specs.List.{range_with_len};
ghost use Rattle.std.specs.Option.{ForSome, option_copied_mut};
ghost use Rattle.iox_container.specs.SlotTable.{held_count, released, stored};
ghost use Rattle.iox_container.specs.PairTable.{CallsAtKeys, KeysDiffer, pairs, place_of, value_of};

use crate::CallbackProgression;
use crate::slot_map::{SlotMap, SlotMapKey};
use std::alloc::{AllocError, Global};
use std::fmt;
use std::marker::Model;

mod error;
mod fixed_size_flat_map;
mod iter;

pub use error::FlatMapError;
pub use fixed_size_flat_map::FixedSizeFlatMap;
pub use iter::Iter;

/// Pairs of a key and a value, at most `capacity` of them, no two with equal keys; the caller provides the keys. `new` allocates all the
/// map's memory. Of the other calls only `get` may allocate.
///
/// Contracts see it as a slot table of pairs. A pair keeps its place while it is in the map; a new pair goes to the first free place, and
/// the place of a removed pair is the next one used. A lookup scans the places one after another until it has seen every pair, so it costs
/// at most as many places as there ever were pairs at one time.
///
/// Ported from `iceoryx2_bb_container::flatmap::FlatMap`.
#[derive(Drop)]
pub struct FlatMap<K: Eq, V> {
    map: SlotMap<(K, V)>,
}

impl<K: Eq, V> Model for FlatMap<K, V> {
    ghost use Rattle.iox_container.specs.SlotTable.{SlotTable};
    ghost use Rattle.iox_container.specs.PairTable.{KeysDiffer};

    ghost Value = { SlotTable (K × V) };

    ghost view = { λ m. m.map };

    ghost invariant = { λ m. KeysDiffer K.eq m.map.values };
}

impl<K: Eq, V> FlatMap<K, V> {
    ghost use Rattle.iox_container.specs.FlatMapLends.{LendsOf};

    /// An empty map with this capacity. It fails only if an allocation fails.
    pub fn new(alloc: Global, capacity: usize) -> Result<Self, AllocError>
        ensures empty { IfOk result (λ m. m.values ≡ replicate capacity None) }
        ensures free { IfOk result (λ m. m.free ≡ range_with_len 0 capacity) }
    {
        Ok(FlatMap {
            map: SlotMap::new(alloc, capacity)?,
        })
    }

    /// How many pairs the map holds.
    pub fn len(&self) -> usize
        ensures value { result ≡ length (pairs self.now.values) }
        ensures fits { result ≤ length self.now.values }
        ensures free { result + length self.now.free ≡ length self.now.values }
        ensures keys_differ { KeysDiffer K.eq self.now.values }
    {
        self.map.len()
    }

    /// The maximum number of pairs.
    pub fn capacity(&self) -> usize
        ensures { result ≡ length self.now.values }
    {
        self.map.capacity()
    }

    /// Whether the map holds no pair.
    pub fn is_empty(&self) -> bool
        ensures { IsTrue result ↔ (pairs self.now.values ≡ []) }
    {
        self.len() == 0
    }

    /// Whether the map has as many pairs as its capacity, so that no further pair fits.
    pub fn is_full(&self) -> bool
        ensures none_free { IsTrue result ↔ (self.now.free ≡ []) }
        ensures all_held { IsTrue result ↔ (length (pairs self.now.values) ≡ length self.now.values) }
        ensures not_all_held { OnFalse result (length (pairs self.now.values) < length self.now.values) }
    {
        self.map.is_full()
    }

    fn place(&self, key: &K) -> Option<SlotMapKey>
        ensures { result ≡ option_map (λ (found : ℕ × (K × V)). found.0) (place_of K.eq key.now self.now) }
    {
        let mut unseen = self.map.len();
        for index in 0..self.map.capacity() {
            if unseen == 0 {
                return None;
            }
            let place = SlotMapKey::new(index);
            if let Some(pair) = self.map.get(place) {
                if pair.0 == *key {
                    return Some(place);
                }
                unseen -= 1;
            }
        }
        None
    }

    /// Whether the map has a key equal to this one.
    pub fn contains(&self, key: &K) -> bool
        ensures { IsTrue result ↔ IsSome (value_of K.eq key.now self.now) }
    {
        self.place(key).is_some()
    }

    /// The value under the key, if the map has the key.
    pub fn get_ref(&self, key: &K) -> Option<&V>
        ensures { option_copied result ≡ value_of K.eq key.now self.now }
    {
        let place = self.place(key)?;
        match self.map.get(place) {
            Some(pair) => Some(&pair.1),
            None => None,
        }
    }

    /// The value under the key for modification in place, if the map has the key.
    pub fn get_mut_ref(&mut self, key: &K) -> Option<&mut V>
        ensures* writes_back { sem 𝓛 (LendsOf K.row V.row K.PartialEq self.entry key.now result) }
        ensures value { option_copied_mut result ≡ value_of K.eq key.now self.old }
    {
        let place = self.place(key)?;
        match self.map.get_mut(place) {
            Some(pair) => Some(&mut pair.1),
            None => None,
        }
    }

    /// A clone of the value under the key, if the map has the key. It fails only if the map has the key and the clone of its value fails,
    /// for example because an allocation fails.
    pub fn get(&self, key: &K) -> Result<Option<V>, AllocError>
    where
        V: Clone,
        requires clones_equal { (x y : V) → V.is_clone x y → y ≡ x }
        ensures value { IfOk result (λ value. value ≡ value_of K.eq key.now self.now) }
        ensures err { OnErr result (IsSome (value_of K.eq key.now self.now)) }
        ensures refused { OnErr result (ForSome (value_of K.eq key.now self.now) (λ value. ¬ V.is_infallible value)) }
    {
        match self.get_ref(key) {
            Some(value) => Ok(Some(value.clone()?)),
            None => Ok(None),
        }
    }

    /// Inserts a pair.
    ///
    /// Refused with `KeyAlreadyExists` if the map has an equal key, else with `IsFull` if no further pair fits. A refused pair is dropped.
    pub fn insert(&mut self, key: K, value: V) -> Result<(), FlatMapError>
    where
        K: Drop,
        V: Drop,
        ensures exists { (result ≡ Err FlatMapError.KeyAlreadyExists) ↔ IsSome (value_of K.eq key self.old) }
        ensures full { (result ≡ Err FlatMapError.IsFull) ↔ ((value_of K.eq key self.old ≡ None) × (self.old.free ≡ [])) }
        ensures accepted { IsOk result ↔ ((value_of K.eq key self.old ≡ None) × (self.old.free ≢ [])) }
        ensures full_by_pairs { (result ≡ Err FlatMapError.IsFull)
            ↔ ((value_of K.eq key self.old ≡ None) × (length (pairs self.old.values) ≡ length self.old.values)) }
        ensures accepted_by_pairs { IsOk result
            ↔ ((value_of K.eq key self.old ≡ None) × (length (pairs self.old.values) < length self.old.values)) }
        ensures ok { OnOk result (IfSome (slice_get self.old.free 0) (λ place. self.new ≡ stored self.old place (key, value))) }
        ensures found { OnOk result (value_of K.eq key self.new ≡ Some value) }
        ensures others { OnOk result ((other : K) → K.eq key other ≡ false → value_of K.eq other self.new ≡ value_of K.eq other self.old) }
        ensures err { OnErr result (self.new ≡ self.old) }
    {
        if self.contains(&key) {
            return Err(FlatMapError::KeyAlreadyExists);
        }
        if self.is_full() {
            return Err(FlatMapError::IsFull);
        }
        self.map.insert((key, value));
        Ok(())
    }

    /// Removes the pair with this key and returns its value, if the map has the key. The removed key is dropped, and the pair's place is
    /// the next one used.
    pub fn remove(&mut self, key: &K) -> Option<V>
    where
        K: Drop,
        ensures value { result ≡ value_of K.eq key.now self.old }
        ensures some { IfSome (place_of K.eq key.now self.old) (λ found. self.new ≡ released self.old found.0) }
        ensures none { IfNone result (self.new ≡ self.old) }
        ensures gone { value_of K.eq key.now self.new ≡ None }
        ensures others { (other : K) → K.eq key.now other ≡ false → value_of K.eq other self.new ≡ value_of K.eq other self.old }
    {
        let place = self.place(key)?;
        let (_key, value) = self.map.take(place)?;
        Some(value)
    }

    /// Calls `callback` with each key in the order of the places, until it returns `Stop` or all keys were passed to it. The contract also
    /// says in which state this leaves the callback.
    pub fn list_keys<F: FnMut(&K) -> CallbackProgression>(&self, callback: &mut F)
        requires { F.IsAlwaysCallable callback.old }
        ensures called { CallsAtKeys (CalledAt F.FnMut) callback.old (pairs self.now.values) callback.new }
        ensures callable { F.IsAlwaysCallable callback.new }
    {
        let mut unseen = self.map.len();
        for index in 0..self.map.capacity() {
            if unseen == 0 {
                return;
            }
            let Some(pair) = self.map.get(SlotMapKey::new(index)) else {
                continue;
            };
            unseen -= 1;
            match callback(&pair.0) {
                CallbackProgression::Continue => continue,
                CallbackProgression::Stop => return,
            }
        }
    }
}

impl<K: Eq, V> FlatMap<K, V> {
    /// An iterator over the keys with their values, each pair once, in the order of the places.
    pub fn iter(&self) -> Iter<'_, K, V>
        ensures pairs { result ≡ pairs self.now.values }
        ensures keys_differ { KeysDiffer K.eq self.now.values }
    {
        Iter {
            places: self.map.places(),
        }
    }
}

/// Iterates over the pairs, in the order of the places.
impl<'a, K: Eq, V> IntoIterator for &'a FlatMap<K, V> {
    type Item = (&'a K, &'a V);

    type IntoIter = Iter<'a, K, V>;

    ghost into_iter_gives = { λ map iter. iter ≡ pairs map.now.values };

    fn into_iter(self) -> Iter<'a, K, V> {
        self.iter()
    }
}

/// Shows the pairs as a map, in the order of the places.
impl<K: Eq + fmt::Debug, V: fmt::Debug> fmt::Debug for FlatMap<K, V> {
    fn fmt<W: fmt::Write>(&self, f: &mut fmt::Formatter<W>) -> fmt::Result {
        let mut out = f.debug_map();
        for (key, value) in self {
            out.entry(key, value);
        }
        out.finish()
    }
}

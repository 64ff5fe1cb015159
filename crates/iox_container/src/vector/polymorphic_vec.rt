//! A vector whose capacity is chosen when it is created.
ghost use Rattle.std.specs.Prelude.{◌≡◌, ℕ, ◌^◌, ◌<◌, ◌≤◌, [], ◌∷◌, ◌++◌, length, IsOk, IfOk, OnErr, refl};
ghost use Rattle.std.specs.Iterator.Adapters.{IterYieldsInOrder};
ghost use Rattle.std.specs.Slice.Iter.{iter_rest};
ghost use Rattle.std.specs.List.{AllZip, refill};
ghost use Rattle.std.specs.Cmp.{on_equiv, on_per};
ghost use Rattle.std.specs.Cmp.Lexicographic.{pointwise, lists_equiv, lists_per};
ghost use Rattle.iox_container.specs.Vectors.{MakesInTurn, refill_same};

use crate::vector::Vector;
use std::alloc::{AllocError, Allocator};
use std::marker::Model;
use std::{fmt, slice};

/// A vector whose capacity is chosen by `new`, which allocates all its memory.
///
/// Contracts see it as its `items` and its `capacity`.
///
/// Ported from `iceoryx2_bb_container::vector::PolymorphicVec`.
pub struct PolymorphicVec<T, A: Allocator> {
    places: Vec<T, A>,
    capacity: usize,
}

impl<T, A: Allocator> Model for PolymorphicVec<T, A> {
    ghost use Rattle.std.specs.Prelude.{◌≤◌, vec_capacity, vec_len};
    ghost use Rattle.iox_container.specs.BoundedList.{BoundedList};

    ghost Value = { BoundedList T };

    ghost view = { λ v. record { items = v.places.items; capacity = v.capacity } };

    ghost invariant = { λ v. (vec_len v.places ≤ v.capacity) × (v.capacity ≤ vec_capacity v.places) };
}

impl<T, A: Allocator> PolymorphicVec<T, A> {
    /// An empty vector with this capacity. It fails only if an allocation fails, and never at capacity 0.
    pub fn new(alloc: A, capacity: usize) -> Result<Self, AllocError>
        ensures empty { IfOk result (λ v. v.items ≡ []) }
        ensures capacity { IfOk result (λ v. v.capacity ≡ capacity) }
        ensures succeeds { capacity ≡ 0 → IsOk result }
    {
        Ok(PolymorphicVec {
            places: Vec::with_capacity(alloc, capacity)?,
            capacity,
        })
    }

    /// A full vector of the results of `make` for 0, 1, 2 and so on; `make` is called once for each item. It fails only if an allocation
    /// fails, and never at capacity 0; `make` is then not called.
    pub fn from_fn<F: FnMut(usize) -> T>(
        alloc: A,
        capacity: usize,
        make: &mut F,
    ) -> Result<Self, AllocError>
        requires { F.IsAlwaysCallable make.old }
        ensures made { IfOk result (λ v. MakesInTurn (λ p i x q. F.step p i x q) make.old 0 v.items make.new) }
        ensures full { IfOk result (λ v. length v.items ≡ capacity) }
        ensures capacity { IfOk result (λ v. v.capacity ≡ capacity) }
        ensures not_called { OnErr result (make.new ≡ make.old) }
        ensures callable { F.IsAlwaysCallable make.new }
        ensures succeeds { capacity ≡ 0 → IsOk result }
    {
        let mut places = Vec::with_capacity(alloc, capacity)?;
        for i in 0..capacity {
            places.push_reserved(make(i));
        }
        Ok(PolymorphicVec { places, capacity })
    }
}

impl<T: Clone + Drop, A: Allocator + Clone> PolymorphicVec<T, A> {
    /// A copy with the same items and capacity. It fails only if an allocation or the clone of an item fails.
    pub fn try_clone(&self) -> Result<Self, AllocError>
        requires clones_equal { (x y : T) → T.is_clone x y → y ≡ x }
        ensures { IfOk result (λ v. v ≡ self.now) }
    {
        self.clone()
    }
}

/// A vector of the same capacity with clones of the items, in their order. It fails only if an allocation or the clone of an item fails.
impl<T: Clone + Drop, A: Allocator + Clone> Clone for PolymorphicVec<T, A> {
    ghost is_clone = { λ v w. AllZip T.is_clone v.items w.items × (w.capacity ≡ v.capacity) };

    fn clone(&self) -> Result<Self, AllocError> {
        let mut places = Vec::with_capacity(self.places.allocator().clone()?, self.capacity)?;
        places.extend_with_clones(self.places.as_slice())?;
        Ok(PolymorphicVec {
            places,
            capacity: self.capacity,
        })
    }
}

impl<T: Drop, A: Allocator> Vector<T> for PolymorphicVec<T, A> {
    ghost items = { λ v. v.items };

    ghost room = { λ v. v.capacity };

    ghost with_items = { λ v ws. record { items = refill (length v.items) v.items ws; capacity = v.capacity } };

    fn as_slice(&self) -> &[T] {
        self.places.as_slice()
    }

    fn as_mut_slice(&mut self) -> &mut [T] {
        self.places.as_mut_slice()
    }

    fn capacity(&self) -> usize {
        self.capacity
    }

    fn push_reserved(&mut self, value: T) {
        self.places.push_reserved(value);
    }

    fn insert_reserved(&mut self, index: usize, element: T) {
        let _ = self.places.insert(index, element);
    }

    fn remove(&mut self, index: usize) -> Option<T> {
        if index < self.places.len() {
            Some(self.places.remove(index))
        } else {
            None
        }
    }

    fn pop(&mut self) -> Option<T> {
        self.places.pop()
    }

    ghost items_of_changed = { λ v xs same. refill_same v.items xs same };

    ghost room_of_changed = { λ _ _. refl };
}

/// Drops the items one by one, the last first.
impl<T: Drop, A: Allocator> Drop for PolymorphicVec<T, A> {
    fn drop(mut self) {
        self.clear();
        let PolymorphicVec {
            places: _,
            capacity: _,
        } = self;
    }
}

/// Iterates over the items, in their order.
impl<'a, T: Drop, A: Allocator> IntoIterator for &'a PolymorphicVec<T, A> {
    type Item = &'a T;

    type IntoIter = slice::Iter<'a, T>;

    ghost into_iter_gives = { λ v iter. (iter_rest iter ≡ v.now.items) × (length (iter_rest iter) < 2 ^ 64) × IterYieldsInOrder T };

    fn into_iter(self) -> slice::Iter<'a, T> {
        self.as_slice().iter()
    }
}

/// Two vectors are equal if their items are equal, in order.
impl<T: PartialEq, A: Allocator> PartialEq for PolymorphicVec<T, A> {
    ghost eq = { λ v w. pointwise T.eq v.items w.items };

    ghost laws = { on_per (λ v. v.items) (lists_per T.laws) };

    fn eq(&self, other: &Self) -> bool {
        self.places == other.places
    }
}

impl<T: Eq, A: Allocator> Eq for PolymorphicVec<T, A> {
    ghost laws = { on_equiv (λ v. v.items) (lists_equiv T.Eq.laws) };
}

/// Shows the items as a list.
impl<T: Drop + fmt::Debug, A: Allocator> fmt::Debug for PolymorphicVec<T, A> {
    fn fmt<W: fmt::Write>(&self, f: &mut fmt::Formatter<W>) -> fmt::Result {
        fmt::Debug::fmt(self.as_slice(), f)
    }
}

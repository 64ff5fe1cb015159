//! A vector whose capacity is part of its type.
ghost use Rattle.std.specs.Prelude.{◌≡◌, ℕ, ◌^◌, ◌<◌, ◌≤◌, [], ◌∷◌, ◌++◌, length, IsOk, IfOk, refl};
ghost use Rattle.std.specs.List.{AllZip, refill};
ghost use Rattle.std.specs.Iterator.Adapters.{IterYieldsInOrder};
ghost use Rattle.std.specs.Slice.Iter.{iter_rest};
ghost use Rattle.std.specs.Cmp.Lexicographic.{pointwise, lists_equiv, lists_per};
ghost use Rattle.iox_container.specs.Vectors.{refill_same};

use crate::vector::{PolymorphicVec, Vector};
use std::alloc::{AllocError, Global};
use std::marker::Model;
use std::{fmt, slice};

/// A vector of at most `CAPACITY` items. `new` allocates all its memory. Of the other calls, `clone`, `try_clone` and deserializing
/// allocate the memory of the vector that they make, and what its items need. `resize` and `extend_from_slice` allocate only what the
/// clones of their items need.
///
/// Contracts see it as the list of its items.
///
/// Ported from `iceoryx2_bb_container::vector::StaticVec`.
#[derive(Drop)]
pub struct StaticVec<T, const CAPACITY: usize> {
    vec: PolymorphicVec<T, Global>,
}

impl<T, const CAPACITY: usize> Model for StaticVec<T, CAPACITY> {
    ghost use Rattle.std.specs.Prelude.{◌≡◌, List};

    ghost Value = { List T };

    ghost view = { λ v. v.vec.items };

    ghost invariant = { λ v. v.vec.capacity ≡ CAPACITY };
}

impl<T, const CAPACITY: usize> StaticVec<T, CAPACITY> {
    /// An empty vector. It fails only if an allocation fails, and never at capacity 0.
    pub fn new(alloc: Global) -> Result<Self, AllocError>
        ensures empty { IfOk result (λ v. v ≡ []) }
        ensures succeeds { CAPACITY ≡ 0 → IsOk result }
    {
        Ok(StaticVec {
            vec: PolymorphicVec::new(alloc, CAPACITY)?,
        })
    }
}

impl<T: Drop, const CAPACITY: usize> Vector<T> for StaticVec<T, CAPACITY> {
    ghost items = { λ v. v };

    ghost room = { λ _. CAPACITY };

    ghost with_items = { λ v ws. refill (length v) v ws };

    fn as_slice(&self) -> &[T] {
        self.vec.as_slice()
    }

    fn as_mut_slice(&mut self) -> &mut [T] {
        self.vec.as_mut_slice()
    }

    fn capacity(&self) -> usize {
        CAPACITY
    }

    fn push_reserved(&mut self, value: T) {
        self.vec.push_reserved(value);
    }

    fn insert_reserved(&mut self, index: usize, element: T) {
        self.vec.insert_reserved(index, element);
    }

    fn remove(&mut self, index: usize) -> Option<T> {
        self.vec.remove(index)
    }

    fn pop(&mut self) -> Option<T> {
        self.vec.pop()
    }

    ghost items_of_changed = { λ v xs same. refill_same v xs same };

    ghost room_of_changed = { λ _ _. refl };
}

/// A vector with clones of the items, in their order. It fails only if an allocation or the clone of an item fails.
impl<T: Clone + Drop, const CAPACITY: usize> Clone for StaticVec<T, CAPACITY> {
    ghost is_clone = { AllZip T.is_clone };

    fn clone(&self) -> Result<Self, AllocError> {
        Ok(StaticVec {
            vec: self.vec.clone()?,
        })
    }
}

impl<T: Clone + Drop, const CAPACITY: usize> StaticVec<T, CAPACITY> {
    /// A copy with the same items. It fails only if an allocation or the clone of an item fails.
    pub fn try_clone(&self) -> Result<Self, AllocError>
        requires clones_equal { (x y : T) → T.is_clone x y → y ≡ x }
        ensures { IfOk result (λ v. v ≡ self.now) }
    {
        self.clone()
    }
}

/// Iterates over the items, in their order.
impl<'a, T: Drop, const CAPACITY: usize> IntoIterator for &'a StaticVec<T, CAPACITY> {
    type Item = &'a T;

    type IntoIter = slice::Iter<'a, T>;

    ghost into_iter_gives = { λ v iter. (iter_rest iter ≡ v.now) × (length (iter_rest iter) < 2 ^ 64) × IterYieldsInOrder T };

    fn into_iter(self) -> slice::Iter<'a, T> {
        self.as_slice().iter()
    }
}

/// Two vectors are equal if their items are equal, in order.
impl<T: PartialEq, const CAPACITY: usize> PartialEq for StaticVec<T, CAPACITY> {
    ghost eq = { λ v w. pointwise T.eq v w };

    ghost laws = { lists_per T.laws };

    fn eq(&self, other: &Self) -> bool {
        self.vec == other.vec
    }
}

impl<T: Eq, const CAPACITY: usize> Eq for StaticVec<T, CAPACITY> {
    ghost laws = { lists_equiv T.Eq.laws };
}

/// Shows the items as a list.
impl<T: Drop + fmt::Debug, const CAPACITY: usize> fmt::Debug for StaticVec<T, CAPACITY> {
    fn fmt<W: fmt::Write>(&self, f: &mut fmt::Formatter<W>) -> fmt::Result {
        fmt::Debug::fmt(self.as_slice(), f)
    }
}

//! The operations of every vector, wherever its items are stored.
ghost use Rattle.std.specs.Prelude.{◌≡◌, ℕ, ◌+◌, ◌-◌, ◌<◌, ◌≤◌, ◌↔◌, List, [], ◌∷◌, ◌++◌, length, take, insert, remove, replicate};
ghost use Rattle.std.specs.Prelude.{slice_get, All, IsTrue, IsSome, IfNone, OnOk, OnErr, Some};
ghost use Rattle.std.specs.Option.{option_to_list};
ghost use Rattle.std.specs.Borrow.{Array, Lends, sem};
ghost use Rattle.std.specs.List.{AppendsResults};
ghost use Rattle.iox_container.specs.Vectors.{AnswersClones, AnswersGrowth, AnswersInsertionAt, AppendsMade};

use crate::vector::VectorModificationError;

/// A list of at most `capacity` items. A call that drops several items drops them one by one, the last first.
///
/// Contracts see it as its `items` and its capacity, `room`, which no call changes. No call allocates memory of its own; clones of items
/// allocate theirs.
///
/// Ported from `iceoryx2_bb_container::vector::Vector`.
pub trait Vector<T: Drop> {
    ghost items: { Self → List T };

    ghost room: { Self → ℕ };

    ghost with_items: { Self → List T → Self };

    /// The items.
    fn as_slice(&self) -> &[T]
        ensures value { result.now ≡ items self.now }
        ensures fits { length (items self.now) ≤ room self.now };

    /// The items for modification in place.
    fn as_mut_slice(&mut self) -> &mut [T]
        ensures* writes_back { sem 𝓛 (Lends Self.row (Array T.row 0) self.entry result (with_items self.old)) }
        ensures value { result.now ≡ items self.old };

    /// The maximum number of items.
    fn capacity(&self) -> usize
        ensures { result ≡ room self.now };

    /// Appends an item, which must fit.
    ///
    /// It exists for implementers: `push` and every other call that grows a vector are built on it. Callers will mostly want `push`, which
    /// checks its precondition.
    fn push_reserved(&mut self, value: T)
        requires { length (items self.old) < room self.old }
        ensures pushed { items self.new ≡ items self.old ++ value ∷ [] }
        ensures capacity { room self.new ≡ room self.old };

    /// Inserts an item before the item at `index`, or at the end. It must fit.
    ///
    /// It exists for implementers: `insert` is built on it, and checks its preconditions.
    fn insert_reserved(&mut self, index: usize, element: T)
        requires in_bounds { index ≤ length (items self.old) }
        requires fits { length (items self.old) < room self.old }
        ensures inserted { items self.new ≡ insert (items self.old) index element }
        ensures capacity { room self.new ≡ room self.old };

    /// Removes the item at `index` and returns it, if there is one.
    fn remove(&mut self, index: usize) -> Option<T>
        ensures value { result ≡ slice_get (items self.old) index }
        ensures rest { items self.new ≡ remove (items self.old) index }
        ensures none { IfNone result (self.new ≡ self.old) }
        ensures capacity { room self.new ≡ room self.old };

    /// Removes the last item and returns it, if there is one.
    fn pop(&mut self) -> Option<T>
        ensures last { items self.old ≡ items self.new ++ option_to_list result }
        ensures variant { IsSome result ↔ (0 < length (items self.old)) }
        ensures none { IfNone result (self.new ≡ self.old) }
        ensures capacity { room self.new ≡ room self.old };

    ghost items_of_changed: { (v : Self) (xs : List T) → length xs ≡ length (items v) → items (with_items v xs) ≡ xs };

    ghost room_of_changed: { (v : Self) (xs : List T) → room (with_items v xs) ≡ room v };

    /// How many items the vector holds.
    final fn len(&self) -> usize
        ensures value { result ≡ length (items self.now) }
        ensures fits { result ≤ room self.now }
    {
        self.as_slice().len()
    }

    /// Whether the vector holds no item.
    final fn is_empty(&self) -> bool
        ensures { IsTrue result ↔ (items self.now ≡ []) }
    {
        self.as_slice().is_empty()
    }

    /// Whether no further item fits.
    final fn is_full(&self) -> bool
        ensures full { IsTrue result ↔ (length (items self.now) ≡ room self.now) }
        ensures fits { length (items self.now) ≤ room self.now }
    {
        self.len() == self.capacity()
    }

    /// Appends an item. Refused with `InsertWouldExceedCapacity` if the vector is full; the item is then dropped.
    final fn push(&mut self, value: T) -> Result<(), VectorModificationError>
        ensures answer { AnswersGrowth (room self.old) (length (items self.old) + 1) result }
        ensures ok { OnOk result (items self.new ≡ items self.old ++ value ∷ []) }
        ensures err { OnErr result (self.new ≡ self.old) }
        ensures capacity { room self.new ≡ room self.old }
    {
        if self.is_full() {
            return Err(VectorModificationError::InsertWouldExceedCapacity);
        }
        self.push_reserved(value);
        Ok(())
    }

    /// Inserts an item before the item at `index`, or at the end. Refused with `InsertWouldExceedCapacity` if the vector is full, else with
    /// `OutOfBounds` if `index` lies past the end. A refused item is dropped.
    final fn insert(&mut self, index: usize, element: T) -> Result<(), VectorModificationError>
        ensures answer { AnswersInsertionAt (room self.old) (length (items self.old)) index result }
        ensures ok { OnOk result (items self.new ≡ insert (items self.old) index element) }
        ensures err { OnErr result (self.new ≡ self.old) }
        ensures capacity { room self.new ≡ room self.old }
    {
        if self.is_full() {
            return Err(VectorModificationError::InsertWouldExceedCapacity);
        }
        if self.len() < index {
            return Err(VectorModificationError::OutOfBounds);
        }
        self.insert_reserved(index, element);
        Ok(())
    }

    /// Drops the items from `len` on, the last first.
    final fn truncate(&mut self, len: usize)
        ensures kept { items self.new ≡ take len (items self.old) }
        ensures capacity { room self.new ≡ room self.old }
    {
        while self.len() > len {
            let _last = self.pop();
        }
    }

    /// Drops every item, the last first.
    final fn clear(&mut self)
        ensures empty { items self.new ≡ [] }
        ensures capacity { room self.new ≡ room self.old }
    {
        self.truncate(0);
    }

    /// Cuts the vector to `new_len` items, or fills it up to that number with clones of `value`. Refused with `InsertWouldExceedCapacity`
    /// if `new_len` exceeds the capacity, else with `OutOfMemory` if a clone fails because memory ran out. A refused call leaves the items
    /// as they were.
    final fn resize(&mut self, new_len: usize, value: T) -> Result<(), VectorModificationError>
    where
        T: Clone,
        requires clones_equal { (x : T) → T.is_clone value x → x ≡ value }
        ensures answer { AnswersClones (room self.old) new_len result }
        ensures cloned { (length (items self.old) < new_len → T.is_infallible value) → AnswersGrowth (room self.old) new_len result }
        ensures ok { OnOk result (items self.new ≡ take new_len (items self.old) ++ replicate (new_len - length (items self.old)) value) }
        ensures err { OnErr result (items self.new ≡ items self.old) }
        ensures too_long { room self.old < new_len → self.new ≡ self.old }
        ensures capacity { room self.new ≡ room self.old }
    {
        if self.capacity() < new_len {
            return Err(VectorModificationError::InsertWouldExceedCapacity);
        }
        self.truncate(new_len);
        let kept = self.len();
        while self.len() < new_len {
            match value.clone() {
                Ok(item) => self.push_reserved(item),
                Err(_) => {
                    self.truncate(kept);
                    return Err(VectorModificationError::OutOfMemory);
                }
            }
        }
        Ok(())
    }

    /// Cuts the vector to `new_len` items, or fills it up to that number with the results of `make`, which is called once for each new
    /// item. Refused with `InsertWouldExceedCapacity` if `new_len` exceeds the capacity; `make` is then not called.
    final fn resize_with<F: FnMut() -> T>(
        &mut self,
        new_len: usize,
        make: &mut F,
    ) -> Result<(), VectorModificationError>
        requires { F.IsAlwaysCallable make.old }
        ensures answer { AnswersGrowth (room self.old) new_len result }
        ensures made { OnOk result (AppendsMade F.step make.old (take new_len (items self.old)) (items self.new) make.new) }
        ensures ok { OnOk result (AppendsResults F.step (take new_len (items self.old)) (items self.new) make.old) }
        ensures len { OnOk result (length (items self.new) ≡ new_len) }
        ensures err { OnErr result (self.new ≡ self.old) }
        ensures not_called { OnErr result (make.new ≡ make.old) }
        ensures callable { F.IsAlwaysCallable make.new }
        ensures capacity { room self.new ≡ room self.old }
    {
        if new_len > self.capacity() {
            return Err(VectorModificationError::InsertWouldExceedCapacity);
        }
        self.truncate(new_len);
        while self.len() < new_len {
            self.push_reserved(make());
        }
        Ok(())
    }

    /// Appends clones of the items of `other`, in their order. Refused with `InsertWouldExceedCapacity` if they don't all fit, else with
    /// `OutOfMemory` if a clone fails because memory ran out. A refused call leaves the items as they were.
    final fn extend_from_slice(&mut self, other: &[T]) -> Result<(), VectorModificationError>
    where
        T: Clone,
        requires clones_equal { All (λ x. (y : T) → T.is_clone x y → y ≡ x) other.now }
        ensures answer { AnswersClones (room self.old) (length (items self.old) + length other.now) result }
        ensures cloned { All T.is_infallible other.now → AnswersGrowth (room self.old) (length (items self.old) + length other.now) result }
        ensures ok { OnOk result (items self.new ≡ items self.old ++ other.now) }
        ensures err { OnErr result (items self.new ≡ items self.old) }
        ensures too_long { room self.old < length (items self.old) + length other.now → self.new ≡ self.old }
        ensures capacity { room self.new ≡ room self.old }
    {
        let kept = self.len();
        if other.len() > self.capacity() - kept {
            return Err(VectorModificationError::InsertWouldExceedCapacity);
        }
        for item in other {
            match item.clone() {
                Ok(item) => self.push_reserved(item),
                Err(_) => {
                    self.truncate(kept);
                    return Err(VectorModificationError::OutOfMemory);
                }
            }
        }
        Ok(())
    }
}

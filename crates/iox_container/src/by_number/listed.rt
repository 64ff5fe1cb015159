//! Values by number: a list by rising number, in which a number is found at once.
ghost use Rattle.std.specs.Prelude.{◌≡◌, ℕ, length, option_copied, is_some, true, IfOk, IfSome, IfNone, IsOk, OnOk, OnErr, [], None, Some};
ghost use Rattle.std.specs.Borrow.{sem};
ghost use Rattle.std.specs.BTreeMap.{insert_entry, is_at};
ghost use Rattle.std.specs.List.Sorted.{IsStrictlySortedBy};
ghost use Rattle.std.specs.Map.{keys_of, lookup, remove_entry, set_value};
ghost use Rattle.std.specs.Map.Iter.{ShowsInOrder, deref_pair};
ghost use Rattle.std.specs.Option.{option_copied_mut};
ghost use Rattle.std.specs.Ordering.{nat_cmp};
ghost use Rattle.iox_container.specs.ByNumber.{HasValue};

use crate::by_number::entries::{entry_of, make_room, near, put_in, take_out};
use crate::by_number::iter::Iter;
use crate::by_number::roomy::RoomyByNumber;
use std::alloc::{AllocError, Global};
use std::marker::Model;
use std::mem;

/// Values by number, at most one for each number.
///
/// Contracts see the values with their numbers, by rising number.
///
/// A number is found in one step while no number is missing between the first one and it, or between it and the last one, else by a binary
/// search; a value that comes with a number above all others is put at the end without one. A removed value leaves its entry behind, so
/// that no entry moves. Such entries go once a value comes and the list is full.
///
/// Not in `iceoryx2`.
#[derive(Drop)]
pub struct ByNumber<X> {
    // By rising number. Each value has a box of its own, so that few bytes move when a value comes.
    pub(crate) entries: Vec<(u64, Option<Box<X>>)>,
    // How many entries have a value.
    pub(crate) live: usize,
}

impl<X> Model for ByNumber<X> {
    ghost use Rattle.std.specs.Prelude.{◌≡◌, ℕ, List, length};
    ghost use Rattle.std.specs.List.Sorted.{IsStrictlySortedBy};
    ghost use Rattle.std.specs.Map.{keys_of};
    ghost use Rattle.std.specs.Ordering.{nat_cmp};
    ghost use Rattle.iox_container.specs.ByNumber.{values_in};

    ghost Value = { List (ℕ × X) };

    ghost view = { λ list. values_in list.entries.items };

    ghost invariant = { λ list. IsStrictlySortedBy nat_cmp (keys_of list.entries.items)
        × (list.live ≡ length (values_in list.entries.items)) };
}

impl<X: Drop> ByNumber<X> {
    ghost use Rattle.iox_container.specs.ByNumberLends.{LendsStanding, LendsUnder};

    /// An empty list. It takes no memory.
    pub fn new(alloc: Global) -> Self
        ensures { result ≡ [] }
    {
        ByNumber {
            entries: Vec::new(alloc),
            live: 0,
        }
    }

    /// How many values there are.
    pub fn len(&self) -> usize
        ensures { result ≡ length self.now }
    {
        self.live
    }

    /// The place at which `at` and `at_mut` find a number at once, if it has a value.
    pub fn place(&self, number: u64) -> Option<usize>
        ensures some { IfSome result (λ place. HasValue number self.now) }
        ensures none { IfNone result (lookup (is_at (nat_cmp number)) self.now ≡ None) }
    {
        let place = entry_of(&self.entries, number)?;
        if self.entries[place].1.is_some() {
            Some(place)
        } else {
            None
        }
    }

    /// The value of a number. It is found at once if this is the place that `place` answered and the list hasn't moved it since.
    pub fn at(&self, number: u64, place: usize) -> &X
        requires { HasValue number self.now }
        ensures { lookup (is_at (nat_cmp number)) self.now ≡ Some result.now }
    {
        match &self.entries[near(&self.entries, number, place)].1 {
            Some(boxed) => boxed,
            None => unreachable!(),
        }
    }

    /// The value of a number, to be changed in its place. It is found as by `at`.
    pub fn at_mut(&mut self, number: u64, place: usize) -> &mut X
        requires { HasValue number self.old }
        ensures* writes_back { sem 𝓛 (LendsStanding X.row self.entry number result) }
        ensures value { lookup (is_at (nat_cmp number)) self.old ≡ Some result.now }
    {
        let there = near(&self.entries, number, place);
        &mut **self.entries[there].1.as_mut().unwrap()
    }

    /// The value of a number, if it has one.
    pub fn get(&self, number: u64) -> Option<&X>
        ensures { option_copied result ≡ lookup (is_at (nat_cmp number)) self.now }
    {
        let place = entry_of(&self.entries, number)?;
        match &self.entries[place].1 {
            Some(boxed) => Some(boxed),
            None => None,
        }
    }

    /// The value of a number, if it has one, to be changed in its place.
    pub fn get_mut(&mut self, number: u64) -> Option<&mut X>
        ensures* writes_back { sem 𝓛 (LendsUnder X.row self.entry number result) }
        ensures value { option_copied_mut result ≡ lookup (is_at (nat_cmp number)) self.old }
    {
        let place = number.wrapping_sub(self.entries.first()?.0) as usize;
        if self.has_at(number, place) {
            return Some(self.at_mut(number, place));
        }
        self.get_mut_behind(number)
    }

    // Whether the number has a value, and this is its place.
    fn has_at(&self, number: u64, place: usize) -> bool
        ensures { result ≡ true → HasValue number self.now }
    {
        if place >= self.entries.len() {
            return false;
        }
        let entry = &self.entries[place];
        entry.0 == number && entry.1.is_some()
    }

    // As `get_mut`, where the place of the number isn't its distance from the first number.
    #[inline(never)]
    fn get_mut_behind(&mut self, number: u64) -> Option<&mut X>
        ensures* writes_back { sem 𝓛 (LendsUnder X.row self.entry number result) }
        ensures value { option_copied_mut result ≡ lookup (is_at (nat_cmp number)) self.old }
    {
        match self.place(number) {
            Some(place) => Some(self.at_mut(number, place)),
            None => None,
        }
    }

    /// Replaces the value of a number, if it has one. It takes no memory.
    pub fn replace(&mut self, number: u64, value: X)
        ensures { self.new ≡ set_value (is_at (nat_cmp number)) self.old value }
    {
        if let Some(there) = self.get_mut(number) {
            *there = value;
        }
    }

    /// The numbers with their values, by rising number.
    pub fn iter(&self) -> Iter<'_, X>
        ensures rest { result ≡ self.now }
        ensures runs { ShowsInOrder (deref_pair {K = ℕ} {X = X}) }
    {
        Iter {
            entries: &self.entries,
        }
    }

    /// Gives a number a value, and answers the one that it had. It takes no memory if the number had a value. It fails only if an
    /// allocation fails, and then nothing has changed.
    pub fn insert(&mut self, number: u64, value: X) -> Result<Option<X>, AllocError>
        ensures before { IfOk result (λ before. before ≡ lookup (is_at (nat_cmp number)) self.old) }
        ensures ok { OnOk result (self.new ≡ insert_entry nat_cmp self.old number value) }
        ensures there { OnOk result (lookup (is_at (nat_cmp number)) self.new ≡ Some value) }
        ensures err { OnErr result (self.new ≡ self.old) }
        ensures rises { IsStrictlySortedBy nat_cmp (keys_of self.old) }
        ensures succeeds { is_some (lookup (is_at (nat_cmp number)) self.old) ≡ true → IsOk result }
    {
        // So the invariant is known here.
        let _ = &self.entries;
        if let Some(there) = self.get_mut(number) {
            return Ok(Some(mem::replace(there, value)));
        }
        let alloc = *self.entries.allocator();
        let boxed = Box::new(alloc, value)?;
        make_room(&mut self.entries)?;
        put_in(&mut self.entries, number, boxed);
        self.live += 1;
        Ok(None)
    }

    /// The values, with capacity for one more number; this list is empty until they are put back. It takes no memory if there is capacity.
    /// It fails only if an allocation fails, and then nothing has changed.
    pub fn lend(&mut self, alloc: Global) -> Result<RoomyByNumber<X>, AllocError>
        ensures ok { IfOk result (λ lent. lent ≡ self.old) }
        ensures left { OnOk result (self.new ≡ []) }
        ensures err { OnErr result (self.new ≡ self.old) }
    {
        make_room(&mut self.entries)?;
        Ok(RoomyByNumber {
            entries: mem::replace(&mut self.entries, Vec::new(alloc)),
            live: mem::replace(&mut self.live, 0),
        })
    }

    /// Removes the value of a number; nothing changes if it has none. The other numbers keep their values.
    pub fn remove(&mut self, number: u64)
        ensures new { self.new ≡ remove_entry (is_at (nat_cmp number)) self.old }
        ensures gone { lookup (is_at (nat_cmp number)) self.new ≡ None }
        ensures others { (other : ℕ) → (number ≡ other → ⊥)
            → lookup (is_at (nat_cmp other)) self.new ≡ lookup (is_at (nat_cmp other)) self.old }
    {
        if let Some(place) = self.place(number) {
            let found = near(&self.entries, number, place);
            take_out(&mut self.entries, number, found);
            self.live -= 1;
        }
    }
}

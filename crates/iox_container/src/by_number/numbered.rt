//! The table of values under numbers.
ghost use Rattle.std.specs.Prelude.{◌≡◌, ◌+◌, ◌<◌, ◌≤◌, ◌^◌, [], length, is_some, option_copied, IsOk, IsSome, OnOk, OnErr, Some};
ghost use Rattle.std.specs.Prelude.{if◌then◌else◌};
ghost use Rattle.std.specs.Borrow.{sem};
ghost use Rattle.std.specs.Option.{option_copied_mut};
ghost use Rattle.iox_container.specs.NumberTable.{Rises, value_at, inserted, removed, with_room};

use crate::by_number::aged::{place_of, take_of, value_of};
use crate::by_number::ring::{make_place, take_in, value_in};
use std::alloc::{AllocError, Global};
use std::collections::VecDeque;
use std::marker::Model;

// How many places the ring has for each value of the capacity. The more places, the fewer values have to be moved out of the ring.
const PLACES_FOR_EACH: usize = 4;

/// Values under numbers that are counted from 1, each of which is given out once.
///
/// Contracts see its entries (numbers with their values, in rising order), the next number, and `room`, the maximum number of values. The
/// cost of a call and the memory grow with `room` alone: a number whose value was removed costs nothing.
///
/// Not in `iceoryx2`.
#[derive(Drop)]
pub struct Numbered<V> {
    // The values below `first`, by rising number.
    aged: VecDeque<(u64, V)>,
    first: u64,
    // The values from `first` on, each in the place of its number.
    places: VecDeque<Option<V>>,
    room: usize,
    live: usize,
}

impl<V> Model for Numbered<V> {
    ghost use Rattle.std.specs.Prelude.{◌≡◌, ◌+◌, ◌<◌, ◌≤◌, ◌^◌, ◌++◌, length};
    ghost use Rattle.std.specs.VecDeque.{deque_capacity};
    ghost use Rattle.iox_container.specs.NumberTable.{NumberTable, Rises};
    ghost use Rattle.iox_container.specs.ByNumberPlaces.{present};

    ghost Value = { NumberTable V };

    ghost view = { λ t. record
        { entries = t.aged.items ++ present t.first t.places.items; next = t.first + length t.places.items; room = t.room } };

    ghost invariant = { λ t. Rises 1 t.aged.items t.first
        × (t.first + length t.places.items < 2 ^ 64)
        × (t.room ≤ deque_capacity t.aged)
        × (0 < t.room → 0 < deque_capacity t.places)
        × (t.live ≡ length (t.aged.items ++ present t.first t.places.items))
        × (t.live ≤ t.room) };
}

impl<V> Numbered<V> {
    ghost use Rattle.iox_container.specs.NumberedLends.{LendsAt, LendsHeld};

    /// An empty table with capacity 0, whose next number is 1. It doesn't allocate.
    pub fn new(alloc: Global) -> Self
        ensures entries { result.entries ≡ [] }
        ensures next { result.next ≡ 1 }
        ensures room { result.room ≡ 0 }
    {
        Numbered {
            aged: VecDeque::new(alloc),
            first: 1,
            places: VecDeque::new(alloc),
            room: 0,
            live: 0,
        }
    }

    /// Raises the capacity to `room` values in all; if the table has this capacity already, nothing happens. It fails only if an
    /// allocation fails, and then nothing has changed.
    pub fn reserve(&mut self, room: usize) -> Result<(), AllocError>
        ensures ok { OnOk result (self.new ≡ with_room self.old room) }
        ensures err { OnErr result (self.new ≡ self.old) }
        ensures enough { room ≤ self.old.room → IsOk result }
    {
        if room <= self.room {
            return Ok(());
        }
        let places = room.checked_mul(PLACES_FOR_EACH).ok_or(AllocError)?;
        self.aged.reserve(room.saturating_sub(self.aged.len()))?;
        self.places
            .reserve(places.saturating_sub(self.places.len()))?;
        self.room = room;
        Ok(())
    }

    /// The maximum number of values, which `reserve` raises.
    pub fn room(&self) -> usize
        ensures { result ≡ self.now.room }
    {
        self.room
    }

    /// How many values there are.
    pub fn len(&self) -> usize
        ensures value { result ≡ length self.now.entries }
        ensures fits { result ≤ self.now.room }
    {
        self.live
    }

    /// The number that the next value will get.
    pub fn next_number(&self) -> u64
        ensures value { result ≡ self.now.next }
        ensures rises { Rises 1 self.now.entries self.now.next }
    {
        self.first + self.places.len() as u64
    }

    /// Puts a value under the next number, and returns this number. It doesn't allocate.
    pub fn insert_next(&mut self, value: V) -> u64
        requires room { length self.old.entries < self.old.room }
        requires number { self.old.next + 1 < 2 ^ 64 }
        ensures number { result ≡ self.old.next }
        ensures table { self.new ≡ inserted self.old value }
        ensures next { self.new.next ≡ self.old.next + 1 }
        ensures len { length self.new.entries ≡ length self.old.entries + 1 }
        ensures room { self.new.room ≡ self.old.room }
    {
        make_place(&mut self.aged, &mut self.first, &mut self.places);
        let number = self.first + self.places.len() as u64;
        self.places.push_back_reserved(Some(value));
        self.live += 1;
        number
    }

    /// The value under a number, if there is one.
    pub fn get(&self, number: u64) -> Option<&V>
        ensures { option_copied result ≡ value_at self.now number }
    {
        if number < self.first {
            value_of(&self.aged, number)
        } else {
            value_in(self.first, &self.places, number)
        }
    }

    /// Whether there is a value under a number.
    pub fn contains(&self, number: u64) -> bool
        ensures { result ≡ is_some (value_at self.now number) }
    {
        self.get(number).is_some()
    }

    /// The value under a number for modification in place, if there is one.
    pub fn get_mut(&mut self, number: u64) -> Option<&mut V>
        ensures* writes_back { sem 𝓛 (LendsAt V.row self.entry number result) }
        ensures value { option_copied_mut result ≡ value_at self.old number }
    {
        if self.contains(number) {
            Some(self.value_mut(number))
        } else {
            None
        }
    }

    // The value under a number that has one, for modification in place.
    fn value_mut(&mut self, number: u64) -> &mut V
        requires { IsSome (value_at self.old number) }
        ensures* writes_back { sem 𝓛 (LendsHeld V.row self.entry number result) }
        ensures value { value_at self.old number ≡ Some result.now }
    {
        if number < self.first {
            let Some(place) = place_of(&self.aged, number) else {
                unreachable!()
            };
            &mut self.aged[place].1
        } else {
            self.places[(number - self.first) as usize]
                .as_mut()
                .unwrap()
        }
    }

    /// Takes the value under a number out, if there is one. No other value ever gets this number.
    pub fn remove(&mut self, number: u64) -> Option<V>
        ensures value { result ≡ value_at self.old number }
        ensures table { self.new ≡ removed self.old number }
        ensures next { self.new.next ≡ self.old.next }
        ensures len { length self.new.entries + (if is_some result then 1 else 0) ≡ length self.old.entries }
        ensures room { self.new.room ≡ self.old.room }
    {
        if number < self.first {
            let value = take_of(&mut self.aged, number);
            self.live -= usize::from(value.is_some());
            value
        } else {
            let value = take_in(self.first, &mut self.places, number);
            self.live -= usize::from(value.is_some());
            value
        }
    }
}

//! A count for each number, in room that is made before.
ghost use Rattle.std.specs.Prelude.{◌≡◌, ◌<◌, ◌≤◌, ◌^◌, length, OnOk, []};
ghost use Rattle.std.specs.List.Sorted.{IsBinarySearchResult, IsSearchInRange};
ghost use Rattle.std.specs.Ordering.{nat_cmp};
ghost use Rattle.std.specs.Vec.{vec_capacity};
ghost use Rattle.iox_domain_ports.specs.Tallies.{count_under, with_count, IsTally};

use std::alloc::{AllocError, Global};
use std::marker::Model;

/// Counts by number. A number whose count is 0 takes no room, and only a call that makes room may ask for memory.
///
/// Contracts see the counts, and for how many numbers there is room.
#[derive(Drop)]
pub struct Tallies {
    // By rising number; no count is 0.
    items: Vec<(u64, u128)>,
}

impl Model for Tallies {
    ghost use Rattle.std.specs.Vec.{vec_capacity};
    ghost use Rattle.iox_domain_ports.specs.Tallies.{TalliesState, IsTally};

    ghost Value = { TalliesState };

    ghost view = { λ t. record { counts = t.items.items; room = vec_capacity t.items } };

    ghost invariant = { λ t. IsTally t.items.items };
}

impl Tallies {
    /// No counts. The call allocates nothing.
    pub fn new(alloc: Global) -> Self
        ensures { result.counts ≡ [] }
    {
        Tallies {
            items: Vec::new(alloc),
        }
    }

    /// The count of a number; 0 if it has none.
    pub fn get(&self, number: u64) -> u128
        ensures value { result ≡ count_under number self.now.counts }
        ensures sound { IsTally self.now.counts }
        ensures fits { self.now.room < 2 ^ 64 }
    {
        let _room = self.items.capacity();
        match place_of(self.items.as_slice(), number) {
            Ok(place) => self.items[place].1,
            Err(_) => 0,
        }
    }

    /// Makes room for more numbers than `count`. The call fails only if an allocation fails; the counts stay in any case.
    pub fn make_room(&mut self, count: usize) -> Result<(), AllocError>
        ensures counts { self.new.counts ≡ self.old.counts }
        ensures room { OnOk result (count < self.new.room) }
        ensures grows { self.old.room ≤ self.new.room }
    {
        if count < self.items.capacity() {
            return Ok(());
        }
        let Some(least) = count.checked_add(1) else {
            return Err(AllocError);
        };
        let most = least.saturating_add(count / 2);
        self.items.reserve(most.saturating_sub(self.items.len()))
    }

    /// Sets the count of a number. There is room for it, if it had none; so the call asks for no memory.
    pub fn put(&mut self, number: u64, count: u128)
        requires { 0 < count → count_under number self.old.counts ≡ 0 → length self.old.counts < self.old.room }
        ensures value { self.new ≡ record self.old { counts = with_count number count self.old.counts } }
        ensures sound { IsTally self.new.counts }
    {
        put_in(&mut self.items, number, count);
    }
}

// The place of a number, or the place at which it would be inserted.
fn place_of(items: &[(u64, u128)], number: u64) -> Result<usize, usize>
    ensures bound { IsSearchInRange result (length items.now) }
    ensures position { IsBinarySearchResult (λ item. nat_cmp item.0 number) items.now result }
{
    items.binary_search_by_key(&number, |item| item.0)
}

// Sets the count of a number. There is capacity for it, if it had none.
fn put_in(items: &mut Vec<(u64, u128)>, number: u64, count: u128)
    requires tally { IsTally items.old.items }
    requires room { 0 < count → count_under number items.old.items ≡ 0 → length items.old.items < vec_capacity items.old }
    ensures counts { items.new.items ≡ with_count number count items.old.items }
    ensures tally { IsTally items.new.items }
    ensures capacity { vec_capacity items.new ≡ vec_capacity items.old }
{
    match place_of(items.as_slice(), number) {
        Ok(place) => {
            if count == 0 {
                items.remove(place);
            } else {
                items[place] = (number, count);
            }
        }
        Err(place) => {
            if count != 0 {
                // There is capacity for it.
                let _ = items.insert(place, (number, count));
            }
        }
    }
}

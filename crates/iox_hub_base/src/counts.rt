//! How many factories of a service are open, by the service's number.
ghost use Rattle.std.specs.Prelude.{◌≡◌, ◌-◌, length, false, IfOk, OnErr, []};
ghost use Rattle.std.specs.List.Sorted.{IsBinarySearchResult, IsSearchInRange};
ghost use Rattle.std.specs.Ordering.{nat_cmp};
ghost use Rattle.iox_delivery_factories.specs.Domain.Kept.{kept, forgotten};
ghost use Rattle.iox_hub_base.specs.Closing.{is_last};
ghost use Rattle.iox_hub_base.specs.Hubs.{factories_of, with_factory};

use std::alloc::{AllocError, Global};
use std::marker::Model;
use std::mem;

/// The number of open factories of each service that has one.
///
/// Contracts see each count with the service's number, by rising number. Not in `iceoryx2`.
#[derive(Drop)]
pub struct Counts {
    entries: Vec<(u64, u64)>,
}

impl Model for Counts {
    ghost use Rattle.std.specs.Prelude.{ℕ, List};
    ghost use Rattle.std.specs.List.Sorted.{IsStrictlySortedBy};
    ghost use Rattle.std.specs.Map.{keys_of};
    ghost use Rattle.std.specs.Ordering.{nat_cmp};

    ghost Value = { List (ℕ × ℕ) };

    ghost view = { λ counts. counts.entries.items };

    ghost invariant = { λ counts. IsStrictlySortedBy nat_cmp (keys_of counts.entries.items) };
}

impl Counts {
    /// Counts without entries: no service has a factory. It takes no memory.
    pub(crate) fn new(alloc: Global) -> Self
        ensures { result ≡ [] }
    {
        Counts {
            entries: Vec::new(alloc),
        }
    }

    /// How many factories of a service are open.
    pub(crate) fn of(&self, number: u64) -> u64
        ensures { result ≡ factories_of number self.now }
    {
        match search_of(&self.entries, number) {
            Ok(place) => self.entries[place].1,
            Err(_) => 0,
        }
    }

    /// The counts, with capacity for one more service; there are none here until they are put back. It takes no memory if there is
    /// capacity. It fails only if an allocation fails, and then nothing has changed.
    pub(crate) fn lend(&mut self, alloc: Global) -> Result<RoomyCounts, AllocError>
        ensures ok { IfOk result (λ lent. lent ≡ self.old) }
        ensures err { OnErr result (self.new ≡ self.old) }
    {
        self.entries.reserve(1)?;
        Ok(RoomyCounts {
            entries: mem::replace(&mut self.entries, Vec::new(alloc)),
        })
    }

    /// Counts one factory fewer of a service that has more than one.
    pub(crate) fn one_less(&mut self, number: u64)
        requires { is_last number self.old ≡ false }
        ensures { self.new ≡ kept number (factories_of number self.old - 1) self.old }
    {
        match search_of(&self.entries, number) {
            Ok(place) => self.entries[place].1 = self.entries[place].1.saturating_sub(1),
            Err(_) => {}
        }
    }

    /// Removes the count of a service, which has no factory any longer.
    pub(crate) fn forget(&mut self, number: u64)
        ensures { self.new ≡ forgotten number self.old }
    {
        match search_of(&self.entries, number) {
            Ok(place) => {
                let _ = self.entries.remove(place);
            }
            Err(_) => {}
        }
    }
}

// The place of a number, or the place at which it would be inserted.
fn search_of(entries: &[(u64, u64)], number: u64) -> Result<usize, usize>
    ensures bound { IsSearchInRange result (length entries.now) }
    ensures position { IsBinarySearchResult (λ entry. nat_cmp entry.0 number) entries.now result }
{
    entries.binary_search_by_key(&number, |entry| entry.0)
}

/// Counts with capacity for one more service.
///
/// Contracts see them as those of `Counts`.
#[derive(Drop)]
pub(crate) struct RoomyCounts {
    entries: Vec<(u64, u64)>,
}

impl Model for RoomyCounts {
    ghost use Rattle.std.specs.Prelude.{ℕ, List, ◌<◌};
    ghost use Rattle.std.specs.List.Sorted.{IsStrictlySortedBy};
    ghost use Rattle.std.specs.Map.{keys_of};
    ghost use Rattle.std.specs.Ordering.{nat_cmp};
    ghost use Rattle.std.specs.Vec.{vec_len, vec_capacity};

    ghost Value = { List (ℕ × ℕ) };

    ghost view = { λ counts. counts.entries.items };

    ghost invariant = { λ counts. IsStrictlySortedBy nat_cmp (keys_of counts.entries.items)
        × (vec_len counts.entries < vec_capacity counts.entries) };
}

impl RoomyCounts {
    /// The counts with one factory more of this service. It takes no memory, and can't fail.
    pub(crate) fn one_more(self, number: u64) -> Counts
        ensures { result ≡ with_factory number self }
    {
        let mut entries = self.entries;
        match search_of(&entries, number) {
            Ok(place) => {
                entries[place].1 = entries[place].1.saturating_add(1);
                Counts { entries }
            }
            Err(place) => {
                // There is capacity for it.
                let _ = entries.insert(place, (number, 1));
                Counts { entries }
            }
        }
    }

    /// The counts, without any change.
    pub(crate) fn into_counts(self) -> Counts
        ensures { result ≡ self }
    {
        Counts {
            entries: self.entries,
        }
    }
}

//! The places of a segment's slots: each is free or held.
ghost use Rattle.std.specs.Prelude.{◌≡◌, ℕ, ◌+◌, ◌<◌, ◌||◌, [], length, get_or, nat_lt, true, false};
ghost use Rattle.iox_container.specs.Unique.{is_held};

use iox_container::{ReleaseMode, UniqueIndexSet};

// Takes every free place, so that all places are held.
pub(crate) fn hold_all(places: &mut UniqueIndexSet)
    requires { places.old.locked ≡ false }
    ensures { places.new ≡ record places.old { free = [] } }
{
    while places.acquire_raw_index().is_ok() {}
}

// Frees the places whose slots have no use, if all places are held.
pub(crate) fn settle(places: &mut UniqueIndexSet, all_held: bool, references: &[u64], first: usize)
    requires unlocked { places.old.locked ≡ false }
    requires marks { (index : ℕ) → index < places.old.capacity
        → is_held index places.old ≡ (all_held || nat_lt 0 (get_or references.now (first + index) 0)) }
    requires slots { first + places.old.capacity ≡ length references.now }
    ensures capacity { places.new.capacity ≡ places.old.capacity }
    ensures unlocked { places.new.locked ≡ false }
    ensures held { (index : ℕ) → index < places.old.capacity
        → is_held index places.new ≡ nat_lt 0 (get_or references.now (first + index) 0) }
{
    if all_held {
        free_unused(places, references, first);
    }
}

// Frees the places whose slots have no use; all places must be held. The lowest of them is handed out next.
fn free_unused(places: &mut UniqueIndexSet, references: &[u64], first: usize)
    requires unlocked { places.old.locked ≡ false }
    requires all { (index : ℕ) → index < places.old.capacity → is_held index places.old ≡ true }
    requires slots { first + places.old.capacity ≡ length references.now }
    ensures capacity { places.new.capacity ≡ places.old.capacity }
    ensures unlocked { places.new.locked ≡ false }
    ensures held { (index : ℕ) → index < places.old.capacity
        → is_held index places.new ≡ nat_lt 0 (get_or references.now (first + index) 0) }
{
    let size = places.capacity();
    for count in 0..size {
        let index = size - 1 - count;
        if references[first + index] == 0 {
            let _state = places.release_raw_index(index, ReleaseMode::Default);
        }
    }
}

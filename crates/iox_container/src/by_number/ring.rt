//! The ring of the newest numbers: a place for each number from the first on, with its value or none.
ghost use Rattle.std.specs.Prelude.{◌≡◌, ◌+◌, ◌<◌, ◌≤◌, ◌^◌, ◌++◌, length, nat_eq, option_copied};
ghost use Rattle.std.specs.Map.{lookup, remove_entry};
ghost use Rattle.std.specs.VecDeque.{deque_capacity};
ghost use Rattle.iox_container.specs.NumberTable.{Rises};
ghost use Rattle.iox_container.specs.ByNumberPlaces.{present};

use std::collections::VecDeque;

/// The value under a number that is at or above `first`, if there is one.
pub(crate) fn value_in<V>(first: u64, places: &VecDeque<Option<V>>, number: u64) -> Option<&V>
    requires { first ≤ number }
    ensures { option_copied result ≡ lookup (nat_eq number) (present first places.now.items) }
{
    let place = (number - first) as usize;
    if place < places.len() {
        places[place].as_ref()
    } else {
        None
    }
}

/// Takes the value under a number that is at or above `first`, if there is one.
pub(crate) fn take_in<V>(first: u64, places: &mut VecDeque<Option<V>>, number: u64) -> Option<V>
    requires { first ≤ number }
    ensures value { result ≡ lookup (nat_eq number) (present first places.old.items) }
    ensures after { present first places.new.items ≡ remove_entry (nat_eq number) (present first places.old.items) }
    ensures len { length places.new.items ≡ length places.old.items }
    ensures capacity { deque_capacity places.new ≡ deque_capacity places.old }
{
    let place = (number - first) as usize;
    if place < places.len() {
        places[place].take()
    } else {
        None
    }
}

/// Frees a place at the end of the ring. If the ring is full, its first place is removed, and a value in that place moves to the list
/// `aged`.
pub(crate) fn make_place<V>(
    aged: &mut VecDeque<(u64, V)>,
    first: &mut u64,
    places: &mut VecDeque<Option<V>>,
)
    requires rises { Rises 1 aged.old.items first.old }
    requires some { 0 < deque_capacity places.old }
    requires room { length aged.old.items < deque_capacity aged.old }
    requires number { first.old + length places.old.items < 2 ^ 64 }
    ensures rises { Rises 1 aged.new.items first.new }
    ensures entries { aged.new.items ++ present first.new places.new.items ≡ aged.old.items ++ present first.old places.old.items }
    ensures next { first.new + length places.new.items ≡ first.old + length places.old.items }
    ensures free { length places.new.items < deque_capacity places.new }
    ensures aged_capacity { deque_capacity aged.new ≡ deque_capacity aged.old }
    ensures capacity { deque_capacity places.new ≡ deque_capacity places.old }
{
    if places.len() < places.capacity() {
        return;
    }
    let oldest = places.pop_front().flatten();
    if let Some(value) = oldest {
        aged.push_back_reserved((*first, value));
    }
    *first += 1;
}

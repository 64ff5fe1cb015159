//! The values that were moved out of the ring of the newest numbers: a list in rising order of their numbers.
ghost use Rattle.std.specs.Prelude.{◌≡◌, ℕ, ◌<◌, length, nat_eq, option_copied, IfSome, IfNone, None};
ghost use Rattle.std.specs.List.{HoldsAt};
ghost use Rattle.std.specs.Map.{lookup, remove_entry};
ghost use Rattle.std.specs.VecDeque.{deque_capacity};
ghost use Rattle.iox_container.specs.NumberTable.{Rises};

use std::collections::VecDeque;

/// The position of a number in the list, if it is there.
pub(crate) fn place_of<V>(entries: &VecDeque<(u64, V)>, number: u64) -> Option<usize>
    requires { (next : ℕ) × Rises 1 entries.now.items next }
    ensures within { IfSome result (λ place. place < length entries.now.items) }
    ensures found { IfSome result (λ place. HoldsAt (λ entry. entry.0 ≡ number) entries.now.items place) }
    ensures none { IfNone result (lookup (nat_eq number) entries.now.items ≡ None) }
{
    entries.binary_search_by_key(&number, |entry| entry.0).ok()
}

/// The value under a number, if there is one.
pub(crate) fn value_of<V>(entries: &VecDeque<(u64, V)>, number: u64) -> Option<&V>
    requires { (next : ℕ) × Rises 1 entries.now.items next }
    ensures { option_copied result ≡ lookup (nat_eq number) entries.now.items }
{
    match place_of(entries, number) {
        Some(place) => Some(&entries[place].1),
        None => None,
    }
}

/// Takes the value under a number out, if there is one.
pub(crate) fn take_of<V>(entries: &mut VecDeque<(u64, V)>, number: u64) -> Option<V>
    requires { (next : ℕ) × Rises 1 entries.old.items next }
    ensures value { result ≡ lookup (nat_eq number) entries.old.items }
    ensures after { entries.new.items ≡ remove_entry (nat_eq number) entries.old.items }
    ensures capacity { deque_capacity entries.new ≡ deque_capacity entries.old }
{
    let place = place_of(entries, number)?;
    let (_number, value) = entries.remove(place)?;
    Some(value)
}

//! The entries of a list by number: how one is found, comes and loses its value.
ghost use Rattle.std.specs.Prelude.{◌≡◌, ◌<◌, length, IfSome, IfNone, OnOk, None, Some, IsSome};
ghost use Rattle.std.specs.BTreeMap.{insert_entry, is_at};
ghost use Rattle.std.specs.List.{HoldsAt};
ghost use Rattle.std.specs.List.Sorted.{IsStrictlySortedBy, IsBinarySearchResult, IsSearchInRange};
ghost use Rattle.std.specs.Map.{keys_of, lookup, remove_entry};
ghost use Rattle.std.specs.Ordering.{nat_cmp};
ghost use Rattle.std.specs.Vec.{vec_len, vec_capacity};
ghost use Rattle.iox_container.specs.ByNumber.{values_in, HasValue};

use std::alloc::AllocError;

/// The place of a number's entry, if it has one. Nothing is searched while no number is missing between the first one and it, or between it
/// and the last one: its place is its distance from that end.
pub(crate) fn entry_of<X>(entries: &[(u64, Option<Box<X>>)], number: u64) -> Option<usize>
    requires { IsStrictlySortedBy nat_cmp (keys_of entries.now) }
    ensures within { IfSome result (λ place. place < length entries.now) }
    ensures found { IfSome result (λ place. HoldsAt (λ entry. entry.0 ≡ number) entries.now place) }
    ensures none { IfNone result (lookup (is_at (nat_cmp number)) (values_in entries.now) ≡ None) }
{
    let place = number.wrapping_sub(entries.first()?.0) as usize;
    if place < entries.len() && entries[place].0 == number {
        return Some(place);
    }
    entry_behind(entries, number)
}

// The place of a number's entry, if it has one, where it isn't the distance from the first number.
#[inline(never)]
fn entry_behind<X>(entries: &[(u64, Option<Box<X>>)], number: u64) -> Option<usize>
    requires { IsStrictlySortedBy nat_cmp (keys_of entries.now) }
    ensures within { IfSome result (λ place. place < length entries.now) }
    ensures found { IfSome result (λ place. HoldsAt (λ entry. entry.0 ≡ number) entries.now place) }
    ensures none { IfNone result (lookup (is_at (nat_cmp number)) (values_in entries.now) ≡ None) }
{
    let behind = entries.last()?.0.wrapping_sub(number) as usize;
    let place = (entries.len() - 1).wrapping_sub(behind);
    if place < entries.len() && entries[place].0 == number {
        return Some(place);
    }
    search_of(entries, number).ok()
}

/// The place of a number's entry. If that is the likely one, nothing is searched.
pub(crate) fn near<X>(entries: &[(u64, Option<Box<X>>)], number: u64, likely: usize) -> usize
    requires rises { IsStrictlySortedBy nat_cmp (keys_of entries.now) }
    requires there { HasValue number (values_in entries.now) }
    ensures within { result < length entries.now }
    ensures found { HoldsAt (λ entry. entry.0 ≡ number) entries.now result }
{
    if likely < entries.len() && entries[likely].0 == number {
        return likely;
    }
    sought(entries, number)
}

// The place of a number's entry, which is searched.
#[inline(never)]
fn sought<X>(entries: &[(u64, Option<Box<X>>)], number: u64) -> usize
    requires rises { IsStrictlySortedBy nat_cmp (keys_of entries.now) }
    requires there { HasValue number (values_in entries.now) }
    ensures within { result < length entries.now }
    ensures found { HoldsAt (λ entry. entry.0 ≡ number) entries.now result }
{
    match search_of(entries, number) {
        Ok(found) => found,
        Err(_) => unreachable!(),
    }
}

// The place of a number, or the place at which it would be inserted.
fn search_of<X>(entries: &[(u64, Option<Box<X>>)], number: u64) -> Result<usize, usize>
    ensures bound { IsSearchInRange result (length entries.now) }
    ensures position { IsBinarySearchResult (λ entry. nat_cmp entry.0 number) entries.now result }
{
    entries.binary_search_by_key(&number, |entry| entry.0)
}

// As by a search, but a number above all others isn't looked for: its place is behind the last one.
fn place_for<X>(entries: &[(u64, Option<Box<X>>)], number: u64) -> Result<usize, usize>
    requires { IsStrictlySortedBy nat_cmp (keys_of entries.now) }
    ensures bound { IsSearchInRange result (length entries.now) }
    ensures position { IsBinarySearchResult (λ entry. nat_cmp entry.0 number) entries.now result }
{
    let len = entries.len();
    if len == 0 || entries[len - 1].0 < number {
        return Err(len);
    }
    search_of(entries, number)
}

/// Gives a number the value in a box, and drops the value that the number had. There is capacity for one more entry.
pub(crate) fn put_in<X: Drop>(entries: &mut Vec<(u64, Option<Box<X>>)>, number: u64, boxed: Box<X>)
    requires rises { IsStrictlySortedBy nat_cmp (keys_of entries.old.items) }
    requires room { vec_len entries.old < vec_capacity entries.old }
    ensures rises { IsStrictlySortedBy nat_cmp (keys_of entries.new.items) }
    ensures values { values_in entries.new.items ≡ insert_entry nat_cmp (values_in entries.old.items) number boxed.value }
{
    match place_for(entries, number) {
        Ok(place) => entries[place].1 = Some(boxed),
        Err(place) => {
            // There is capacity for it.
            let _ = entries.insert(place, (number, Some(boxed)));
        }
    }
}

/// Drops the value of the entry at this place, which has this number. The last entry goes with its value; another one stays without it, so
/// no entry moves.
pub(crate) fn take_out<X: Drop>(entries: &mut Vec<(u64, Option<Box<X>>)>, number: u64, place: usize)
    requires rises { IsStrictlySortedBy nat_cmp (keys_of entries.old.items) }
    requires within { place < vec_len entries.old }
    requires found { HoldsAt (λ entry. entry.0 ≡ number) entries.old.items place }
    ensures rises { IsStrictlySortedBy nat_cmp (keys_of entries.new.items) }
    ensures values { values_in entries.new.items ≡ remove_entry (is_at (nat_cmp number)) (values_in entries.old.items) }
{
    if place + 1 == entries.len() {
        let _ = entries.remove(place);
    } else {
        entries[place].1 = None;
    }
}

/// Makes capacity for one more entry. If the list is full, entries without values go, and there is capacity for half as many more as stay:
/// so many entries come before the list is walked over again. It fails only if an allocation fails; the values stay in any case.
pub(crate) fn make_room<X: Drop>(entries: &mut Vec<(u64, Option<Box<X>>)>) -> Result<(), AllocError>
    requires { IsStrictlySortedBy nat_cmp (keys_of entries.old.items) }
    ensures rises { IsStrictlySortedBy nat_cmp (keys_of entries.new.items) }
    ensures values { values_in entries.new.items ≡ values_in entries.old.items }
    ensures room { OnOk result (vec_len entries.new < vec_capacity entries.new) }
{
    if entries.len() < entries.capacity() {
        return Ok(());
    }
    entries.retain(|entry| entry.1.is_some());
    entries.reserve(entries.len() / 2 + 1)
}

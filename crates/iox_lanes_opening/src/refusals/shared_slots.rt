//! Whether two messages of a publisher are in one slot.
//!
//! No memory is asked for: the reasons why a domain can't become lanes come before want of memory. So as many slots as there are marks are
//! marked at once, and the messages are gone over once for each so many slots.
ghost use Rattle.std.specs.Prelude.{◌≡◌, ◌≤◌, ◌<◌, ◌*◌, ◌^◌, ℕ, get_or, length, set, slice_get, true, false, Some};
ghost use Rattle.iox_lanes_opening.specs.Soundness.{has_twice};
ghost use Rattle.iox_lanes_opening.specs.SharedSlots.{are_kept, at_once, is_marked, marked, messages_in, slots_of};
ghost use Rattle.iox_lanes_opening.specs.SharedSlots.{AreApartFrom};

use iox_domain_ports::PublisherPort;
use iox_domain_ports::reading::waiting_at;

// How many slots are marked at once.
const MARKS: usize = 4096;

/// Messages that a publisher keeps.
#[derive(Clone, Copy)]
pub(crate) enum Messages {
    /// Its history.
    Remembered,
    /// Those that wait in the connection with this index.
    Waiting(usize),
}

/// Whether two of these messages are in one slot.
pub(crate) fn has_twice<T: Copy, U: Copy>(port: &PublisherPort<T, U>, messages: Messages) -> bool
    requires { are_kept messages port.now ≡ true }
    ensures { result ≡ has_twice (messages_in messages port.now) }
{
    if count(port, messages) < 2 {
        return false;
    }
    for part in 0..part_count(port, messages) {
        if has_twice_from(port, messages, part * MARKS) {
            return true;
        }
    }
    false
}

// Whether one of these messages is in the slot of an earlier one, of the slots from `first` on as many as there are marks.
fn has_twice_from<T: Copy, U: Copy>(
    port: &PublisherPort<T, U>,
    messages: Messages,
    first: usize,
) -> bool
    requires { are_kept messages port.now ≡ true }
    ensures yes { result ≡ true → has_twice (messages_in messages port.now) ≡ true }
    ensures no { result ≡ false → AreApartFrom first (messages_in messages port.now) }
{
    let mut marks = [false; MARKS];
    for place in 0..count(port, messages) {
        if mark(&mut marks, first, slot_at(port, messages, place)) {
            return true;
        }
    }
    false
}

// Marks a slot, if it has a mark, and answers whether it was marked. The first mark is that of the slot `first`.
fn mark(marks: &mut [bool], first: usize, slot: usize) -> bool
    ensures answer { result ≡ is_marked first slot marks.old }
    ensures new { marks.new ≡ marked first slot marks.old }
{
    if slot < first {
        return false;
    }
    mark_at(marks, slot - first)
}

// Sets the mark at this place, if there is one, and answers whether it was set.
#[tactic(auto, using(std::proofs::lemmas::List::set_past))]
fn mark_at(marks: &mut [bool], place: usize) -> bool
    ensures answer { result ≡ get_or marks.old place false }
    ensures new { marks.new ≡ set marks.old place true }
{
    if place >= marks.len() {
        return false;
    }
    let before = marks[place];
    marks[place] = true;
    before
}

// How many parts, each of as many slots as there are marks, have all slots that these messages are in.
fn part_count<T: Copy, U: Copy>(port: &PublisherPort<T, U>, messages: Messages) -> usize
    requires { are_kept messages port.now ≡ true }
    ensures all { (place slot : ℕ) → slice_get (slots_of (messages_in messages port.now)) place ≡ Some slot → slot < result * at_once }
    ensures few { result ≤ 2 ^ 52 }
{
    largest_slot(port, messages) / MARKS + 1
}

// The largest slot that one of these messages is in; 0 if there are none.
fn largest_slot<T: Copy, U: Copy>(port: &PublisherPort<T, U>, messages: Messages) -> usize
    requires { are_kept messages port.now ≡ true }
    ensures { (place slot : ℕ) → slice_get (slots_of (messages_in messages port.now)) place ≡ Some slot → slot ≤ result }
{
    let mut largest = 0;
    for place in 0..count(port, messages) {
        largest = slot_at(port, messages, place).max(largest);
    }
    largest
}

// How many of these messages there are.
fn count<T: Copy, U: Copy>(port: &PublisherPort<T, U>, messages: Messages) -> usize
    ensures { result ≡ length (messages_in messages port.now) }
{
    match messages {
        Messages::Remembered => port.sender.slots().history(),
        Messages::Waiting(index) => waiting_at(port, index),
    }
}

// The slot of the message at this place; the oldest is at 0.
fn slot_at<T: Copy, U: Copy>(port: &PublisherPort<T, U>, messages: Messages, place: usize) -> usize
    requires kept { are_kept messages port.now ≡ true }
    requires within { place < length (messages_in messages port.now) }
    ensures { slice_get (slots_of (messages_in messages port.now)) place ≡ Some result }
{
    match messages {
        Messages::Remembered => port.sender.remembered(place),
        Messages::Waiting(index) => port.sender.waiting_slot(index, place),
    }
}

//! Several steps of a publisher's call at once: its lane catches up after the last of them.
ghost use Rattle.std.specs.Prelude.{◌≡◌, ◌<◌, ◌≤◌, true, false, length, slice_get, Some};
ghost use Rattle.iox_lanes_machine.specs.LanesBase.Numbers.{words_of, IsSmall};
ghost use Rattle.iox_lanes_machine.specs.LanesBase.Publishing.{header_word, publisher_is_over};
ghost use Rattle.iox_lanes_machine.specs.LanesParties.Publishers.{words_of as call_words};
ghost use Rattle.iox_lanes_threads_rule.specs.Acts.{single, port_of};
ghost use Rattle.iox_lanes_threads_ports.specs.Ports.{PublisherStands};
ghost use Rattle.iox_lanes_threads_ports.specs.SlotParts.{storing, part_word};
ghost use Rattle.iox_lanes_threads_ports.specs.Strides.{PublisherStrode};

use crate::ahead::access_ahead;
use crate::publishing::step;
use crate::ring_calls::{LoanReclaims, Pushes, SendReclaims};
use crate::ring_strides::ring_stride;
use iox_lanes_base::calls::PublisherCall;
use iox_lanes_base::words::{SharedAccess, SharedWord, SlotWord, TableSizes};
use iox_lanes_parties::PublisherLane;
use iox_lanes_threads_rule::{Opening, WordSeat, Words};
use iox_queues_steps::rings::Push;
use iox_queues_steps::rings::overflowing::Push as OverflowingPush;
use iox_queues_steps::rings::refusing::{Pop as RefusingPop, Push as RefusingPush};

// Whether the list begins with this number.
fn begins_with(list: &[u64], number: u64) -> bool
    ensures { result ≡ true → slice_get list.now 0 ≡ Some number }
{
    match list.first() {
        Some(first) => *first == number,
        None => false,
    }
}

// A word of header and user header, which lie one after the other.
fn header_word(word: u64) -> SlotWord
    ensures { result ≡ header_word word }
{
    if word < 3 {
        SlotWord::Header(word)
    } else {
        SlotWord::UserHeader(word - 3)
    }
}

// Which words of a slot a call stores.
#[derive(Clone, Copy)]
enum SlotPart {
    // The words of the payload.
    Payload,
    // The words of header and user header.
    Head,
}

// The stage of a call that stores this value next, in this word of a part.
#[inline(always)]
fn storing(part: SlotPart, slot: u64, word: u64, value: u64) -> PublisherCall
    ensures { result ≡ storing part slot word value }
{
    match part {
        SlotPart::Payload => PublisherCall::Writing { slot, word, value },
        SlotPart::Head => PublisherCall::Heading { slot, word, value },
    }
}

// The word of the slot that is this word of the part.
#[inline(always)]
fn part_word(part: SlotPart, word: u64) -> SlotWord
    ensures { result ≡ part_word part word }
{
    match part {
        SlotPart::Payload => SlotWord::Payload(word),
        SlotPart::Head => header_word(word),
    }
}

// Stores all words of a part. Returns how many steps that took: one for each word.
#[inline(always)]
fn store_words<K: Opening>(
    words: &Words<K>,
    seat: &mut WordSeat,
    sizes: &TableSizes,
    lane: &mut PublisherLane,
    part: SlotPart,
    slot: u64,
    first: u64,
) -> usize
    requires table { (seat.old.table_id ≡ words.now.table_id) × (words.now.table_id.words ≡ words_of sizes.now) × IsSmall sizes.now }
    requires seat { (seat.old.me ≡ single (port_of seat.old.me)) × ((port_of seat.old.me).service.sizes ≡ sizes.now) }
    requires stands { PublisherStands (port_of seat.old.me) lane.old }
    requires call { lane.old.port.call ≡ storing part slot 0 first }
    requires first { slice_get (call_words lane.old.port) 0 ≡ Some first }
    ensures table { (seat.new.table_id ≡ seat.old.table_id) × (seat.new.id ≡ seat.old.id) }
    ensures all { result ≡ length (call_words lane.old.port) }
    ensures strode { PublisherStrode (port_of seat.old.me) lane.old result seat.new.me lane.new }
{
    let sizes = *sizes;
    let stored = lane.stored();
    let count = stored.len();
    for at in 0..count {
        let (word, value) = (at as u64, stored[at]);
        let call = storing(part, slot, word, value);
        let own = part_word(part, word);
        let access = SharedAccess::Store(SharedWord::Slot { slot, word: own }, value);
        access_ahead(words, seat, &sizes, lane, call, access);
    }
    let last = storing(part, slot, (count - 1) as u64, stored[count - 1]);
    lane.go_on_from(last, 0);
    count
}

// Whether a call that stores `first` next may store all its words, in at most `room` steps.
fn may_store_all(stored: &[u64], first: u64, room: u128) -> bool
    ensures { result ≡ true → (slice_get stored.now 0 ≡ Some first) × (length stored.now ≤ room) }
{
    begins_with(stored, first) && stored.len() as u128 <= room
}

/// Makes some of the next steps of a publisher's call, at most `room`, and returns how many.
pub(crate) fn stride<K: Opening>(
    words: &Words<K>,
    seat: &mut WordSeat,
    sizes: &TableSizes,
    lane: &mut PublisherLane,
    room: u128,
) -> u128
    requires table { (seat.old.table_id ≡ words.now.table_id) × (words.now.table_id.words ≡ words_of sizes.now) × IsSmall sizes.now }
    requires seat { (seat.old.me ≡ single (port_of seat.old.me)) × ((port_of seat.old.me).service.sizes ≡ sizes.now) }
    requires stands { PublisherStands (port_of seat.old.me) lane.old }
    requires busy { publisher_is_over lane.old.port.call ≡ false }
    requires room { 0 < room }
    ensures table { (seat.new.table_id ≡ seat.old.table_id) × (seat.new.id ≡ seat.old.id) }
    ensures some { (0 < result) × (result ≤ room) }
    ensures strode { PublisherStrode (port_of seat.old.me) lane.old result seat.new.me lane.new }
{
    // A stride over a ring makes at most four accesses.
    let has_room = room >= 4;
    match lane.stage() {
        PublisherCall::Writing {
            slot,
            word: 0,
            value,
        } if may_store_all(lane.stored(), value, room) => {
            let part = SlotPart::Payload;
            store_words(words, seat, sizes, lane, part, slot, value) as u128
        }
        PublisherCall::Heading {
            slot,
            word: 0,
            value,
        } if may_store_all(lane.stored(), value, room) => {
            let part = SlotPart::Head;
            store_words(words, seat, sizes, lane, part, slot, value) as u128
        }
        PublisherCall::LoanReclaims {
            place,
            route,
            pop: RefusingPop::Begun,
        } if has_room => {
            let call = LoanReclaims { place, route };
            ring_stride(words, seat, sizes, lane, call, RefusingPop::Begun)
        }
        PublisherCall::SendReclaims {
            slot,
            place,
            route,
            pop: RefusingPop::Begun,
        } if has_room => {
            let call = SendReclaims { slot, place, route };
            ring_stride(words, seat, sizes, lane, call, RefusingPop::Begun)
        }
        PublisherCall::Pushing {
            slot,
            place,
            route,
            push: Push::Refusing(RefusingPush::Begun { limit, value }),
            delivery,
        } if has_room => {
            let call = Pushes {
                slot,
                place,
                route,
                delivery,
            };
            let refusing = RefusingPush::Begun { limit, value };
            ring_stride(words, seat, sizes, lane, call, refusing)
        }
        PublisherCall::Pushing {
            slot,
            place,
            route,
            push: Push::Overflowing(OverflowingPush::Begun { limit, value }),
            delivery,
        } if has_room => {
            let call = Pushes {
                slot,
                place,
                route,
                delivery,
            };
            let overflowing = OverflowingPush::Begun { limit, value };
            ring_stride(words, seat, sizes, lane, call, overflowing)
        }
        PublisherCall::Pushing {
            slot,
            place,
            route,
            push: Push::Overflowing(OverflowingPush::Full { value, read, next }),
            delivery,
        } if has_room => {
            let call = Pushes {
                slot,
                place,
                route,
                delivery,
            };
            let full = OverflowingPush::Full { value, read, next };
            ring_stride(words, seat, sizes, lane, call, full)
        }
        PublisherCall::Remembering { .. } => {
            lane.go_on(0);
            1
        }
        _ => {
            step(words, seat, sizes, lane);
            1
        }
    }
}

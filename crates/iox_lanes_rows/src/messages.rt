//! Messages that lanes keep, beside what a read gives.
ghost use Rattle.std.specs.Prelude.{◌<◌};

use crate::lanes::orders;
use crate::stepping::{MOST_STEPS, new_lanes, whole, words_read};
use iox_lanes::{Call, LaneSizes, Lanes, Party, RingKind};
use std::alloc::{AllocError, Global};
use std::process::Abort;

const SIZES: LaneSizes = LaneSizes {
    publishers: 1,
    subscribers: 1,
    kind: RingKind::Overflowing,
    buffer: 1,
    most_borrowed: 2,
    history: 1,
    most_loans: 2,
    slots: 6,
    user_header_words: 1,
    payload_words: 1,
};

const PUBLISHER: Party = Party::Publisher(0);

const SUBSCRIBER: Party = Party::Subscriber(0);

// Whether a call goes.
fn goes(lanes: &mut Lanes, party: Party, call: Call) -> bool {
    whole(lanes, party, call, MOST_STEPS).is_some()
}

// Whether a message is sent in a slot.
fn sends(lanes: &mut Lanes, slot: u64, write: Call) -> bool {
    goes(lanes, PUBLISHER, Call::LoanUninit)
        && goes(lanes, PUBLISHER, write)
        && goes(lanes, PUBLISHER, Call::Send { loan: slot })
}

// Whether it is received, read and given up.
fn takes(lanes: &mut Lanes, slot: u64) -> bool {
    goes(lanes, SUBSCRIBER, Call::Receive)
        && goes(lanes, SUBSCRIBER, Call::Read { sample: slot })
        && goes(lanes, SUBSCRIBER, Call::Release { sample: slot })
}

// This many messages, each of this many words of user header and of payload.
type Many = (u64, u64, u64);

const COUNTS: [Many; 6] = [
    (0, 1, 1),
    (1, 1, 1),
    (2, 1, 1),
    (7, 1, 1),
    (64, 1, 1),
    (1000, 1, 1),
];

const WORDS: [Many; 8] = [
    (1, 0, 0),
    (1, 0, 1),
    (1, 1, 0),
    (1, 1, 2),
    (1, 2, 7),
    (1, 7, 1),
    (1, 0, 64),
    (1, 64, 1000),
];

fn sizes(many: &Many) -> LaneSizes
    ensures { 0 < result.buffer }
{
    LaneSizes {
        user_header_words: many.1,
        payload_words: many.2,
        ..SIZES
    }
}

// The write of the message of a number into the first slot or the second, by turns.
fn write(alloc: Global, many: &Many, number: u64) -> Result<Call, AllocError> {
    Ok(Call::Write {
        loan: number % 2,
        payload: vec![in alloc; number.saturating_add(7); many.2 as usize]?,
        user_header: vec![in alloc; 5u64; many.1 as usize]?,
    })
}

// The word at a place of that message, after a header of three words.
fn word_at(many: &Many, number: u64, place: u64) -> u64 {
    match place {
        0 | 1 => 0,
        2 => 1,
        _ if place < many.1.saturating_add(3) => 5,
        _ => number.saturating_add(7),
    }
}

// How many words it has.
fn length(many: &Many) -> u64 {
    many.1.saturating_add(many.2).saturating_add(3)
}

// Whether these are its words.
fn are_words(words: &[u64], many: &Many, number: u64) -> bool {
    let mut place = 0;
    for word in words {
        if *word != word_at(many, number, place) {
            return false;
        }
        place = place.saturating_add(1);
    }
    place == length(many)
}

// Whether it stands as it was sent, and was read so.
fn is_kept(lanes: &Lanes, many: &Many, number: u64) -> bool {
    let from = number.saturating_mul(length(many)) as usize;
    match lanes.message(number as usize) {
        Some(message) => {
            message.slot() == number % 2
                && are_words(message.words(), many, number)
                && words_read(lanes).get(from..) == Some(message.words())
        }
        None => false,
    }
}

// Whether the connection's order has this many messages twice, as each is put and as it is taken, one after the other.
fn are_placed(lanes: &Lanes, count: u64) -> bool {
    let order = lanes.order(0);
    let whole = order.len() as u64 == count.saturating_mul(2) && order.is_empty() == (count == 0);
    let mut at: usize = 0;
    for entry in order {
        if entry.number != Some(at / 2) || !orders(lanes, 0, at, Some(at / 2)) {
            return false;
        }
        at = at.saturating_add(1);
    }
    whole
}

// Whether the message of a number is sent, and read and kept.
fn keeps(alloc: Global, lanes: &mut Lanes, many: &Many, number: u64) -> Result<bool, AllocError> {
    let write = write(alloc, many, number)?;
    let goes = sends(lanes, number % 2, write) && takes(lanes, number % 2);
    Ok(goes && is_kept(lanes, many, number))
}

// Whether this many are.
fn keep(alloc: Global, lanes: &mut Lanes, many: &Many) -> Result<bool, AllocError> {
    for number in 0..many.0 {
        if !keeps(alloc, lanes, many, number)? {
            return Ok(false);
        }
    }
    Ok(lanes.len() as u64 == many.0 && are_placed(lanes, many.0))
}

// Whether they are in new lanes.
fn are_kept(alloc: Global, many: &Many) -> Result<bool, AllocError> {
    keep(alloc, &mut new_lanes(alloc, sizes(many))?, many)
}

fn all_are_kept(rt: &impl Abort, alloc: Global, rows: &[Many]) -> Result<(), AllocError> {
    for many in rows {
        assert!(rt; are_kept(alloc, many)?, "{many:?}");
    }
    Ok(())
}

#[test]
fn messages_of_all_sizes_are_kept(rt: HostRuntime) -> Result<(), AllocError> {
    all_are_kept(&rt, rt.alloc(), &WORDS)
}

#[test]
fn messages_are_kept_as_they_were_sent_and_read(rt: HostRuntime) -> Result<(), AllocError> {
    all_are_kept(&rt, rt.alloc(), &COUNTS)
}

//! What a test knows of the ports of lanes by itself: what was written and sent, and a plain mailbox for each connection.
use crate::stepping::{last_call, order, words_read};
use iox_lanes::{
    Act, Answer, Call, CallName, FinishedCall, Lanes, LoanAnswer, Move, Party, Placed, PopAnswer,
    PushAnswer, Receipt,
};
use std::alloc::{AllocError, Global};

/// The number of slots of all publishers.
pub(crate) const SLOTS: u64 = 16;

// What no slot is, and what stands where nothing was written.
const NONE: u64 = u64::MAX;

/// What was written into each slot, what was sent with it, which slot each party got last, how many reads were right, which party makes no
/// steps, and the state of the random numbers.
#[derive(Clone, Copy)]
pub(crate) struct Known {
    pub(crate) written: [u64; 16],
    pub(crate) sent: [u64; 16],
    pub(crate) last: [u64; 5],
    pub(crate) reads: u64,
    pub(crate) rests: u64,
    pub(crate) chance: u64,
}

pub(crate) const NOTHING: Known = Known {
    written: [NONE; 16],
    sent: [NONE; 16],
    last: [NONE; 5],
    reads: 0,
    rests: 0,
    chance: 9,
};

fn keep(words: &mut [u64], at: u64, value: u64) {
    if let Some(kept) = words.get_mut(at as usize) {
        *kept = value;
    }
}

pub(crate) fn kept(words: &[u64], at: u64) -> u64 {
    words.get(at as usize).copied().unwrap_or(NONE)
}

/// The place in `last` of a party.
pub(crate) fn last_at(party: Party) -> u64 {
    match party {
        Party::Publisher(place) => place as u64,
        Party::Subscriber(place) => (place as u64).saturating_add(2),
    }
}

/// Notes that a call began.
pub(crate) fn begun(known: &mut Known, step: &Move) {
    if let Move::Begin(Call::Send { loan }) = step {
        let value = kept(&known.written, *loan);
        keep(&mut known.sent, *loan, value);
    }
}

// The slot that a call writes or reads.
fn slot_of(call: CallName) -> u64 {
    match call {
        CallName::Write { loan } => loan,
        CallName::Read { sample } => sample,
        _ => NONE,
    }
}

// Whether a subscriber reads what was sent.
fn is_read(known: &mut Known, sample: u64, word: Option<&u64>) -> bool {
    known.reads = known.reads.saturating_add(1);
    word == Some(&kept(&known.sent, sample))
}

// What is known once a call ended, whose first moment is the value that it wrote; whether it read what it should.
fn ended(known: &mut Known, call: &FinishedCall, word: Option<&u64>) -> bool {
    match call.answer {
        Answer::Lent(LoanAnswer::Slot(slot)) | Answer::Received(Receipt::Taken { slot, .. }) => {
            keep(&mut known.last, last_at(call.party), slot);
            true
        }
        Answer::Written => {
            keep(&mut known.written, slot_of(call.call), call.first);
            true
        }
        Answer::Read { .. } => is_read(known, slot_of(call.call), word),
        _ => true,
    }
}

/// Whether the call that ended last read what it should, if it read.
pub(crate) fn is_answered(known: &mut Known, lanes: &Lanes) -> bool {
    match last_call(lanes) {
        Some(call) => ended(known, &call, words_read(lanes).last()),
        None => false,
    }
}

// The oldest of a plain mailbox, if there is one.
fn oldest(waits: &mut Vec<u64>) -> Option<u64> {
    if waits.is_empty() {
        None
    } else {
        Some(waits.remove(0))
    }
}

/// The maximum number of waiting messages of a plain mailbox, and whether a full one refuses a message.
#[derive(Clone, Copy)]
pub(crate) struct Room {
    pub(crate) limit: u64,
    pub(crate) refuses: bool,
}

// What a plain mailbox answers to one more.
fn put(waits: &mut Vec<u64>, room: Room, slot: u64) -> Result<PushAnswer, AllocError> {
    let is_full = waits.len() as u64 >= room.limit;
    if is_full && room.refuses {
        return Ok(PushAnswer::Refused);
    }
    waits.push(slot)?;
    if is_full {
        Ok(PushAnswer::LeftOut(waits.remove(0)))
    } else {
        Ok(PushAnswer::Kept)
    }
}

// Whether a plain mailbox gives this answer, and has no slot twice.
fn answers(waits: &mut Vec<u64>, room: Room, act: Act) -> Result<bool, AllocError> {
    match act {
        Act::Put { value, answer } => {
            Ok(!waits.contains(&value) && put(waits, room, value)? == answer)
        }
        Act::Take {
            answer: PopAnswer::Got(got),
        } => Ok(oldest(waits) == got),
        Act::Take {
            answer: PopAnswer::Saw(some),
        } => Ok(waits.is_empty() != some),
    }
}

// Whether a connection's order is that of a plain mailbox, and something was done there.
fn is_mailbox(waits: &mut Vec<u64>, room: Room, order: &[Placed]) -> Result<bool, AllocError> {
    for placed in order {
        if !answers(waits, room, placed.act)? {
            return Ok(false);
        }
    }
    Ok(!order.is_empty())
}

/// Whether the order of each connection is that of a plain mailbox.
pub(crate) fn are_mailboxes(alloc: Global, lanes: &Lanes, room: Room) -> Result<bool, AllocError> {
    for connection in 0..lanes.lanes().links().len() {
        let order = order(lanes, connection as u64);
        if !is_mailbox(&mut Vec::new(alloc), room, order)? {
            return Ok(false);
        }
    }
    Ok(true)
}

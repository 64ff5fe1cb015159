//! Lanes whose calls don't overlap: the answers to the calls of a publisher and a subscriber, and of two of each, whose messages have 1,000
//! words.
use crate::answers::hold;
use iox_domain_values::LoanError;
use iox_lanes::{LaneSizes, RingKind};
use iox_lanes_service::LanesInTurn;
use std::alloc::{AllocError, Global};
use std::process::Abort;

const SIZES: LaneSizes = LaneSizes {
    publishers: 1,
    subscribers: 1,
    kind: RingKind::Overflowing,
    buffer: 1,
    most_borrowed: 1,
    history: 1,
    most_loans: 1,
    slots: 5,
    user_header_words: 1,
    payload_words: 100,
};

// Whether a slot is loaned, written and sent to the subscriber, and no other one is loaned before that.
fn sends(alloc: Global, lanes: &mut LanesInTurn) -> Result<bool, AllocError> {
    let Some(Ok(loan)) = lanes.loan(0) else {
        return Ok(false);
    };
    if !lanes.write_values(alloc, &loan, &[7u64; 100], &5u64)? {
        return Ok(false);
    }
    let Some(Err(LoanError::ExceedsMaxLoans)) = lanes.loan(0) else {
        return Ok(false);
    };
    Ok(lanes.send(&loan) == Some(Ok(1)))
}

// Whether a subscriber receives, reads and releases a message of these words.
fn takes(alloc: Global, lanes: &mut LanesInTurn, subscriber: usize, wanted: &[u64]) -> bool {
    let Some(Ok(Some(sample))) = lanes.receive(subscriber) else {
        return false;
    };
    let Some(Ok(words)) = lanes.read(alloc, &sample) else {
        return false;
    };
    lanes.release(&sample) && words.as_slice() == wanted
}

// Whether a message goes.
fn both(alloc: Global, lanes: &mut LanesInTurn) -> Result<bool, AllocError> {
    Ok(sends(alloc, lanes)? && takes(alloc, lanes, 0, &[7; 100]))
}

// Whether it does on new lanes.
fn goes(alloc: Global) -> Result<bool, AllocError> {
    both(alloc, &mut LanesInTurn::new(alloc, SIZES)?)
}

// Two of each, where one message may wait and a second one is refused.
const CROWD: LaneSizes = LaneSizes {
    publishers: 2,
    subscribers: 2,
    kind: RingKind::Refusing,
    buffer: 1,
    most_borrowed: 1,
    history: 0,
    most_loans: 1,
    slots: 5,
    user_header_words: 1,
    payload_words: 1000,
};

// What is asked, and what comes of it.
#[derive(Clone, Copy)]
enum Turn {
    // The publisher at a place sends a message whose words count on from one, and this many subscribers take it.
    Sends(usize, u64, u64),
    // The subscriber at a place receives a message of these words, and releases it.
    Takes(usize, u64),
    // It receives nothing.
    Nothing(usize),
}

const TURNS: [Turn; 13] = [
    Turn::Nothing(1),
    Turn::Sends(0, 1, 2),
    Turn::Sends(1, 5_000, 2),
    Turn::Sends(0, 10_000, 0),
    Turn::Takes(1, 1),
    Turn::Sends(0, 20_000, 1),
    Turn::Takes(0, 1),
    Turn::Takes(0, 5_000),
    Turn::Nothing(0),
    Turn::Sends(1, 30_000, 1),
    Turn::Takes(1, 20_000),
    Turn::Takes(1, 5_000),
    Turn::Takes(0, 30_000),
];

// The words of a message that count on from one.
fn words_from(alloc: Global, first: u64) -> Result<Vec<u64>, AllocError> {
    let mut words = Vec::new(alloc);
    for place in 0..CROWD.payload_words {
        words.push(first.saturating_add(place))?;
    }
    Ok(words)
}

// Whether a message of these words is sent to this many subscribers.
fn is_sent(
    lanes: &mut LanesInTurn,
    publisher: usize,
    payload: Vec<u64>,
    user_header: Vec<u64>,
    taken: u64,
) -> bool {
    let Some(Ok(loan)) = lanes.loan(publisher) else {
        return false;
    };
    lanes.write(&loan, payload, user_header) && lanes.send(&loan) == Some(Ok(taken))
}

// Whether nothing waits for a subscriber.
fn receives_nothing(lanes: &mut LanesInTurn, subscriber: usize) -> bool {
    match lanes.receive(subscriber) {
        Some(Ok(None)) => true,
        _ => false,
    }
}

// Whether it goes so.
fn turns(alloc: Global, lanes: &mut LanesInTurn, turn: Turn) -> Result<bool, AllocError> {
    match turn {
        Turn::Sends(publisher, first, taken) => Ok(is_sent(
            lanes,
            publisher,
            words_from(alloc, first)?,
            vec![in alloc; 5u64]?,
            taken,
        )),
        Turn::Takes(subscriber, first) => {
            let wanted = words_from(alloc, first)?;
            Ok(takes(alloc, lanes, subscriber, wanted.as_slice()))
        }
        Turn::Nothing(subscriber) => Ok(receives_nothing(lanes, subscriber)),
    }
}

// Whether all go so.
fn take_turns(rt: &impl Abort, alloc: Global, lanes: &mut LanesInTurn) -> Result<(), AllocError> {
    for (place, turn) in TURNS.iter().enumerate() {
        assert!(rt; turns(alloc, lanes, *turn)?, "{place}");
    }
    Ok(())
}

#[test]
fn a_message_goes_in_turn(rt: HostRuntime) -> Result<(), AllocError> {
    hold(&rt, goes(rt.alloc()))
}

#[test]
fn long_messages_go_in_turn_between_two_of_each(rt: HostRuntime) -> Result<(), AllocError> {
    take_turns(&rt, rt.alloc(), &mut LanesInTurn::new(rt.alloc(), CROWD)?)
}

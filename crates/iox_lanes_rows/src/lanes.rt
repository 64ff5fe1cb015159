//! What the ports of lanes send and receive, by whole calls. Messages have sequence numbers, and ports are identified by their places.
use crate::changes::NumberLanes;
use crate::domain::in_both_words;
use crate::stepping::{MOST_STEPS, step, whole};
use iox_lanes::{
    Answer, Call, Delivery, Lanes, LoanAnswer, Move, Party, Receipt, SendAnswer, Stepped,
    WithSequence,
};
use std::alloc::{AllocError, Global};

/// The maximum number of steps of a loan, and of a send.
#[derive(Clone, Copy)]
pub(crate) struct Pace {
    pub(crate) loan: u64,
    pub(crate) send: u64,
}

/// The maximum for any loan and any send.
pub(crate) const ANY: Pace = Pace {
    loan: MOST_STEPS,
    send: MOST_STEPS,
};

/// A step of a case that lanes make, with its result.
#[derive(Clone, Copy)]
pub(crate) enum InLanes {
    /// A publisher sends a value, with this result. Its loan and its send make at most this many steps.
    Sends(usize, u64, SendAnswer, Pace),
    /// A subscriber receives the message with this sequence number and this value, and releases it.
    Gets(usize, u64, u64),
    /// A subscriber receives nothing.
    Nothing(usize),
    /// A publisher loans a slot, and keeps it.
    Lends(usize),
    /// A subscriber receives a message, and keeps the sample.
    Borrows(usize),
    /// The lanes keep a message under this number, with this sequence number and this value.
    Knows(usize, u64, u64),
    /// At this place the order of a connection has the message with this number, or no message.
    Orders(u64, usize, Option<usize>),
    /// A subscriber makes the first step of a receive, and no other.
    Begins(usize),
}

/// No connection takes the message, because there is none.
pub(crate) const TO_NONE: SendAnswer = SendAnswer::Delivered(Delivery {
    taken: 0,
    refused: 0,
});

/// The only connection takes the message.
pub(crate) const TO_ONE: SendAnswer = SendAnswer::Delivered(Delivery {
    taken: 1,
    refused: 0,
});

/// Both connections take the message.
pub(crate) const TO_TWO: SendAnswer = SendAnswer::Delivered(Delivery {
    taken: 2,
    refused: 0,
});

/// The only connection is full, and is skipped.
pub(crate) const TO_FULL: SendAnswer = SendAnswer::Delivered(Delivery {
    taken: 0,
    refused: 1,
});

/// The only connection is full, and the send fails.
pub(crate) const FULL: SendAnswer = SendAnswer::UnableToDeliver(Delivery {
    taken: 0,
    refused: 1,
});

/// The user header of each message. The send sets the sequence number.
pub(crate) const USER_HEADER: WithSequence<()> = WithSequence {
    sequence: 0,
    user_header: (),
};

/// Whether these are the values of this message.
pub(crate) fn are_values(
    values: Option<(WithSequence<()>, u128)>,
    sequence: u64,
    value: u64,
) -> bool {
    match values {
        Some((header, came)) => header.sequence == sequence && came == in_both_words(value),
        None => false,
    }
}

// The slot that a publisher loans, within this many steps.
fn lent(lanes: &mut Lanes, party: Party, most: u64) -> Option<u64> {
    match whole(lanes, party, Call::LoanUninit, most) {
        Some(Answer::Lent(LoanAnswer::Slot(loan))) => Some(loan),
        _ => None,
    }
}

// What a loan's send answers that is written so, within this many steps.
fn send_loan(lanes: &mut Lanes, party: Party, loan: u64, write: Call, most: u64) -> Option<Answer> {
    if whole(lanes, party, write, MOST_STEPS) == Some(Answer::Written) {
        whole(lanes, party, Call::Send { loan }, most)
    } else {
        None
    }
}

// Whether a value that the publisher at a place sends at this pace is answered as stated.
fn sends(
    alloc: Global,
    lanes: &mut Lanes,
    place: usize,
    value: u64,
    answer: SendAnswer,
    pace: Pace,
) -> Result<bool, AllocError> {
    let party = Party::Publisher(place);
    let Some(loan) = lent(lanes, party, pace.loan) else {
        return Ok(false);
    };
    let write = Call::write(alloc, loan, &in_both_words(value), &USER_HEADER)?;
    Ok(send_loan(lanes, party, loan, write, pace.send) == Some(Answer::Sent(answer)))
}

// The slot of the message that the subscriber at a place receives.
fn received(lanes: &mut Lanes, place: usize) -> Option<u64> {
    match whole(lanes, Party::Subscriber(place), Call::Receive, MOST_STEPS) {
        Some(Answer::Received(Receipt::Taken { slot, .. })) => Some(slot),
        _ => None,
    }
}

// Whether it receives nothing.
fn gets_nothing(lanes: &mut Lanes, place: usize) -> bool {
    let received = whole(lanes, Party::Subscriber(place), Call::Receive, MOST_STEPS);
    received == Some(Answer::Received(Receipt::Nothing))
}

// Whether a message is kept under a number.
fn knows(lanes: &Lanes, number: usize, sequence: u64, value: u64) -> bool {
    match lanes.message(number) {
        Some(message) => are_values(message.values(), sequence, value),
        None => false,
    }
}

/// Whether an entry of a connection's order puts or takes the message with this number; None stands for no message.
pub(crate) fn orders(lanes: &Lanes, connection: u64, at: usize, wanted: Option<usize>) -> bool {
    match lanes.order(connection).get(at) {
        Some(entry) => entry.number == wanted,
        None => false,
    }
}

// Whether the subscriber at a place begins to receive.
fn begins(lanes: &mut Lanes, place: usize) -> bool {
    let begin = Move::Begin(Call::Receive);
    step(lanes, Party::Subscriber(place), &begin) == Stepped::Went
}

// Whether a sample is read as this message.
fn reads(lanes: &mut Lanes, party: Party, sample: u64, sequence: u64, value: u64) -> bool {
    match whole(lanes, party, Call::Read { sample }, MOST_STEPS) {
        Some(Answer::Read { from }) => are_values(lanes.values(from), sequence, value),
        _ => false,
    }
}

// Whether the subscriber at a place receives this message and releases it.
fn gets(lanes: &mut Lanes, place: usize, sequence: u64, value: u64) -> bool {
    let Some(sample) = received(lanes, place) else {
        return false;
    };
    let party = Party::Subscriber(place);
    reads(lanes, party, sample, sequence, value)
        && whole(lanes, party, Call::Release { sample }, MOST_STEPS) == Some(Answer::Released(true))
}

/// Whether a step has the stated result.
pub(crate) fn goes(
    alloc: Global,
    opened: &mut Option<NumberLanes>,
    step: &InLanes,
) -> Result<bool, AllocError> {
    let Some(opened) = opened else {
        return Ok(false);
    };
    let lanes = &mut opened.lanes;
    Ok(match *step {
        InLanes::Sends(place, value, answer, pace) => {
            return sends(alloc, lanes, place, value, answer, pace);
        }
        InLanes::Gets(place, sequence, value) => gets(lanes, place, sequence, value),
        InLanes::Nothing(place) => gets_nothing(lanes, place),
        InLanes::Lends(place) => lent(lanes, Party::Publisher(place), MOST_STEPS).is_some(),
        InLanes::Borrows(place) => received(lanes, place).is_some(),
        InLanes::Knows(number, sequence, value) => knows(lanes, number, sequence, value),
        InLanes::Orders(connection, at, number) => orders(lanes, connection, at, number),
        InLanes::Begins(place) => begins(lanes, place),
    })
}

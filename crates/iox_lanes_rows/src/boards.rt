//! The ports of three boards that stand at once, called one after the other: four publishers and four subscribers, nine messages that wait,
//! and up to 1,000 words.
ghost use Rattle.std.specs.Prelude.{◌<◌};

use crate::answers::hold;
use crate::service::opened;
use iox_lanes::{
    Delivery, LanePublisher, LaneSizes, LaneSubscriber, LaneThreads, LoanAnswer, Receipt,
    ReleaseAnswer, RingKind, SendAnswer,
};
use std::alloc::{AllocError, Global};
use std::sync::Wait;

// How many publishers there are, and as many subscribers; how many words a user header has, and a payload; and how many messages each
// publisher sends before one is received.
struct Many {
    ports: u64,
    user_header: u64,
    payload: u64,
    messages: u64,
}

const BOARDS: [Many; 3] = [
    Many {
        ports: 1,
        user_header: 2,
        payload: 64,
        messages: 9,
    },
    Many {
        ports: 4,
        user_header: 0,
        payload: 1,
        messages: 1,
    },
    Many {
        ports: 2,
        user_header: 1,
        payload: 1000,
        messages: 3,
    },
];

// A subscriber holds one sample of a publisher at most.
fn sizes(many: &Many) -> LaneSizes
    ensures { 0 < result.buffer }
{
    LaneSizes {
        publishers: many.ports,
        subscribers: many.ports,
        kind: RingKind::Overflowing,
        buffer: 9,
        most_borrowed: 1,
        history: 0,
        most_loans: 1,
        slots: 41,
        user_header_words: many.user_header,
        payload_words: many.payload,
    }
}

// The first word of a message; the words of its user header and payload count on from it.
fn first_word(publisher: usize, message: u64) -> u64 {
    (publisher as u64)
        .saturating_mul(1_000_000)
        .saturating_add(message.saturating_mul(10_000))
}

// `count` words that count on from `first`.
fn words_from(alloc: Global, first: u64, count: u64) -> Result<Vec<u64>, AllocError> {
    let mut words = Vec::new(alloc);
    for place in 0..count {
        words.push(first.saturating_add(place))?;
    }
    Ok(words)
}

// Whether these are `count` words that count on from `first`.
fn are_words_from(words: &[u64], first: u64, count: u64) -> bool {
    let mut next = first;
    for word in words {
        if *word != next {
            return false;
        }
        next = next.saturating_add(1);
    }
    next == first.saturating_add(count)
}

// Whether a loan is written and sent, and each subscriber takes it.
fn is_sent(port: &mut LanePublisher, many: &Many, payload: &[u64], user_header: &[u64]) -> bool {
    let Some(LoanAnswer::Slot(loan)) = port.loan_uninit() else {
        return false;
    };
    let to_all = SendAnswer::Delivered(Delivery {
        taken: many.ports,
        refused: 0,
    });
    port.write(loan, payload, user_header) && port.send(loan) == Some(to_all)
}

// Whether a publisher's message of this number is.
fn sends(
    alloc: Global,
    port: &mut LanePublisher,
    many: &Many,
    message: u64,
) -> Result<bool, AllocError> {
    let first = first_word(port.place(), message);
    let behind = first.saturating_add(many.user_header);
    let user_header = words_from(alloc, first, many.user_header)?;
    let payload = words_from(alloc, behind, many.payload)?;
    Ok(is_sent(port, many, payload.as_slice(), user_header.as_slice()))
}

// Whether each publisher's is.
fn all_send(
    alloc: Global,
    ports: &mut [LanePublisher],
    many: &Many,
    message: u64,
) -> Result<bool, AllocError> {
    for port in ports.iter_mut() {
        if !sends(alloc, port, many, message)? {
            return Ok(false);
        }
    }
    Ok(true)
}

// Whether all messages are sent.
fn send_all(alloc: Global, ports: &mut [LanePublisher], many: &Many) -> Result<bool, AllocError> {
    for message in 0..many.messages {
        if !all_send(alloc, ports, many, message)? {
            return Ok(false);
        }
    }
    Ok(true)
}

// Whether a sample is read as the message that begins with this word, after the three words of a header.
fn is_read(port: &mut LaneSubscriber, sample: u64, many: &Many, first: u64) -> bool {
    let count = many.user_header.saturating_add(many.payload);
    port.read(sample)
        && match port.words().get(3..) {
            Some(words) => are_words_from(words, first, count),
            None => false,
        }
}

// Whether nothing is received while a sample of the last publisher is held: as many are held as may be, or no message waits.
fn is_at_its_limit(
    rt: &impl Wait,
    port: &mut LaneSubscriber,
    many: &Many,
    publisher: u64,
    message: u64,
) -> bool {
    if publisher.saturating_add(1) < many.ports {
        return true;
    }
    let wanted = if message.saturating_add(1) < many.messages {
        Receipt::ExceedsMaxBorrows
    } else {
        Receipt::Nothing
    };
    port.receive(rt) == wanted
}

// Whether the publisher's message of this number is received, read, held and released.
fn takes(
    rt: &impl Wait,
    port: &mut LaneSubscriber,
    many: &Many,
    publisher: u64,
    message: u64,
) -> bool {
    match port.receive(rt) {
        Receipt::Taken { place, slot } => {
            place == publisher
                && is_read(port, slot, many, first_word(publisher as usize, message))
                && is_at_its_limit(rt, port, many, publisher, message)
                && port.release(slot) == ReleaseAnswer::Released
        }
        _ => false,
    }
}

// Whether a subscriber takes all messages, those of the first publisher first.
fn takes_all(rt: &impl Wait, port: &mut LaneSubscriber, many: &Many) -> bool {
    for publisher in 0..many.ports {
        for message in 0..many.messages {
            if !takes(rt, port, many, publisher, message) {
                return false;
            }
        }
    }
    true
}

// Whether each subscriber does.
fn all_take(rt: &impl Wait, ports: &mut [LaneSubscriber], many: &Many) -> bool {
    for port in ports.iter_mut() {
        if !takes_all(rt, port, many) {
            return false;
        }
    }
    true
}

// New boards, of the numbers from 1 on.
fn new_boards(alloc: Global) -> Result<Vec<LaneThreads>, AllocError> {
    let mut boards = Vec::new(alloc);
    for many in &BOARDS {
        let number = (boards.len() as u64).saturating_add(1);
        boards.push(opened(alloc, number, sizes(many))?)?;
    }
    Ok(boards)
}

// Whether all messages of all boards are sent.
fn are_sent(alloc: Global, boards: &mut [LaneThreads]) -> Result<bool, AllocError> {
    for (board, many) in boards.iter_mut().zip(BOARDS.iter()) {
        if !send_all(alloc, &mut board.publishers, many)? {
            return Ok(false);
        }
    }
    Ok(true)
}

// Whether all of them are received.
fn are_taken(rt: &impl Wait, boards: &mut [LaneThreads]) -> bool {
    for (board, many) in boards.iter_mut().zip(BOARDS.iter()) {
        if !all_take(rt, &mut board.subscribers, many) {
            return false;
        }
    }
    true
}

// Whether each message of the boards is sent, and received after that.
fn pass(rt: &impl Wait, alloc: Global, boards: &mut [LaneThreads]) -> Result<bool, AllocError> {
    Ok(are_sent(alloc, boards)? && are_taken(rt, boards))
}

fn all_pass(rt: &impl Wait, alloc: Global) -> Result<bool, AllocError> {
    let mut boards = new_boards(alloc)?;
    pass(rt, alloc, boards.as_mut_slice())
}

#[test]
fn messages_pass_on_three_boards(rt: HostRuntime) -> Result<(), AllocError> {
    hold(&rt, all_pass(&rt, rt.alloc()))
}

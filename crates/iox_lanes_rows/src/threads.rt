//! What the ports of a domain send and receive in threads. Messages have sequence numbers, and ports are identified by their places.
use crate::changes::NumberThreads;
use crate::domain::in_both_words;
use crate::ending::{another, narrow, pass, pass_last};
use crate::lanes::{USER_HEADER, are_values};
use crate::typed;
use iox_lanes::{LanePublisher, LaneSubscriber, LoanAnswer, Receipt, ReleaseAnswer, SendAnswer};
use std::alloc::{AllocError, Global};
use std::sync::Wait;

/// A step of a case that ports in threads make, with its result.
#[derive(Clone, Copy)]
pub(crate) enum InThreads {
    /// A publisher sends a value, with this result.
    Sends(usize, u64, SendAnswer),
    /// A subscriber receives the message with this sequence number and this value, and releases it.
    Gets(usize, u64, u64),
    /// A subscriber receives nothing.
    Nothing(usize),
    /// The board has this many publishers and as many subscribers.
    Ports(usize),
    /// A publisher of another board is added to the ports that were taken away, as the last one.
    Another,
    /// The last publisher is taken away, and is the last one of the ports that were.
    Parts,
    /// The first publisher that was taken away comes back, as the last publisher.
    Joins,
    /// Two publishers and a subscriber with these ids refuse, send and read by their types.
    Typed([u64; 3]),
    /// The send of the publisher with this id fails at a full mailbox.
    Fails(u64),
    /// A publisher of narrower slots, of another board with the number of this one, stands in for the one with this id, and refuses a
    /// value.
    Narrow(u64),
}

// What a publisher's send of a value answers.
fn sent(port: &mut LanePublisher, value: u64) -> Option<SendAnswer> {
    let LoanAnswer::Slot(loan) = port.loan_uninit()? else {
        return None;
    };
    if port.write_values(loan, &in_both_words(value), &USER_HEADER) {
        port.send(loan)
    } else {
        None
    }
}

// Whether the send of the publisher at a place gives this answer.
fn sends(ports: &mut [LanePublisher], place: usize, value: u64, answer: SendAnswer) -> bool {
    match ports.get_mut(place) {
        Some(port) => sent(port, value) == Some(answer),
        None => false,
    }
}

// Whether a sample is read as this message, and released.
fn takes(port: &mut LaneSubscriber, sample: u64, sequence: u64, value: u64) -> bool {
    port.read(sample)
        && are_values(port.values(), sequence, value)
        && port.release(sample) == ReleaseAnswer::Released
}

// Whether the subscriber at a place receives nothing.
fn gets_nothing(rt: &impl Wait, ports: &mut [LaneSubscriber], place: usize) -> bool {
    match ports.get_mut(place) {
        Some(port) => port.receive(rt) == Receipt::Nothing,
        None => false,
    }
}

// Whether the subscriber at a place receives this message and releases it.
fn gets(
    rt: &impl Wait,
    ports: &mut [LaneSubscriber],
    place: usize,
    sequence: u64,
    value: u64,
) -> bool {
    let Some(port) = ports.get_mut(place) else {
        return false;
    };
    match port.receive(rt) {
        Receipt::Taken { slot, .. } => takes(port, slot, sequence, value),
        _ => false,
    }
}

/// Whether a step has the stated result.
pub(crate) fn goes(
    rt: &impl Wait,
    alloc: Global,
    threads: &mut Option<NumberThreads>,
    aside: &mut Vec<LanePublisher>,
    step: &InThreads,
) -> Result<bool, AllocError> {
    let Some(threads) = threads else {
        return Ok(false);
    };
    match *step {
        InThreads::Typed(ids) => Ok(typed::go(rt, threads, ids) == Some(true)),
        InThreads::Fails(id) => Ok(typed::fails(threads, id) == Some(true)),
        InThreads::Narrow(id) => {
            let narrow = narrow(alloc, 1)?;
            Ok(typed::is_refused_for_width(threads, id, narrow) == Some(true))
        }
        _ => goes_by_places(rt, alloc, threads, aside, step),
    }
}

// Whether a step of a port goes so that is at a place.
fn goes_by_places(
    rt: &impl Wait,
    alloc: Global,
    threads: &mut NumberThreads,
    aside: &mut Vec<LanePublisher>,
    step: &InThreads,
) -> Result<bool, AllocError> {
    let publishers = &mut threads.publishers;
    let subscribers = &mut threads.subscribers;
    match *step {
        InThreads::Sends(place, value, answer) => Ok(sends(publishers, place, value, answer)),
        InThreads::Gets(place, sequence, value) => Ok(gets(
            rt,
            subscribers,
            place,
            sequence,
            value,
        )),
        InThreads::Nothing(place) => Ok(gets_nothing(rt, subscribers, place)),
        InThreads::Ports(count) => Ok(publishers.len() == count && subscribers.len() == count),
        InThreads::Another => another(alloc, aside),
        InThreads::Parts => pass_last(publishers, aside),
        InThreads::Joins => pass(aside, 0, publishers),
        InThreads::Typed(_) | InThreads::Fails(_) | InThreads::Narrow(_) => Ok(false),
    }
}

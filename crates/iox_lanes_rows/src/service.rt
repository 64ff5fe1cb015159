//! A service of two publishers and two subscribers, with payloads of 8 words. One of each runs in the first thread, and the others run in a
//! second one.
ghost use Rattle.std.specs.Prelude.{◌≡◌, ◌<◌};

use crate::start::Start;
use crate::{streams, turns};
use iox_lanes::{
    LaneMachine, LanePublisher, LaneSizes, LaneSubscriber, LaneThreads, LoanAnswer, ReleaseAnswer,
    RingKind, SendAnswer, are_all, open_threads,
};
use std::alloc::{AllocError, Global};
use std::sync::Wait;
use std::thread;
use std::thread::Threads;

// This many messages may wait at a connection.
fn sizes(kind: RingKind, buffer: u64) -> LaneSizes
    ensures { result.buffer ≡ buffer }
{
    LaneSizes {
        publishers: 2,
        subscribers: 2,
        kind,
        buffer,
        most_borrowed: 2,
        history: 0,
        most_loans: 2,
        slots: 24,
        user_header_words: 0,
        payload_words: 8,
    }
}

/// The ports of lanes in threads, on a board of this number.
pub(crate) fn started(
    alloc: Global,
    board: u64,
    lanes: LaneMachine,
) -> Result<LaneThreads, AllocError> {
    match open_threads(alloc, board, lanes) {
        Ok(threads) => Ok(threads),
        Err(_) => Err(AllocError),
    }
}

/// The ports of new lanes of these sizes in threads, on a board of this number.
pub(crate) fn opened(alloc: Global, board: u64, sizes: LaneSizes) -> Result<LaneThreads, AllocError>
    requires { 0 < sizes.buffer }
{
    started(alloc, board, LaneMachine::new(alloc, sizes)?)
}

// The first two ports.
fn pair<P>(ports: &mut [P]) -> Option<(&mut P, &mut P)> {
    let (first, others) = ports.split_first_mut()?;
    Some((first, others.first_mut()?))
}

// Whether all ports came back.
fn are_back(threads: &LaneThreads) -> bool {
    are_all(&threads.board, &threads.publishers, &threads.subscribers)
}

/// Sends a payload of this word, eight times, and returns the answer of the send.
pub(crate) fn sent_eight(port: &mut LanePublisher, value: u64) -> Option<SendAnswer> {
    let LoanAnswer::Slot(loan) = port.loan_uninit()? else {
        return None;
    };
    if port.write(loan, &[value; 8], &[]) {
        port.send(loan)
    } else {
        None
    }
}

// The word that a payload has eight times over, after the three of a header.
fn eight(words: &[u64]) -> Option<u64> {
    let value = *words.get(3)?;
    if words.get(3..) == Some(&[value; 8]) {
        Some(value)
    } else {
        None
    }
}

/// The word of which a sample has eight. The sample is released.
pub(crate) fn read_eight(port: &mut LaneSubscriber, slot: u64) -> Option<u64> {
    if !port.read(slot) {
        return None;
    }
    let value = eight(port.words());
    match port.release(slot) {
        ReleaseAnswer::Released => value,
        ReleaseAnswer::NotMine | ReleaseAnswer::RingFull => None,
    }
}

/// What a publisher and a subscriber of one half do.
#[derive(Clone, Copy)]
pub(crate) enum Work {
    /// In a thread of its own each, the publisher sends numbers, and the subscriber receives those of both publishers.
    Streams,
    /// They exchange answers with the ports of the other half.
    Turns,
}

// The publisher and the subscriber of one place do their work; whether it went well.
fn works<R: Threads + Wait + Sync>(
    rt: &R,
    place: u64,
    publisher: &mut LanePublisher,
    subscriber: &mut LaneSubscriber,
    work: Work,
    start: &Start,
) -> bool {
    match work {
        Work::Streams => streams::go(rt, place, publisher, subscriber, start),
        Work::Turns => turns::go(rt, place, publisher, subscriber, start),
    }
}

// Both halves in threads of their own.
fn both_work<R: Threads + Wait + Sync>(
    rt: &R,
    publishers: &mut [LanePublisher],
    subscribers: &mut [LaneSubscriber],
    work: Work,
    start: &Start,
) -> bool {
    let Some((first, second)) = pair(publishers) else {
        return false;
    };
    let Some((here, there)) = pair(subscribers) else {
        return false;
    };
    let (one, other) = thread::join(
        rt,
        || works(rt, 0, first, here, work, start),
        || works(rt, 1, second, there, work, start),
    );
    one && other
}

/// Opens a service where at most `buffer` messages may wait at a connection, and does this work. Returns whether all results were right,
/// and all ports came back.
pub(crate) fn goes<R: Threads + Wait + Sync>(
    rt: &R,
    alloc: Global,
    kind: RingKind,
    buffer: u64,
    work: Work,
) -> Result<bool, AllocError>
    requires { 0 < buffer }
{
    let mut threads = opened(alloc, 1, sizes(kind, buffer))?;
    let start = Start::new();
    let well = both_work(
        rt,
        &mut threads.publishers,
        &mut threads.subscribers,
        work,
        &start,
    );
    start.judge(well && are_back(&threads))
}

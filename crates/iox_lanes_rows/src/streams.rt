//! Numbers through four threads: two publishers and two subscribers.
use crate::answers::hold;
use crate::service::{Work, goes, read_eight, sent_eight};
use crate::start::Start;
use iox_lanes::{LanePublisher, LaneSubscriber, Receipt, RingKind};
use std::alloc::AllocError;
use std::sync::Wait;
use std::thread;
use std::thread::Threads;

const COUNT: u64 = 500_000;

const TRIES: u64 = 1 << 26;

// The word that a publisher sends with a number.
fn word(publisher: u64, number: u64) -> u64 {
    number.saturating_mul(2).saturating_add(publisher)
}

// Sends 0 up to COUNT.
fn send_numbers(port: &mut LanePublisher, publisher: u64) -> bool {
    for number in 0..COUNT {
        if sent_eight(port, word(publisher, number)).is_none() {
            return false;
        }
    }
    true
}

// Sends the last number until both took it at once.
fn send_last(port: &mut LanePublisher, publisher: u64) -> bool {
    for _ in 0..TRIES {
        match sent_eight(port, word(publisher, COUNT)) {
            Some(told) if told.delivery().taken == 2 => return true,
            Some(_) => thread::yield_now(),
            None => return false,
        }
    }
    false
}

// Once all run, sends all; then one publisher more is done.
fn send_all(port: &mut LanePublisher, publisher: u64, start: &Start) -> bool {
    let well = start.all_begin(4) && send_numbers(port, publisher) && send_last(port, publisher);
    start.one_is_done();
    well
}

// What a subscriber saw last of each publisher.
#[derive(Clone, Copy)]
struct Seen {
    first: u64,
    second: u64,
}

// Notes a word: whether its number isn't below the last of its publisher.
fn note(seen: &mut Seen, word: u64) -> bool {
    let number = word / 2;
    let before = if word % 2 == 0 {
        &mut seen.first
    } else {
        &mut seen.second
    };
    let rises = *before <= number;
    *before = number;
    rises
}

// Reads a sample and notes its word.
fn take(port: &mut LaneSubscriber, seen: &mut Seen, slot: u64) -> bool {
    match read_eight(port, slot) {
        Some(word) => note(seen, word),
        None => false,
    }
}

// Receives until both publishers are done and nothing waits; whether all that came was well, and the last number of each came.
fn receive_numbers(rt: &impl Wait, port: &mut LaneSubscriber, start: &Start) -> bool {
    let mut seen = Seen {
        first: 0,
        second: 0,
    };
    for _ in 0..TRIES {
        let ended = start.are_done(2);
        match port.receive(rt) {
            Receipt::Taken { slot, .. } => {
                if !take(port, &mut seen, slot) {
                    return false;
                }
            }
            Receipt::Nothing if ended => return seen.first == COUNT && seen.second == COUNT,
            Receipt::Nothing => thread::yield_now(),
            Receipt::ExceedsMaxBorrows => return false,
        }
    }
    false
}

// Once all run, receives.
fn receive_all(rt: &impl Wait, port: &mut LaneSubscriber, start: &Start) -> bool {
    start.all_begin(4) && receive_numbers(rt, port, start)
}

/// Runs a publisher and a subscriber in threads of their own, while two other ports run, too.
pub(crate) fn go<R: Threads + Wait + Sync>(
    rt: &R,
    place: u64,
    publisher: &mut LanePublisher,
    subscriber: &mut LaneSubscriber,
    start: &Start,
) -> bool {
    let (sent, got) = thread::join(
        rt,
        || send_all(publisher, place, start),
        || receive_all(rt, subscriber, start),
    );
    sent && got
}

#[test]
fn numbers_rise_where_the_oldest_are_dropped(rt: HostRuntime) -> Result<(), AllocError> {
    hold(
        &rt,
        goes(&rt, rt.alloc(), RingKind::Overflowing, 8, Work::Streams),
    )
}

#[test]
fn numbers_rise_where_the_newest_are_refused(rt: HostRuntime) -> Result<(), AllocError> {
    hold(
        &rt,
        goes(&rt, rt.alloc(), RingKind::Refusing, 8, Work::Streams),
    )
}

//! Two threads that answer each other, each with a publisher and a subscriber.
use crate::answers::hold;
use crate::service::{Work, goes, read_eight, sent_eight};
use crate::start::Start;
use iox_lanes::{LanePublisher, LaneSubscriber, Receipt, RingKind};
use std::alloc::{AllocError, Global};
use std::sync::Wait;
use std::thread;
use std::thread::Threads;

const TRIES: u64 = 1 << 24;

// Receives until this word comes, and releases each sample; whether it came.
fn comes(rt: &impl Wait, port: &mut LaneSubscriber, value: u64) -> bool {
    for _ in 0..TRIES {
        match port.receive(rt) {
            Receipt::Taken { slot, .. } => match read_eight(port, slot) {
                Some(found) if found == value => return true,
                Some(_) => {}
                None => return false,
            },
            Receipt::Nothing => thread::yield_now(),
            Receipt::ExceedsMaxBorrows => return false,
        }
    }
    false
}

/// Once both threads run, the first one sends 1 and receives until it gets 2. The other one receives until it gets 1, and then sends 2.
pub(crate) fn go(
    rt: &impl Wait,
    place: u64,
    publisher: &mut LanePublisher,
    subscriber: &mut LaneSubscriber,
    start: &Start,
) -> bool {
    if !start.all_begin(2) {
        return false;
    }
    if place == 0 {
        sent_eight(publisher, 1).is_some() && comes(rt, subscriber, 2)
    } else {
        comes(rt, subscriber, 1) && sent_eight(publisher, 2).is_some()
    }
}

// Whether it goes well, be the oldest dropped at a full ring or the newest refused.
fn both_go<R: Threads + Wait + Sync>(rt: &R, alloc: Global) -> Result<bool, AllocError> {
    for kind in &[RingKind::Overflowing, RingKind::Refusing] {
        if !goes(rt, alloc, *kind, 2, Work::Turns)? {
            return Ok(false);
        }
    }
    Ok(true)
}

#[test]
fn threads_answer_each_other(rt: HostRuntime) -> Result<(), AllocError> {
    hold(&rt, both_go(&rt, rt.alloc()))
}

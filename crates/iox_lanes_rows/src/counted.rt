//! A schedule that lanes run by one call: how many of its entries are made.
use crate::answers::hold;
use crate::calls::{Asked, call};
use crate::stepping::new_lanes;
use iox_lanes::{Call, Entry, LaneMachine, LaneSizes, Lanes, Move, Party, RingKind};
use std::alloc::{AllocError, Global};

// One message may wait, and more are refused.
const SIZES: LaneSizes = LaneSizes {
    publishers: 1,
    subscribers: 1,
    kind: RingKind::Refusing,
    buffer: 1,
    most_borrowed: 1,
    history: 0,
    most_loans: 1,
    slots: 3,
    user_header_words: 0,
    payload_words: 1,
};

const PUBLISHER: Party = Party::Publisher(0);

const SUBSCRIBER: Party = Party::Subscriber(0);

// Two messages are sent, of which the second one is refused, and each holds the number of its slot. The first one is received and released.
const CALLS: [(Party, Asked, u64); 8] = [
    (PUBLISHER, Asked::Lend, 0),
    (PUBLISHER, Asked::Write, 0),
    (PUBLISHER, Asked::Send, 0),
    (PUBLISHER, Asked::Lend, 1),
    (PUBLISHER, Asked::Write, 1),
    (PUBLISHER, Asked::Send, 1),
    (SUBSCRIBER, Asked::Receive, 0),
    (SUBSCRIBER, Asked::Release, 0),
];

// A call and twelve steps after its begin, which is one more than the longest has. Those after its last step don't fit.
fn ask(schedule: &mut Vec<Entry>, party: Party, call: Call) -> Result<(), AllocError> {
    let step = Move::Begin(call);
    schedule.push(Entry { party, step })?;
    for _ in 0..12 {
        schedule.push(Entry {
            party,
            step: Move::GoOn,
        })?;
    }
    Ok(())
}

fn ask_all(alloc: Global, schedule: &mut Vec<Entry>) -> Result<(), AllocError> {
    for (party, asked, slot) in &CALLS {
        ask(schedule, *party, call(alloc, *asked, *slot, *slot)?)?;
    }
    Ok(())
}

// A loan has 4 steps, a write 3, a send 12 where there is capacity, and 10 where there is none, a receive 6 and a release 6.
const MADE: usize = 4 + 3 + 12 + 4 + 3 + 10 + 6 + 6;

fn run(lanes: &mut LaneMachine, schedule: &[Entry]) -> usize {
    lanes.run(schedule)
}

fn run_recorded(lanes: &mut Lanes, schedule: &[Entry]) -> usize {
    lanes.run(schedule)
}

// Whether lanes make this many entries of it, and so do lanes that keep messages.
fn both_make(alloc: Global, schedule: &[Entry]) -> Result<bool, AllocError> {
    let alone = run(&mut LaneMachine::new(alloc, SIZES)?, schedule);
    let recorded = run_recorded(&mut new_lanes(alloc, SIZES)?, schedule);
    Ok([alone, recorded] == [MADE, MADE])
}

fn both_run(alloc: Global) -> Result<bool, AllocError> {
    let mut schedule = Vec::new(alloc);
    ask_all(alloc, &mut schedule)?;
    both_make(alloc, &schedule)
}

#[test]
fn a_run_counts_its_steps(rt: HostRuntime) -> Result<(), AllocError> {
    hold(&rt, both_run(rt.alloc()))
}

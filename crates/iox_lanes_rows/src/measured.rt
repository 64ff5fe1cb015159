//! What a call of a port in threads takes, at few places and at many: of slots, loans, samples, messages that wait and of a history.
//!
//! A case of `./check` counts the instructions of each call whose line begins with `measure`, and the requests for memory behind each line.
ghost use Rattle.std.specs.Prelude.{◌<◌};

use iox_lanes::{
    Delivery, LaneMachine, LanePublisher, LaneSizes, LaneSubscriber, LaneThreads, LoanAnswer,
    Receipt, ReleaseAnswer, RingKind, SendAnswer, open_threads,
};
use std::alloc::{AllocError, Global};
use std::io;
use std::io::{ErrorKind, Print};
use std::process::Abort;
use std::sync::Wait;

// A call, at the slot of the last loan or of the last sample.
#[derive(Clone, Copy)]
enum Asked {
    Loan,
    Write,
    Send,
    Drop,
    Receive,
    // A receive that finds no message.
    ReceiveNothing,
    Read,
    Release,
}

// A message goes, and its slot comes back; a receive finds no other; a loan is made and dropped.
const CALLS: [(&str, Asked); 9] = [
    ("loan", Asked::Loan),
    ("write", Asked::Write),
    ("send", Asked::Send),
    ("receive", Asked::Receive),
    ("read", Asked::Read),
    ("release", Asked::Release),
    ("receive of nothing", Asked::ReceiveNothing),
    ("loan", Asked::Loan),
    ("drop", Asked::Drop),
];

// What is done many times before the calls, one after the other: messages go, samples are held, and loans are out.
const BEFORE: [(&str, usize); 3] = [("messages", 6), ("samples that are held", 5), ("loans", 1)];

fn sizes(many: u64) -> LaneSizes
    requires { 0 < many }
    ensures { 0 < result.buffer }
{
    LaneSizes {
        publishers: 1,
        subscribers: 1,
        kind: RingKind::Overflowing,
        buffer: many,
        most_borrowed: many.saturating_add(1),
        history: many,
        most_loans: many.saturating_add(1),
        slots: many.saturating_mul(4),
        user_header_words: 1,
        payload_words: 2,
    }
}

fn opened(alloc: Global, many: u64) -> Result<LaneThreads, AllocError>
    requires { 0 < many }
{
    match open_threads(alloc, 1, LaneMachine::new(alloc, sizes(many))?) {
        Ok(threads) => Ok(threads),
        Err(_) => Err(AllocError),
    }
}

fn lends(port: &mut LanePublisher, slot: &mut u64) -> bool {
    let Some(LoanAnswer::Slot(loan)) = port.loan_uninit() else {
        return false;
    };
    *slot = loan;
    true
}

fn receives(rt: &impl Wait, port: &mut LaneSubscriber, slot: &mut u64) -> bool {
    let Receipt::Taken { slot: sample, .. } = port.receive(rt) else {
        return false;
    };
    *slot = sample;
    true
}

// Whether a call is answered as it should be.
fn goes(
    rt: &impl Wait,
    publisher: &mut LanePublisher,
    subscriber: &mut LaneSubscriber,
    asked: Asked,
    slot: &mut u64,
) -> bool {
    let to_one = SendAnswer::Delivered(Delivery {
        taken: 1,
        refused: 0,
    });
    match asked {
        Asked::Loan => lends(publisher, slot),
        Asked::Write => publisher.write(*slot, &[7, 8], &[9]),
        Asked::Send => publisher.send(*slot) == Some(to_one),
        Asked::Drop => publisher.drop_loan(*slot),
        Asked::Receive => receives(rt, subscriber, slot),
        Asked::ReceiveNothing => subscriber.receive(rt) == Receipt::Nothing,
        Asked::Read => subscriber.read(*slot),
        Asked::Release => subscriber.release(*slot) == ReleaseAnswer::Released,
    }
}

// Whether so many of the calls go so many times.
fn go_many_times(
    rt: &impl Wait,
    publisher: &mut LanePublisher,
    subscriber: &mut LaneSubscriber,
    calls: usize,
    many: u64,
) -> bool {
    let mut slot = 0;
    for _ in 0..many {
        for (_, asked) in CALLS.iter().take(calls) {
            if !goes(rt, publisher, subscriber, *asked, &mut slot) {
                return false;
            }
        }
    }
    true
}

// Prints each call, and behind it whether it is answered as it should be: between the two nothing else is printed.
fn measure_calls<R: Wait + Print + Abort>(
    rt: &R,
    publisher: &mut LanePublisher,
    subscriber: &mut LaneSubscriber,
    many: u64,
) -> io::Result<()> {
    let mut slot = 0;
    for (name, asked) in &CALLS {
        print!(rt; "measure {name} at {many} ->")?;
        let well = goes(rt, publisher, subscriber, *asked, &mut slot);
        println!(rt; " {well}")?;
        assert!(rt; well);
    }
    Ok(())
}

fn measure_ports<R: Wait + Print + Abort>(
    rt: &R,
    publisher: &mut LanePublisher,
    subscriber: &mut LaneSubscriber,
    many: u64,
) -> io::Result<()> {
    for (name, calls) in &BEFORE {
        print!(rt; "measure memory of {many} {name} ->")?;
        let well = go_many_times(rt, publisher, subscriber, *calls, many);
        println!(rt; " {well}")?;
        assert!(rt; well);
        measure_calls(rt, publisher, subscriber, many)?;
    }
    Ok(())
}

fn measure<R: Wait + Print + Abort>(rt: &R, board: &mut LaneThreads, many: u64) -> io::Result<()> {
    let Some(publisher) = board.publishers.first_mut() else {
        return Err(io::Error::from(ErrorKind::NotFound));
    };
    let Some(subscriber) = board.subscribers.first_mut() else {
        return Err(io::Error::from(ErrorKind::NotFound));
    };
    measure_ports(rt, publisher, subscriber, many)
}

fn measure_at<R: Wait + Print + Abort>(rt: &R, alloc: Global, many: u64) -> io::Result<()>
    requires { 0 < many }
{
    measure(rt, &mut opened(alloc, many)?, many)
}

#[test]
fn calls_of_ports_are_measured(rt: HostRuntime) -> io::Result<()> {
    measure_at(&rt, rt.alloc(), 10)?;
    measure_at(&rt, rt.alloc(), 10_000)
}

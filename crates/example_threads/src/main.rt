//! Two sensors and two displays of one service, each in a thread of its own, with no lock between them.
//!
//! A sensor counts, and sends each number at the beginning of a message of eight words. A display has capacity for four messages of each
//! sensor; a message that arrives while it is full replaces the oldest. So a display may miss numbers, but it sees those of a sensor rise,
//! and it ends with the last number of both. The output is the same whatever the threads do.
#![tactic(auto)]

ghost use Rattle.std.specs.Prelude.{◌≡◌, ◌≤◌, IfSome};

use iox_lanes::{
    LaneMachine, LanePublisher, LaneSizes, LaneSubscriber, LaneThreads, LoanAnswer, Receipt,
    RingKind, are_all, open_threads,
};
use std::alloc::{AllocError, Global};
use std::sync::Wait;
use std::thread::Threads;
use std::{io, thread};

// The last number of a sensor, and the maximum number of times that a display looks for it.
const LAST: u64 = 1000;

const LOOKS: u64 = 1 << 24;

// What a sensor sends: a number, which sensor it is, and the number once more at the end.
type Reading = [u64; 8];

fn sizes() -> LaneSizes
    ensures { result.buffer ≡ 4 }
{
    LaneSizes {
        publishers: 2,
        subscribers: 2,
        kind: RingKind::Overflowing,
        buffer: 4,
        most_borrowed: 1,
        history: 1,
        most_loans: 1,
        slots: 12,
        user_header_words: 0,
        payload_words: 8,
    }
}

// Sends number 0, word by word; true if it was sent.
fn begin(port: &mut LanePublisher, sensor: u64) -> bool {
    let Some(LoanAnswer::Slot(loan)) = port.loan_uninit() else {
        return false;
    };
    port.write(loan, &[0, sensor, 0, 0, 0, 0, 0, 0], &[]) && port.send(loan).is_some()
}

// Sends the numbers up to the last one; returns how many were sent.
fn measure(port: &mut LanePublisher, sensor: u64) -> u64 {
    let mut sent = u64::from(begin(port, sensor));
    for number in 1..=LAST {
        let Some(LoanAnswer::Slot(loan)) = port.loan_uninit() else {
            return sent;
        };
        let reading: Reading = [number, sensor, 0, 0, 0, 0, 0, number];
        if !port.write_values(loan, &reading, &()) || port.send(loan).is_none() {
            return sent;
        }
        sent = sent.saturating_add(1);
    }
    sent
}

// The last number of each sensor.
#[derive(Clone, Copy)]
struct Shown {
    of_first: u64,
    of_second: u64,
}

// What a display shows after a message; None if the two numbers of the message differ, or are smaller than the number before.
fn after(before: &Shown, reading: &Reading) -> Option<Shown>
    ensures { IfSome result (λ next. (before.now.of_first ≤ next.of_first) × (before.now.of_second ≤ next.of_second)) }
{
    let (number, sensor) = (reading[0], reading[1]);
    if reading[7] != number {
        return None;
    }
    if sensor == 0 && number >= before.of_first {
        return Some(Shown {
            of_first: number,
            of_second: before.of_second,
        });
    }
    if sensor != 0 && number >= before.of_second {
        return Some(Shown {
            of_first: before.of_first,
            of_second: number,
        });
    }
    None
}

// What a display shows after the message that its port read last.
fn after_read(before: &Shown, port: &LaneSubscriber) -> Option<Shown> {
    let (_, reading) = port.values::<Reading, ()>()?;
    after(before, &reading)
}

// Shows the messages that arrive until the last number of both sensors has arrived.
fn display(rt: &impl Wait, port: &mut LaneSubscriber) -> Shown {
    let mut now = Shown {
        of_first: 0,
        of_second: 0,
    };
    for _ in 0..LOOKS {
        if now.of_first == LAST && now.of_second == LAST {
            return now;
        }
        let Receipt::Taken { slot, .. } = port.receive(rt) else {
            thread::yield_now();
            continue;
        };
        if port.read(slot) {
            if let Some(next) = after_read(&now, port) {
                now = next;
            }
        }
        port.release(slot);
    }
    now
}

// Whether a display ended with the last number of both sensors.
fn is_last(display: &Shown) -> bool {
    display.of_first == LAST && display.of_second == LAST
}

// Runs both sensors at once: how many numbers each sent.
fn sense<R: Threads + Sync>(rt: &R, ports: &mut [LanePublisher]) -> Option<(u64, u64)> {
    let (first, others) = ports.split_first_mut()?;
    let second = others.first_mut()?;
    Some(thread::join(rt, || measure(first, 0), || measure(second, 1)))
}

// Runs both displays at once: what each shows in the end.
fn show<R: Threads + Wait + Sync>(rt: &R, ports: &mut [LaneSubscriber]) -> Option<(Shown, Shown)> {
    let (here, elsewhere) = ports.split_first_mut()?;
    let there = elsewhere.first_mut()?;
    Some(thread::join(rt, || display(rt, here), || display(rt, there)))
}

// The lines that are printed, if there were two sensors and two displays.
fn lines(
    alloc: Global,
    sent: Option<(u64, u64)>,
    seen: Option<(Shown, Shown)>,
    back: bool,
) -> Result<String, AllocError> {
    let ((first, second), (here, there)) = sent.zip(seen).ok_or(AllocError)?;
    let (here, there) = (is_last(&here), is_last(&there));
    format!(in alloc;
        "sensors sent {first} and {second}\ndisplays ended with both last numbers: {here} and {there}\nall ports are back: {back}\n",
    )
}

// Runs all four at once, and then looks whether all ports came back.
fn run<R: Threads + Wait + Sync>(
    rt: &R,
    alloc: Global,
    threads: LaneThreads,
) -> Result<String, AllocError> {
    let LaneThreads {
        board,
        mut publishers,
        mut subscribers,
    } = threads;
    let (sent, seen) = thread::join(
        rt,
        || sense(rt, &mut publishers),
        || show(rt, &mut subscribers),
    );
    let back = are_all(&board, &publishers, &subscribers);
    lines(alloc, sent, seen, back)
}

fn report<R: Threads + Wait + Sync>(rt: &R, alloc: Global) -> Result<String, AllocError> {
    let lanes = LaneMachine::new(alloc, sizes())?;
    match open_threads(alloc, 1, lanes) {
        Ok(threads) => run(rt, alloc, threads),
        Err(_) => Err(AllocError),
    }
}

fn main(rt: HostRuntime) -> io::Result<()> {
    let text = report(&rt, rt.alloc())?;
    rt.print(&text)
}

//! The calls of lanes that keep their messages, without their contracts: callers know only what these return.
ghost use Rattle.std.specs.Prelude.{◌<◌};

use iox_lanes::{
    Answer, Call, FinishedCall, LaneMachine, LaneSizes, Lanes, Move, Party, Placed, Stepped,
};
use std::alloc::{AllocError, Global};

/// The maximum number of steps of a call of a test.
pub(crate) const MOST_STEPS: u64 = 2000;

/// Lanes of these sizes, on which nothing was done yet.
pub(crate) fn new_lanes(alloc: Global, sizes: LaneSizes) -> Result<Lanes, AllocError>
    requires { 0 < sizes.buffer }
{
    Ok(Lanes::new(alloc, LaneMachine::new(alloc, sizes)?))
}

/// Makes a step.
pub(crate) fn step(lanes: &mut Lanes, party: Party, entry: &Move) -> Stepped {
    lanes.step(party, entry)
}

/// The call that ended last.
pub(crate) fn last_call(lanes: &Lanes) -> Option<FinishedCall> {
    lanes.finished().last().copied()
}

/// The words of all reads.
pub(crate) fn words_read(lanes: &Lanes) -> &[u64] {
    lanes.lanes().words_read()
}

/// The order of a connection, by slots.
pub(crate) fn order(lanes: &Lanes, connection: u64) -> &[Placed] {
    lanes.placed(connection)
}

// Makes a step, and once more where it found no memory, by which nothing has changed.
fn step_again(lanes: &mut Lanes, party: Party, entry: &Move) -> Stepped {
    match step(lanes, party, entry) {
        Stepped::NoMemory => step(lanes, party, entry),
        stepped => stepped,
    }
}

// Goes on inside a call up to its end, and gives its answer, if it has this many steps at most, its begin among them.
fn rest(lanes: &mut Lanes, party: Party, most: u64) -> Option<Answer> {
    for _ in 1..most {
        if step_again(lanes, party, &Move::GoOn) == Stepped::Finished {
            return Some(last_call(lanes)?.answer);
        }
    }
    None
}

/// Makes a whole call of at most `most` steps, and returns its answer; None if the call isn't over then.
pub(crate) fn whole(lanes: &mut Lanes, party: Party, call: Call, most: u64) -> Option<Answer> {
    match step_again(lanes, party, &Move::Begin(call)) {
        Stepped::Went => rest(lanes, party, most),
        _ => None,
    }
}

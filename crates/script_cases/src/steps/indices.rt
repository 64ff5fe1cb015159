//! Sets of indices.
use super::{Asked, Machine};
use crate::said::{NONE, Said, UNKNOWN};
use crate::words::size;
use iox_container::{ReleaseMode, ReleaseState, UniqueIndexSetAcquireFailure};
use iox_index_steps::{Answer, Call, IndexSetMachine, Move};
use iox_queues_steps::Stepped;
use std::alloc::{AllocError, Global};

/// The set that a line names, of which no index is held.
pub(crate) fn set(alloc: Global, line: &str) -> Result<IndexSetMachine, AllocError> {
    let capacity = size(line, "capacity", 1);
    if capacity >= 1 << 24 {
        return Err(AllocError);
    }
    IndexSetMachine::new(alloc, capacity as usize, size(line, "parties", 1) as usize)
}

/// How a call releases.
pub(crate) fn mode(asked: Asked<'_>) -> ReleaseMode {
    if asked.locks {
        ReleaseMode::LockIfLastIndex
    } else {
        ReleaseMode::Default
    }
}

/// Why an index is refused.
pub(crate) fn refused(failure: UniqueIndexSetAcquireFailure) -> Said<'static> {
    match failure {
        UniqueIndexSetAcquireFailure::OutOfIndices => Said::Text("out"),
        UniqueIndexSetAcquireFailure::IsLocked => Said::Text("is-locked"),
    }
}

/// What a release left.
pub(crate) fn left(state: ReleaseState) -> Said<'static> {
    match state {
        ReleaseState::Locked => Said::Text("locked"),
        ReleaseState::Unlocked => Said::Text("unlocked"),
    }
}

// `release 5 0 lock` releases index 5, and locks the set if it is the last that is out.
fn call(asked: Asked<'_>) -> Option<Call> {
    match asked.verb {
        "acquire" => Some(Call::Acquire),
        "release" => Some(Call::Release(u32::try_from(asked.first).ok()?, mode(asked))),
        _ => None,
    }
}

fn told(answer: Answer) -> Said<'static> {
    match answer {
        Answer::Acquired(Ok(index)) => Said::Number(u64::from(index)),
        Answer::Acquired(Err(failure)) => refused(failure),
        Answer::Released(state) => left(state),
    }
}

impl Machine for IndexSetMachine {
    fn begin(&mut self, party: usize, asked: Asked<'_>) -> Stepped {
        match call(asked) {
            Some(call) => self.step(Move::Begin(party, call)),
            None => Stepped::Skipped,
        }
    }

    fn go_on(&mut self, party: usize) -> Stepped {
        self.step(Move::GoOn(party))
    }

    fn ended(&self, _party: usize) -> Said<'static> {
        self.finished()
            .last()
            .map_or(NONE, |call| told(call.answer))
    }

    fn seen(&self, what: &str, _place: u64) -> Said<'static> {
        match what {
            "steps" => Said::Number(self.events().len() as u64),
            "locked" => Said::Is(self.is_locked()),
            _ => UNKNOWN,
        }
    }
}

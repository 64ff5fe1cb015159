//! Sets of indices that know their holders.
use super::indices::{left, mode, refused};
use super::{Asked, Machine};
use crate::said::{NONE, Said, UNKNOWN};
use crate::words::size;
use iox_queues_steps::Stepped;
use iox_robust_steps::{Answer, Call, Move, RobustSetMachine};
use std::alloc::{AllocError, Global};

// Whether each index is to be freed: those that this number divides.
fn multiples(alloc: Global, capacity: u64, number: u64) -> Result<Vec<bool>, AllocError> {
    let mut are_freed = Vec::new(alloc);
    for index in 0..capacity {
        are_freed.push(index % number.max(1) == 0)?;
    }
    Ok(are_freed)
}

/// Which indices recoveries free, by the number of the list: 0, all; 1, the even ones; 2, those that 3 divides. By any other number none is
/// freed.
pub(crate) fn decisions(alloc: Global, capacity: u64) -> Result<Vec<Vec<bool>>, AllocError> {
    let mut decisions = Vec::new(alloc);
    for number in 1..4 {
        decisions.push(multiples(alloc, capacity, number)?)?;
    }
    Ok(decisions)
}

/// The set that a line names, of which no index is held.
pub(crate) fn set(alloc: Global, line: &str) -> Result<RobustSetMachine, AllocError> {
    let capacity = size(line, "capacity", 1);
    if capacity >= 1 << 62 {
        return Err(AllocError);
    }
    let decisions = decisions(alloc, capacity)?;
    let parties = size(line, "parties", 1) as usize;
    RobustSetMachine::new(alloc, capacity as usize, parties, decisions)
}

// `release 7 5 lock` releases index 5 of owner 7, `recover 7 1` those of owner 7 that list 1 says.
fn call(asked: Asked<'_>) -> Option<Call> {
    let owner = asked.first;
    match asked.verb {
        "acquire" => Some(Call::Acquire(owner)),
        "release" => Some(Call::Release(owner, asked.second, mode(asked))),
        "recover" => Some(Call::Recover(owner, asked.second as usize, mode(asked))),
        _ => None,
    }
}

fn told(answer: Answer) -> Said<'static> {
    match answer {
        Answer::Acquired(Ok(index)) => Said::Number(index),
        Answer::Acquired(Err(failure)) => refused(failure),
        Answer::Settled(state) => left(state),
    }
}

impl Machine for RobustSetMachine {
    fn begin(&mut self, party: usize, asked: Asked<'_>) -> Stepped {
        match call(asked) {
            Some(call) => self.step(Move::Begin(party, call)),
            None => Stepped::Skipped,
        }
    }

    fn go_on(&mut self, party: usize) -> Stepped {
        self.step(Move::GoOn(party))
    }

    fn ended(&self, _party: usize) -> Said<'static> {
        self.finished()
            .last()
            .map_or(NONE, |call| told(call.answer))
    }

    fn seen(&self, what: &str, _place: u64) -> Said<'static> {
        match what {
            "steps" => Said::Number(self.events().len() as u64),
            "locked" => Said::Is(self.is_locked()),
            _ => UNKNOWN,
        }
    }
}

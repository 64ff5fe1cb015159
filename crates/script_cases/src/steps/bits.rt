//! Bit sets, and sets that count up to a largest number at each place.
use super::{Asked, Machine};
use crate::said::{NONE, Said, UNKNOWN};
use crate::words::size;
use iox_queues::sets::{Answer, Call, Move, SetMachine};
use iox_queues_steps::Stepped;
use std::alloc::{AllocError, Global};

/// The empty set that a line names.
pub(crate) fn set(alloc: Global, line: &str) -> Result<SetMachine, AllocError> {
    let capacity = size(line, "capacity", 1) as usize;
    let parties = size(line, "parties", 1) as usize;
    SetMachine::new(alloc, size(line, "max", 1), capacity, parties)
}

fn call(asked: Asked<'_>) -> Option<Call> {
    match asked.verb {
        "set" => Some(Call::Set(asked.first)),
        "next" => Some(Call::ResetNext),
        "all" => Some(Call::ResetAll),
        _ => None,
    }
}

fn told(answer: Answer) -> Said<'static> {
    match answer {
        Answer::Added(counted) => Said::Is(counted),
        Answer::Taken(Some(place)) => Said::Number(place),
        Answer::Taken(None) => NONE,
        Answer::Swept => Said::Text("swept"),
    }
}

// What a place holds.
fn count(set: &SetMachine, place: u64) -> Said<'static> {
    if place < set.capacity() {
        Said::Number(set.count(place as usize))
    } else {
        NONE
    }
}

impl Machine for SetMachine {
    fn begin(&mut self, party: usize, asked: Asked<'_>) -> Stepped {
        match call(asked) {
            Some(call) => self.step(Move::Begin(party, call)),
            None => Stepped::Skipped,
        }
    }

    fn go_on(&mut self, party: usize) -> Stepped {
        self.step(Move::GoOn(party))
    }

    fn ended(&self, _party: usize) -> Said<'static> {
        self.finished()
            .last()
            .map_or(NONE, |call| told(call.answer))
    }

    fn seen(&self, what: &str, place: u64) -> Said<'static> {
        match what {
            "steps" => Said::Number(self.events().len() as u64),
            "count" => count(self, place),
            _ => UNKNOWN,
        }
    }
}

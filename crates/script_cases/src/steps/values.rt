//! A single value of several words.
use super::loaded::{loaded, values};
use super::{Asked, Machine};
use crate::said::{NONE, Said, UNKNOWN};
use crate::words::size;
use iox_index_steps::atomic::{AtomicMachine, Call, Finished, Move};
use iox_queues_steps::Stepped;
use std::alloc::{AllocError, Global};

/// A value of as many words as a line names; value 0 is current.
pub(crate) fn value(alloc: Global, line: &str) -> Result<AtomicMachine, AllocError> {
    let values = values(alloc, size(line, "words", 1))?;
    AtomicMachine::new(alloc, values, size(line, "parties", 1) as usize)
}

fn call(asked: Asked<'_>) -> Option<Call> {
    match asked.verb {
        "store" => Some(Call::Store(asked.first as usize)),
        "load" => Some(Call::Load),
        _ => None,
    }
}

// What a load found, with what it found where it had to look anew.
fn told(value: &AtomicMachine, call: &Finished) -> Said<'static> {
    match call.call {
        Call::Store(_) => Said::Text("stored"),
        Call::Load => Said::Number(loaded(value.events(), call.party, call.first, 0)),
    }
}

impl Machine for AtomicMachine {
    fn begin(&mut self, party: usize, asked: Asked<'_>) -> Stepped {
        match call(asked) {
            Some(call) => self.step(Move::Begin(party, call)),
            None => Stepped::Skipped,
        }
    }

    fn go_on(&mut self, party: usize) -> Stepped {
        self.step(Move::GoOn(party))
    }

    fn ended(&self, _party: usize) -> Said<'static> {
        match self.finished().last() {
            Some(call) => told(self, call),
            None => NONE,
        }
    }

    fn seen(&self, what: &str, _place: u64) -> Said<'static> {
        match what {
            "steps" => Said::Number(self.events().len() as u64),
            _ => UNKNOWN,
        }
    }
}

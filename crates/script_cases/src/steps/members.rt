//! Containers of members, over a set of indices that knows their holders.
ghost use Rattle.std.specs.Prelude.{◌≡◌, ◌+◌, ◌*◌, ◌<◌, ◌^◌, true};

use super::indices::{left, mode, refused};
use super::loaded::{loaded, values};
use super::robust::decisions;
use super::{Asked, Machine};
use crate::said::{NONE, Said, UNKNOWN};
use crate::words::size;
use iox_queues::values::value_of;
use iox_queues_steps::Stepped;
use iox_robust_steps::container::{
    ContainerMachine, MemberAnswer, MemberCall, MemberFinished, MemberMove,
};
use std::alloc::{AllocError, Global};

// Whether a container of this many places with values of this many words has cells below the end of their numbers.
fn has_cells(capacity: usize, width: usize) -> bool
    ensures { result ≡ true → capacity + (capacity * width + 1) < 2 ^ 62 }
{
    match capacity.checked_mul(width) {
        Some(words) => words < 1 << 60 && capacity < 1 << 60,
        None => false,
    }
}

// One of these values, where recoveries decide so.
fn container_of(
    alloc: Global,
    line: &str,
    values: Vec<Vec<u64>>,
    decisions: Vec<Vec<bool>>,
) -> Result<ContainerMachine, AllocError> {
    let capacity = size(line, "capacity", 1) as usize;
    let parties = size(line, "parties", 1) as usize;
    let width = value_of(values.as_slice(), 0).len();
    if has_cells(capacity, width) {
        ContainerMachine::new(alloc, capacity, parties, values, decisions)
    } else {
        Err(AllocError)
    }
}

/// The empty container that a line names.
pub(crate) fn container(alloc: Global, line: &str) -> Result<ContainerMachine, AllocError> {
    let values = values(alloc, size(line, "words", 1))?;
    container_of(
        alloc,
        line,
        values,
        decisions(alloc, size(line, "capacity", 1))?,
    )
}

// `add 7 3` adds value 3 for owner 7, `remove 7 5 lock` takes the member at index 5 out, `recover 7 1` those that list 1 says.
fn call(asked: Asked<'_>) -> Option<MemberCall> {
    let owner = asked.first;
    match asked.verb {
        "add" => Some(MemberCall::Add(asked.second as usize, owner)),
        "remove" => Some(MemberCall::Remove(owner, asked.second, mode(asked))),
        "recover" => Some(MemberCall::Recover(owner, asked.second as usize, mode(asked))),
        "update" => Some(MemberCall::Update),
        _ => None,
    }
}

// The answer of a call. That of a copy is what it found of all values, with what it found where it had to look anew.
fn told(container: &ContainerMachine, call: &MemberFinished) -> Said<'static> {
    match call.answer {
        MemberAnswer::Added(Ok(index)) => Said::Number(index),
        MemberAnswer::Added(Err(failure)) => refused(failure),
        MemberAnswer::Removed(state) => left(state),
        MemberAnswer::Updated(false) => NONE,
        MemberAnswer::Updated(true) => Said::Number(loaded(
            container.events(),
            call.party,
            call.first,
            container.indices().capacity(),
        )),
    }
}

impl Machine for ContainerMachine {
    fn begin(&mut self, party: usize, asked: Asked<'_>) -> Stepped {
        match call(asked) {
            Some(call) => self.step(MemberMove::Begin(party, call)),
            None => Stepped::Skipped,
        }
    }

    fn go_on(&mut self, party: usize) -> Stepped {
        self.step(MemberMove::GoOn(party))
    }

    fn ended(&self, _party: usize) -> Said<'static> {
        match self.finished().last() {
            Some(call) => told(self, call),
            None => NONE,
        }
    }

    fn seen(&self, what: &str, _place: u64) -> Said<'static> {
        match what {
            "steps" => Said::Number(self.events().len() as u64),
            "locked" => Said::Is(self.indices().is_locked()),
            _ => UNKNOWN,
        }
    }
}

//! Rings: party 0 pushes, and party 1 pops and looks.
use super::{Asked, Machine};
use crate::said::{NONE, Said, UNKNOWN};
use crate::words::size;
use iox_queues_steps::{Call, Move, Party, PopAnswer, PushAnswer, RingMachine, Stepped};
use std::alloc::{AllocError, Global};

/// The empty ring that a line names.
pub(crate) fn ring(alloc: Global, line: &str) -> Result<RingMachine, AllocError> {
    let limit = size(line, "capacity", 1);
    if limit > 0 && line.starts_with("steps overflowing") {
        RingMachine::overflowing(alloc, limit, &[])
    } else {
        RingMachine::refusing(alloc, limit, &[])
    }
}

// No case counts so far that there is no next moment.
fn stepped(ring: &mut RingMachine, step: Move) -> Stepped {
    if ring.moments() < 1 << 63 {
        ring.step(step)
    } else {
        Stepped::Skipped
    }
}

fn pushed(answer: PushAnswer) -> Said<'static> {
    match answer {
        PushAnswer::Kept => Said::Text("kept"),
        PushAnswer::LeftOut(oldest) => Said::Number(oldest),
        PushAnswer::Refused => Said::Text("refused"),
    }
}

fn popped(answer: PopAnswer) -> Said<'static> {
    match answer {
        PopAnswer::Got(Some(number)) => Said::Number(number),
        PopAnswer::Got(None) => NONE,
        PopAnswer::Saw(waits) => Said::Is(waits),
    }
}

impl Machine for RingMachine {
    fn begin(&mut self, _party: usize, asked: Asked<'_>) -> Stepped {
        match asked.verb {
            "push" => stepped(self, Move::Begin(Call::Push(asked.first))),
            "pop" => stepped(self, Move::Begin(Call::Pop)),
            "look" => stepped(self, Move::Begin(Call::Look)),
            _ => Stepped::Skipped,
        }
    }

    fn go_on(&mut self, party: usize) -> Stepped {
        let end = if party == 0 {
            Party::Producer
        } else {
            Party::Consumer
        };
        stepped(self, Move::GoOn(end))
    }

    fn ended(&self, party: usize) -> Said<'static> {
        if party == 0 {
            self.pushes()
                .last()
                .map_or(NONE, |call| pushed(call.answer))
        } else {
            self.pops().last().map_or(NONE, |call| popped(call.answer))
        }
    }

    fn seen(&self, what: &str, _place: u64) -> Said<'static> {
        match what {
            "steps" => Said::Number(self.events().len() as u64),
            _ => UNKNOWN,
        }
    }
}

//! The state of a single value's machine, and its steps.
ghost use Rattle.std.specs.Prelude.{◌≡◌, false, ◌<◌, ◌^◌, ◌++◌, IfOk, OnOk, length, true, vec_len, vec_capacity};
ghost use Rattle.iox_index_steps.specs.AtomicMachine.{StepsTo, begun, call_ended, ends, fits, happens, idle_seat, may_begin};
ghost use Rattle.iox_index_steps.specs.AtomicMachine.{producer_after, producer_begun, seat_at, start, start_words};
ghost use Rattle.iox_index_steps.specs.AtomicMachine.{stage_at, went};
ghost use Rattle.iox_index_steps.specs.AtomicSteps.{call_is_over};
ghost use Rattle.iox_queues.specs.Values.{table_value};
ghost use Rattle.iox_index_steps.specs.AtomicView.{machine_of};

use super::call::{AtomicCall, Call};
use super::{Finished, Move};
use iox_queues::sets::Event;
use iox_queues::values::value_of;
use iox_queues_steps::{Access, Ring, Stepped};
use std::alloc::{AllocError, Global};

/// The stage of a party's call, and the number of the call's first step.
#[derive(Clone, Copy)]
pub struct Seat {
    /// The stage of the party's call.
    pub stage: AtomicCall,
    /// The number of the first step of this call.
    pub first: u64,
}

#[derive(Drop)]
pub(crate) struct State {
    // The values that may be stored, each with as many words as the first, which is current at first.
    pub(crate) values: Vec<Vec<u64>>,
    // Two halves that hold the value alternately, and a spare cell. The write position of the ring stores the counter.
    pub(crate) ring: Ring,
    // The party whose store is in progress.
    pub(crate) producer: Option<usize>,
    pub(crate) seats: Vec<Seat>,
    pub(crate) events: Vec<Event>,
    pub(crate) finished: Vec<Finished>,
}

impl State {
    pub(crate) fn new(
        alloc: Global,
        values: Vec<Vec<u64>>,
        parties: usize,
    ) -> Result<State, AllocError>
        ensures { IfOk result (λ s. machine_of s ≡ start values.items parties) }
    {
        let ring = ring_of(alloc, first_of(values.as_slice()))?;
        Ok(State {
            values,
            ring,
            producer: None,
            seats: vec![in alloc; idle(); parties]?,
            events: Vec::new(alloc),
            finished: Vec::new(alloc),
        })
    }

    // How many words each value has.
    fn width(&self) -> usize
        ensures width { result ≡ length (table_value self.now.values.items 0) }
        ensures small { result < 2 ^ 62 }
    {
        first_of(self.values.as_slice()).len()
    }

    fn seat(&self, party: usize) -> Seat
        ensures { result ≡ seat_at self.now.seats.items party }
    {
        match self.seats.get(party) {
            Some(seat) => *seat,
            None => idle(),
        }
    }

    fn stage(&self, party: usize) -> AtomicCall
        ensures { result ≡ stage_at self.now.seats.items party }
    {
        self.seat(party).stage
    }

    fn may_begin(&self, call: Call) -> bool
        ensures { result ≡ may_begin (machine_of self.now) call }
    {
        match call {
            Call::Store(number) => {
                self.producer.is_none()
                    && value_of(self.values.as_slice(), number).len() == self.width()
            }
            Call::Load => true,
        }
    }

    fn fits(&self, step: Move) -> bool
        ensures { result ≡ fits (machine_of self.now) step }
    {
        match step {
            Move::Begin(party, call) => {
                party < self.seats.len() && self.stage(party).is_idle() && self.may_begin(call)
            }
            Move::GoOn(party) => party < self.seats.len() && !self.stage(party).is_idle(),
        }
    }

    fn ends(&self, step: Move) -> bool
        ensures { result ≡ ends (machine_of self.now) step }
    {
        match step {
            Move::Begin(_, _) => false,
            Move::GoOn(party) => self.stage(party).is_over(),
        }
    }

    // Reserves memory for one step, and for the call that finishes with it.
    fn reserve(&mut self, ends: bool) -> Result<(), AllocError>
        ensures same { machine_of self.new ≡ machine_of self.old }
        ensures event { OnOk result (vec_len self.new.events < vec_capacity self.new.events) }
        ensures call { OnOk result (ends ≡ true → vec_len self.new.finished < vec_capacity self.new.finished) }
    {
        if ends {
            self.finished.reserve(1)?;
        }
        self.events.reserve(1)
    }

    fn begin(&mut self, party: usize, call: Call)
        requires there { party < length self.old.seats.items }
        requires room { vec_len self.old.events < vec_capacity self.old.events }
        ensures { machine_of self.new ≡ begun (machine_of self.old) party call }
    {
        self.producer = producer_begun(self.producer, party, call);
        self.seats[party] = Seat {
            stage: AtomicCall::begin(call),
            first: self.events.len() as u64,
        };
        self.events.push_reserved(Event {
            party,
            access: Access::Local,
            answer: 0,
        });
    }

    fn go_on(&mut self, party: usize)
        requires there { party < length self.old.seats.items }
        requires room { vec_len self.old.events < vec_capacity self.old.events }
        requires call { ends (machine_of self.old) (Move.GoOn party) ≡ true → vec_len self.old.finished < vec_capacity self.old.finished }
        requires cells { 0 < length self.old.ring.cells }
        ensures { machine_of self.new ≡ went (machine_of self.old) party }
    {
        let seat = self.seat(party);
        let width = self.width();
        end_call(&mut self.finished, party, seat, self.events.len() as u64);
        let access = seat.stage.next(width, self.values.as_slice());
        let answer = self.ring.apply(access);
        self.producer = producer_after(self.producer, seat.stage);
        self.seats[party] = Seat {
            stage: seat.stage.take(width, answer),
            first: seat.first,
        };
        self.events.push_reserved(Event {
            party,
            access,
            answer,
        });
    }

    fn happen(&mut self, step: Move)
        requires fit { fits (machine_of self.old) step ≡ true }
        requires room { vec_len self.old.events < vec_capacity self.old.events }
        requires call { ends (machine_of self.old) step ≡ true → vec_len self.old.finished < vec_capacity self.old.finished }
        requires cells { 0 < length self.old.ring.cells }
        ensures { machine_of self.new ≡ happens (machine_of self.old) step }
    {
        match step {
            Move::Begin(party, call) => self.begin(party, call),
            Move::GoOn(party) => self.go_on(party),
        }
    }

    /// Makes one step.
    pub(crate) fn step(&mut self, step: Move) -> Stepped
        requires { 0 < length self.old.ring.cells }
        ensures { StepsTo (machine_of self.old) step result (machine_of self.new) }
    {
        if !self.fits(step) {
            return Stepped::Skipped;
        }
        let ends = self.ends(step);
        if self.reserve(ends).is_err() {
            return Stepped::NoMemory;
        }
        self.happen(step);
        if ends {
            Stepped::Finished
        } else {
            Stepped::Went
        }
    }
}

fn first_of(values: &[Vec<u64>]) -> &[u64]
    ensures { result.now ≡ table_value values.now 0 }
{
    value_of(values, 0)
}

// The initial words: both halves hold these words, and the counter says that the first half is current.
fn ring_of(alloc: Global, words: &[u64]) -> Result<Ring, AllocError>
    ensures { IfOk result (λ ring. ring ≡ start_words words.now) }
{
    let mut cells = Vec::from_slice(alloc, words)?;
    cells.extend_from_slice(words)?;
    cells.push(0)?;
    Ok(Ring::new(cells, 1, 0))
}

// The producer after the party began this call.
fn producer_begun(producer: Option<usize>, party: usize, call: Call) -> Option<usize>
    ensures { result ≡ producer_begun producer party call }
{
    match call {
        Call::Store(_) => Some(party),
        Call::Load => producer,
    }
}

// The producer after a party at this stage made its next step.
fn producer_after(producer: Option<usize>, stage: AtomicCall) -> Option<usize>
    ensures { result ≡ producer_after producer stage }
{
    match stage {
        AtomicCall::Done {
            call: Call::Store(_),
        } => None,
        _ => producer,
    }
}

fn idle() -> Seat
    ensures { result ≡ idle_seat }
{
    Seat {
        stage: AtomicCall::Idle,
        first: 0,
    }
}

// Records the call, if it is finished.
fn end_call(finished: &mut Vec<Finished>, party: usize, seat: Seat, last: u64)
    requires { call_is_over seat.stage ≡ true → vec_len finished.old < vec_capacity finished.old }
    ensures { finished.new.items ≡ finished.old.items ++ call_ended party seat.first last seat.stage }
{
    if let AtomicCall::Done { call } = seat.stage {
        finished.push_reserved(Finished {
            party,
            call,
            first: seat.first,
            last,
        });
    }
}

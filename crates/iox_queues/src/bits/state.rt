//! The state of a set's machine, and its steps.
ghost use Rattle.std.specs.Prelude.{◌≡◌, ℕ, false, ◌+◌, ◌≤◌, ◌<◌, ◌++◌, IfOk, OnOk, length, slice_index, true, vec_len, vec_capacity};
ghost use Rattle.iox_queues.specs.Machine.{StepsTo, begun, call_ended, ends, fits, happens, idle_seat, is_within, seat_at, start};
ghost use Rattle.iox_queues.specs.Machine.{stage_at, went};
ghost use Rattle.iox_queues.specs.Steps.{call_is_over, call_next, is_apart};
ghost use Rattle.iox_queues_steps.specs.Access.{after_access, answer_of};

use crate::bits::call::{Call, SetCall};
use crate::bits::machine::{Event, Finished, Move};
use iox_queues_steps::{Access, Ring, Stepped, Word};
use std::alloc::{AllocError, Global};

/// The stage of a party's call, and the number of the call's first step.
#[derive(Clone, Copy)]
pub struct Seat {
    /// The stage of the party's call.
    pub stage: SetCall,
    /// The number of the first step of this call.
    pub first: u64,
}

#[derive(Drop)]
pub(crate) struct State {
    pub(crate) max: u64,
    pub(crate) ring: Ring,
    pub(crate) capacity: u64,
    pub(crate) seats: Vec<Seat>,
    pub(crate) events: Vec<Event>,
    pub(crate) finished: Vec<Finished>,
}

impl State {
    ghost use Rattle.iox_queues.specs.State.{machine_of};

    pub(crate) fn new(
        alloc: Global,
        max: u64,
        capacity: usize,
        parties: usize,
    ) -> Result<State, AllocError>
        ensures state { IfOk result (λ s. machine_of s ≡ start max capacity parties) }
        ensures capacity { IfOk result (λ s. s.capacity ≡ capacity) }
    {
        let cells = vec![in alloc; 0; capacity]?;
        let seats = vec![in alloc; idle(); parties]?;
        Ok(State {
            max,
            ring: Ring::new(cells, 0, 0),
            capacity: capacity as u64,
            seats,
            events: Vec::new(alloc),
            finished: Vec::new(alloc),
        })
    }

    fn seat(&self, party: usize) -> Seat
        ensures { result ≡ seat_at self.now.seats.items party }
    {
        match self.seats.get(party) {
            Some(seat) => *seat,
            None => idle(),
        }
    }

    pub(crate) fn stage(&self, party: usize) -> SetCall
        ensures { result ≡ stage_at self.now.seats.items party }
    {
        self.seat(party).stage
    }

    pub(crate) fn count(&self, place: usize) -> u64
        requires { place < length self.now.ring.cells }
        ensures { result ≡ slice_index self.now.ring.cells place }
    {
        self.ring.word(Word::Cell(place as u64))
    }

    fn is_within(&self, call: Call) -> bool
        ensures { result ≡ is_within self.now.capacity call }
    {
        match call {
            Call::Set(place) => place < self.capacity,
            Call::ResetNext | Call::ResetAll => true,
        }
    }

    fn fits(&self, step: Move) -> bool
        requires { length self.now.ring.cells ≡ self.now.capacity }
        ensures { result ≡ fits (machine_of self.now) step }
    {
        match step {
            Move::Begin(party, call) => {
                party < self.seats.len() && self.stage(party).is_idle() && self.is_within(call)
            }
            Move::GoOn(party) => party < self.seats.len() && !self.stage(party).is_idle(),
        }
    }

    fn ends(&self, step: Move) -> bool
        ensures { result ≡ ends (machine_of self.now) step }
    {
        match step {
            Move::Begin(_, _) => false,
            Move::GoOn(party) => self.stage(party).is_over(),
        }
    }

    // Reserves memory for one step, and for the call that finishes with it.
    fn reserve(&mut self, ends: bool) -> Result<(), AllocError>
        ensures same { machine_of self.new ≡ machine_of self.old }
        ensures capacity { self.new.capacity ≡ self.old.capacity }
        ensures event { OnOk result (vec_len self.new.events < vec_capacity self.new.events) }
        ensures call { OnOk result (ends ≡ true → vec_len self.new.finished < vec_capacity self.new.finished) }
    {
        if ends {
            self.finished.reserve(1)?;
        }
        self.events.reserve(1)
    }

    fn begin(&mut self, party: usize, call: Call)
        requires there { party < length self.old.seats.items }
        requires room { vec_len self.old.events < vec_capacity self.old.events }
        requires whole { length self.old.ring.cells ≡ self.old.capacity }
        ensures machine { machine_of self.new ≡ begun (machine_of self.old) party call }
        ensures capacity { self.new.capacity ≡ self.old.capacity }
    {
        self.seats[party] = Seat {
            stage: SetCall::begin(call, self.max, self.capacity),
            first: self.events.len() as u64,
        };
        self.events.push_reserved(Event {
            party,
            access: Access::Local,
            answer: 0,
        });
    }

    fn go_on(&mut self, party: usize)
        requires there { party < length self.old.seats.items }
        requires room { vec_len self.old.events < vec_capacity self.old.events }
        requires call { ends (machine_of self.old) (Move.GoOn party) ≡ true → vec_len self.old.finished < vec_capacity self.old.finished }
        requires cells { (party : ℕ) → is_apart (call_next (stage_at self.old.seats.items party)) ≡ false → 0 < length self.old.ring.cells }
        ensures machine { machine_of self.new ≡ went (machine_of self.old) party }
        ensures capacity { self.new.capacity ≡ self.old.capacity }
    {
        let seat = self.seat(party);
        end_call(&mut self.finished, party, seat, self.events.len() as u64);
        let access = seat.stage.next();
        let answer = apply(&mut self.ring, access);
        self.seats[party] = Seat {
            stage: seat.stage.take(answer),
            first: seat.first,
        };
        self.events.push_reserved(Event {
            party,
            access,
            answer,
        });
    }

    fn happen(&mut self, step: Move)
        requires fit { fits (machine_of self.old) step ≡ true }
        requires room { vec_len self.old.events < vec_capacity self.old.events }
        requires call { ends (machine_of self.old) step ≡ true → vec_len self.old.finished < vec_capacity self.old.finished }
        requires whole { length self.old.ring.cells ≡ self.old.capacity }
        requires cells { (party : ℕ) → is_apart (call_next (stage_at self.old.seats.items party)) ≡ false → 0 < length self.old.ring.cells }
        ensures machine { machine_of self.new ≡ happens (machine_of self.old) step }
        ensures capacity { self.new.capacity ≡ self.old.capacity }
    {
        match step {
            Move::Begin(party, call) => self.begin(party, call),
            Move::GoOn(party) => self.go_on(party),
        }
    }

    /// Makes one step.
    pub(crate) fn step(&mut self, step: Move) -> Stepped
        requires whole { length self.old.ring.cells ≡ self.old.capacity }
        requires cells { (party : ℕ) → is_apart (call_next (stage_at self.old.seats.items party)) ≡ false → 0 < length self.old.ring.cells }
        ensures steps { StepsTo (machine_of self.old) step result (machine_of self.new) }
        ensures capacity { self.new.capacity ≡ self.old.capacity }
    {
        if !self.fits(step) {
            return Stepped::Skipped;
        }
        let ends = self.ends(step);
        if self.reserve(ends).is_err() {
            return Stepped::NoMemory;
        }
        self.happen(step);
        if ends {
            Stepped::Finished
        } else {
            Stepped::Went
        }
    }
}

// Makes the access, and returns its result. Some accesses touch no cell, and then the set needs none.
fn apply(ring: &mut Ring, access: Access) -> u64
    requires { is_apart access ≡ false → 0 < length ring.old.cells }
    ensures answer { result ≡ answer_of ring.old access }
    ensures after { ring.new ≡ after_access ring.old access }
{
    match access {
        Access::Local => 0,
        Access::Load(Word::Read) => ring.read(),
        access => ring.apply(access),
    }
}

fn idle() -> Seat
    ensures { result ≡ idle_seat }
{
    Seat {
        stage: SetCall::Idle,
        first: 0,
    }
}

// Records the call, if it is finished.
fn end_call(finished: &mut Vec<Finished>, party: usize, seat: Seat, last: u64)
    requires { call_is_over seat.stage ≡ true → vec_len finished.old < vec_capacity finished.old }
    ensures { finished.new.items ≡ finished.old.items ++ call_ended party seat.first last seat.stage }
{
    if let SetCall::Done { call, answer } = seat.stage {
        finished.push_reserved(Finished {
            party,
            call,
            answer,
            first: seat.first,
            last,
        });
    }
}

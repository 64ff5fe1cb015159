//! The state of an index set's machine, and its steps.
ghost use Rattle.std.specs.Prelude.{◌≡◌, ℕ, false, ◌+◌, ◌≤◌, ◌<◌, ◌++◌, ◌^◌, IfOk, OnOk, length, set, true, vec_len, vec_capacity};
ghost use Rattle.std.specs.List.{range_with_len};
ghost use Rattle.iox_index_steps.specs.Machine.{StepsTo, begun, call_ended, ends, fits, happens, holders_after, idle_seat, is_locked};
ghost use Rattle.iox_index_steps.specs.Machine.{may_begin, seat_at, start, stage_at, went};
ghost use Rattle.iox_index_steps.specs.Steps.{call_is_over, call_next, saw_index};
ghost use Rattle.iox_queues_steps.specs.Access.{after_access, answer_of};

use crate::call::{Call, IndexCall, is_locked_by};
use crate::machine::{Finished, Move};
use iox_container::HeadDetails;
use iox_queues::sets::Event;
use iox_queues_steps::{Access, Ring, Stepped, Word};
use std::alloc::{AllocError, Global};

/// The stage of a party's call, and the number of the call's first step.
#[derive(Clone, Copy)]
pub struct Seat {
    /// The stage of the party's call.
    pub stage: IndexCall,
    /// The number of the first step of this call.
    pub first: u64,
}

#[derive(Drop)]
pub(crate) struct State {
    // The read position of the ring stores the head.
    pub(crate) ring: Ring,
    pub(crate) capacity: u64,
    pub(crate) seats: Vec<Seat>,
    // The party that took each index, until it releases the index.
    pub(crate) holders: Vec<Option<usize>>,
    pub(crate) events: Vec<Event>,
    pub(crate) finished: Vec<Finished>,
}

impl State {
    ghost use Rattle.iox_index_steps.specs.State.{machine_of};

    pub(crate) fn new(alloc: Global, capacity: usize, parties: usize) -> Result<State, AllocError>
        requires { capacity < 2 ^ 24 }
        ensures state { IfOk result (λ s. machine_of s ≡ start capacity parties) }
        ensures capacity { IfOk result (λ s. s.capacity ≡ capacity) }
    {
        let head = HeadDetails {
            head: 0,
            aba: 0,
            borrowed_indices: 0,
        };
        let cells = links(alloc, capacity)?;
        let seats = vec![in alloc; idle(); parties]?;
        let holders = vec![in alloc; None; capacity]?;
        Ok(State {
            ring: Ring::new(cells, 0, head.value()),
            capacity: capacity as u64,
            seats,
            holders,
            events: Vec::new(alloc),
            finished: Vec::new(alloc),
        })
    }

    fn seat(&self, party: usize) -> Seat
        ensures { result ≡ seat_at self.now.seats.items party }
    {
        match self.seats.get(party) {
            Some(seat) => *seat,
            None => idle(),
        }
    }

    pub(crate) fn stage(&self, party: usize) -> IndexCall
        ensures { result ≡ stage_at self.now.seats.items party }
    {
        self.seat(party).stage
    }

    pub(crate) fn is_locked(&self) -> bool
        requires { length self.now.ring.cells ≡ self.now.capacity }
        ensures { result ≡ is_locked (machine_of self.now) }
    {
        is_locked_by(self.capacity, self.ring.read())
    }

    fn may_begin(&self, party: usize, call: Call) -> bool
        ensures { result ≡ may_begin self.now.holders.items party call }
    {
        match call {
            Call::Acquire => true,
            Call::Release(index, _) => match self.holders.get(index as usize) {
                Some(Some(holder)) => *holder == party,
                _ => false,
            },
        }
    }

    fn fits(&self, step: Move) -> bool
        ensures { result ≡ fits (machine_of self.now) step }
    {
        match step {
            Move::Begin(party, call) => {
                party < self.seats.len()
                    && self.stage(party).is_idle()
                    && self.may_begin(party, call)
            }
            Move::GoOn(party) => party < self.seats.len() && !self.stage(party).is_idle(),
        }
    }

    fn ends(&self, step: Move) -> bool
        ensures { result ≡ ends (machine_of self.now) step }
    {
        match step {
            Move::Begin(_, _) => false,
            Move::GoOn(party) => self.stage(party).is_over(),
        }
    }

    // Reserves memory for one step, and for the call that finishes with it.
    fn reserve(&mut self, ends: bool) -> Result<(), AllocError>
        ensures same { machine_of self.new ≡ machine_of self.old }
        ensures capacity { self.new.capacity ≡ self.old.capacity }
        ensures event { OnOk result (vec_len self.new.events < vec_capacity self.new.events) }
        ensures call { OnOk result (ends ≡ true → vec_len self.new.finished < vec_capacity self.new.finished) }
    {
        if ends {
            self.finished.reserve(1)?;
        }
        self.events.reserve(1)
    }

    fn begin(&mut self, party: usize, call: Call)
        requires there { party < length self.old.seats.items }
        requires room { vec_len self.old.events < vec_capacity self.old.events }
        requires whole { length self.old.ring.cells ≡ self.old.capacity }
        ensures machine { machine_of self.new ≡ begun (machine_of self.old) party call }
        ensures capacity { self.new.capacity ≡ self.old.capacity }
    {
        self.seats[party] = Seat {
            stage: IndexCall::begin(call, self.capacity),
            first: self.events.len() as u64,
        };
        self.events.push_reserved(Event {
            party,
            access: Access::Local,
            answer: 0,
        });
    }

    fn go_on(&mut self, party: usize)
        requires there { party < length self.old.seats.items }
        requires room { vec_len self.old.events < vec_capacity self.old.events }
        requires call { ends (machine_of self.old) (Move.GoOn party) ≡ true → vec_len self.old.finished < vec_capacity self.old.finished }
        requires cells { (party : ℕ) → saw_index (stage_at self.old.seats.items party) ≡ true → 0 < length self.old.ring.cells }
        ensures machine { machine_of self.new ≡ went (machine_of self.old) party }
        ensures capacity { self.new.capacity ≡ self.old.capacity }
    {
        let seat = self.seat(party);
        end_call(&mut self.finished, party, seat, self.events.len() as u64);
        let access = seat.stage.next();
        let answer = apply(&mut self.ring, seat.stage, access);
        change_holder(&mut self.holders, party, seat.stage, answer);
        self.seats[party] = Seat {
            stage: seat.stage.take(answer),
            first: seat.first,
        };
        self.events.push_reserved(Event {
            party,
            access,
            answer,
        });
    }

    fn happen(&mut self, step: Move)
        requires fit { fits (machine_of self.old) step ≡ true }
        requires room { vec_len self.old.events < vec_capacity self.old.events }
        requires call { ends (machine_of self.old) step ≡ true → vec_len self.old.finished < vec_capacity self.old.finished }
        requires whole { length self.old.ring.cells ≡ self.old.capacity }
        requires cells { (party : ℕ) → saw_index (stage_at self.old.seats.items party) ≡ true → 0 < length self.old.ring.cells }
        ensures machine { machine_of self.new ≡ happens (machine_of self.old) step }
        ensures capacity { self.new.capacity ≡ self.old.capacity }
    {
        match step {
            Move::Begin(party, call) => self.begin(party, call),
            Move::GoOn(party) => self.go_on(party),
        }
    }

    /// Makes one step.
    pub(crate) fn step(&mut self, step: Move) -> Stepped
        requires whole { length self.old.ring.cells ≡ self.old.capacity }
        requires cells { (party : ℕ) → saw_index (stage_at self.old.seats.items party) ≡ true → 0 < length self.old.ring.cells }
        ensures steps { StepsTo (machine_of self.old) step result (machine_of self.new) }
        ensures capacity { self.new.capacity ≡ self.old.capacity }
    {
        if !self.fits(step) {
            return Stepped::Skipped;
        }
        let ends = self.ends(step);
        if self.reserve(ends).is_err() {
            return Stepped::NoMemory;
        }
        self.happen(step);
        if ends {
            Stepped::Finished
        } else {
            Stepped::Went
        }
    }
}

// Makes the access of the stage, and returns its result. A call that saw no index touches no cell, and then the set needs none.
fn apply(ring: &mut Ring, stage: IndexCall, access: Access) -> u64
    requires asked { access ≡ call_next stage }
    requires cells { saw_index stage ≡ true → 0 < length ring.old.cells }
    ensures answer { result ≡ answer_of ring.old access }
    ensures after { ring.new ≡ after_access ring.old access }
{
    match access {
        Access::Local => 0,
        Access::Load(Word::Read) => ring.read(),
        access => ring.apply(access),
    }
}

// The holder of each index after an exchange of the head, which may have failed.
fn change_holder(holders: &mut Vec<Option<usize>>, party: usize, stage: IndexCall, answer: u64)
    ensures { holders.new.items ≡ holders_after holders.old.items party stage answer }
{
    match stage {
        IndexCall::Take { word, .. } if answer == word => {
            put(holders, HeadDetails::from(word).head, Some(party));
        }
        IndexCall::Give { index, word, .. } if answer == word => put(holders, index, None),
        _ => {}
    }
}

fn put(holders: &mut Vec<Option<usize>>, index: u32, holder: Option<usize>)
    ensures { holders.new.items ≡ set holders.old.items index holder }
{
    let index = index as usize;
    if index < holders.len() {
        holders[index] = holder;
    }
}

// The initial links: each index leads to the next one.
fn links(alloc: Global, capacity: usize) -> Result<Vec<u64>, AllocError>
    requires { capacity < 2 ^ 24 }
    ensures { IfOk result (λ links. links.items ≡ range_with_len 1 capacity) }
{
    let mut links = Vec::with_capacity(alloc, capacity)?;
    for index in 0..capacity {
        links.push_reserved(index as u64 + 1);
    }
    Ok(links)
}

fn idle() -> Seat
    ensures { result ≡ idle_seat }
{
    Seat {
        stage: IndexCall::Idle,
        first: 0,
    }
}

// Records the call, if it is finished.
fn end_call(finished: &mut Vec<Finished>, party: usize, seat: Seat, last: u64)
    requires { call_is_over seat.stage ≡ true → vec_len finished.old < vec_capacity finished.old }
    ensures { finished.new.items ≡ finished.old.items ++ call_ended party seat.first last seat.stage }
{
    if let IndexCall::Done { call, answer } = seat.stage {
        finished.push_reserved(Finished {
            party,
            call,
            answer,
            first: seat.first,
            last,
        });
    }
}

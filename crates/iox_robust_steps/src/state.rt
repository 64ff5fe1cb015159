//! The state of the machine of a set that knows the owner of each held index, and its steps.
ghost use Rattle.std.specs.Prelude.{◌≡◌, ℕ, false, ◌+◌, ◌<◌, ◌^◌, ◌++◌, ◌&&◌, IfOk, OnOk, length, not, set, true, vec_len, vec_capacity};
ghost use Rattle.iox_queues_steps.specs.Access.{after_access, answer_of};
ghost use Rattle.iox_robust_steps.specs.Changes.{is_owner};
ghost use Rattle.iox_robust_steps.specs.Machine.{StepsTo, begun, call_ended, ends, fits, happens, idle_seat, is_halted, is_holder};
ghost use Rattle.iox_robust_steps.specs.Machine.{is_locked, is_lost, may_begin, place_of, places_after, seat_at, stage_at, start, went};
ghost use Rattle.iox_robust_steps.specs.Steps.{call_is_over};

use crate::call::{Call, RobustCall};
use crate::machine::{Finished, Move};
use iox_queues::sets::Event;
use iox_queues_steps::{Access, Ring, Stepped, Word};
use std::alloc::{AllocError, Global};

/// The stage of a party's call, and the number of the call's first step.
#[derive(Clone, Copy)]
pub struct Seat {
    /// The stage of the party's call.
    pub stage: RobustCall,
    /// The number of the first step of this call.
    pub first: u64,
}

/// How far an acquire of an index has come, and of which party.
#[derive(Clone, Copy)]
pub enum Place {
    /// Nobody holds the index, or is about to take it.
    Empty,
    /// The party has reserved the cell.
    Claimed(usize),
    /// The party has reserved the cell and raised the count.
    Counted(usize),
    /// The party has taken the index.
    Held(usize),
}

#[derive(Drop)]
pub(crate) struct State {
    pub(crate) capacity: u64,
    // The decisions of recoveries on each index, as numbered lists.
    pub(crate) decisions: Vec<Vec<bool>>,
    // Whether a step may insist on freeing an index against the decisions.
    pub(crate) may_insist: bool,
    // The read position of the ring stores the count. The cells of the indices are followed by a spare one.
    pub(crate) ring: Ring,
    pub(crate) seats: Vec<Seat>,
    pub(crate) places: Vec<Place>,
    // The owners whose recovery has begun.
    pub(crate) lost: Vec<u64>,
    pub(crate) events: Vec<Event>,
    pub(crate) finished: Vec<Finished>,
}

impl State {
    ghost use Rattle.iox_robust_steps.specs.State.{machine_of};

    pub(crate) fn new(
        alloc: Global,
        capacity: usize,
        parties: usize,
        decisions: Vec<Vec<bool>>,
        may_insist: bool,
    ) -> Result<State, AllocError>
        requires { capacity < 2 ^ 62 }
        ensures { IfOk result (λ s. machine_of s ≡ start capacity parties decisions.items may_insist) }
    {
        let cells = vec![in alloc; 0; capacity + 1]?;
        let places = vec![in alloc; Place::Empty; capacity]?;
        let seats = vec![in alloc; idle(); parties]?;
        Ok(State {
            capacity: capacity as u64,
            decisions,
            may_insist,
            ring: Ring::new(cells, 0, 0),
            seats,
            places,
            lost: Vec::new(alloc),
            events: Vec::new(alloc),
            finished: Vec::new(alloc),
        })
    }

    fn seat(&self, party: usize) -> Seat
        ensures { result ≡ seat_at self.now.seats.items party }
    {
        match self.seats.get(party) {
            Some(seat) => *seat,
            None => idle(),
        }
    }

    pub(crate) fn stage(&self, party: usize) -> RobustCall
        ensures { result ≡ stage_at self.now.seats.items party }
    {
        self.seat(party).stage
    }

    pub(crate) fn is_locked(&self) -> bool
        ensures { result ≡ is_locked (machine_of self.now) }
    {
        self.ring.read() == u64::MAX
    }

    fn place(&self, index: u64) -> Place
        ensures { result ≡ place_of self.now.places.items index }
    {
        match self.places.get(index as usize) {
            Some(place) => *place,
            None => Place::Empty,
        }
    }

    pub(crate) fn is_lost(&self, owner: u64) -> bool
        ensures { result ≡ is_lost owner self.now.lost.items }
    {
        self.lost.contains(&owner)
    }

    // Whether the owner is valid and its recovery hasn't begun.
    fn may_act(&self, owner: u64) -> bool
        ensures { result ≡ (is_owner owner && not (is_lost owner self.now.lost.items)) }
    {
        is_owner(owner) && !self.is_lost(owner)
    }

    fn is_halted(&self, stage: RobustCall) -> bool
        ensures { result ≡ is_halted self.now.lost.items stage }
    {
        match stage {
            RobustCall::Acquire { owner }
            | RobustCall::Claim { owner, .. }
            | RobustCall::Count { owner, .. }
            | RobustCall::Confirm { owner, .. }
            | RobustCall::Undo { owner, .. }
            | RobustCall::Free { owner, .. } => self.is_lost(owner),
            _ => false,
        }
    }

    fn may_begin(&self, party: usize, call: Call) -> bool
        requires { 0 < length self.now.ring.cells }
        ensures { result ≡ may_begin (machine_of self.now) party call }
    {
        match call {
            Call::Acquire(owner) => self.may_act(owner),
            Call::Release(owner, index, _) => {
                self.may_act(owner)
                    && index < self.capacity
                    && is_holder(party, self.place(index))
                    && self.ring.word(Word::Cell(index)) == owner
            }
            Call::Recover(owner, _, _) => is_owner(owner),
        }
    }

    // Whether the party has a call in progress that isn't halted by a recovery.
    fn may_go_on(&self, party: usize) -> bool
        ensures { result ≡ fits (machine_of self.now) (Move.GoOn party) }
    {
        party < self.seats.len()
            && !self.stage(party).is_idle()
            && !self.is_halted(self.stage(party))
    }

    pub(crate) fn fits(&self, step: Move) -> bool
        requires { 0 < length self.now.ring.cells }
        ensures { result ≡ fits (machine_of self.now) step }
    {
        match step {
            Move::Begin(party, call) => {
                party < self.seats.len()
                    && self.stage(party).is_idle()
                    && self.may_begin(party, call)
            }
            Move::GoOn(party) => self.may_go_on(party),
            Move::Insist(party) => self.may_insist && self.may_go_on(party),
        }
    }

    fn ends(&self, step: Move) -> bool
        ensures { result ≡ ends (machine_of self.now) step }
    {
        match step {
            Move::Begin(_, _) => false,
            Move::GoOn(party) | Move::Insist(party) => self.stage(party).is_over(),
        }
    }

    // Reserves memory for one step, for an owner whose recovery begins with it, and for a call that finishes with it.
    fn reserve(&mut self, ends: bool) -> Result<(), AllocError>
        ensures same { machine_of self.new ≡ machine_of self.old }
        ensures event { OnOk result (vec_len self.new.events < vec_capacity self.new.events) }
        ensures owner { OnOk result (vec_len self.new.lost < vec_capacity self.new.lost) }
        ensures call { OnOk result (ends ≡ true → vec_len self.new.finished < vec_capacity self.new.finished) }
    {
        if ends {
            self.finished.reserve(1)?;
        }
        self.lost.reserve(1)?;
        self.events.reserve(1)
    }

    fn begin(&mut self, party: usize, call: Call)
        requires there { party < length self.old.seats.items }
        requires room { vec_len self.old.events < vec_capacity self.old.events }
        requires owner { vec_len self.old.lost < vec_capacity self.old.lost }
        ensures { machine_of self.new ≡ begun (machine_of self.old) party call }
    {
        self.seats[party] = Seat {
            stage: RobustCall::begin(call, self.capacity),
            first: self.events.len() as u64,
        };
        if let Call::Recover(owner, _, _) = call {
            self.lost.push_reserved(owner);
        }
        self.events.push_reserved(Event {
            party,
            access: Access::Local,
            answer: 0,
        });
    }

    fn go_on(&mut self, party: usize, insists: bool)
        requires there { party < length self.old.seats.items }
        requires room { vec_len self.old.events < vec_capacity self.old.events }
        requires call { ends (machine_of self.old) (Move.GoOn party) ≡ true → vec_len self.old.finished < vec_capacity self.old.finished }
        requires cells { 0 < length self.old.ring.cells }
        ensures { machine_of self.new ≡ went (machine_of self.old) party insists }
    {
        let seat = self.seat(party);
        end_call(&mut self.finished, party, seat, self.events.len() as u64);
        let access = seat.stage.next();
        let answer = self.ring.apply(access);
        change_place(&mut self.places, party, seat.stage, answer);
        self.seats[party] = Seat {
            stage: seat
                .stage
                .take(self.capacity, self.decisions.as_slice(), insists, answer),
            first: seat.first,
        };
        self.events.push_reserved(Event {
            party,
            access,
            answer,
        });
    }

    fn happen(&mut self, step: Move)
        requires fit { fits (machine_of self.old) step ≡ true }
        requires room { vec_len self.old.events < vec_capacity self.old.events }
        requires owner { vec_len self.old.lost < vec_capacity self.old.lost }
        requires call { ends (machine_of self.old) step ≡ true → vec_len self.old.finished < vec_capacity self.old.finished }
        requires cells { 0 < length self.old.ring.cells }
        ensures { machine_of self.new ≡ happens (machine_of self.old) step }
    {
        match step {
            Move::Begin(party, call) => self.begin(party, call),
            Move::GoOn(party) => self.go_on(party, false),
            Move::Insist(party) => self.go_on(party, true),
        }
    }

    /// Makes one step.
    pub(crate) fn step(&mut self, step: Move) -> Stepped
        requires { 0 < length self.old.ring.cells }
        ensures { StepsTo (machine_of self.old) step result (machine_of self.new) }
    {
        if !self.fits(step) {
            return Stepped::Skipped;
        }
        let ends = self.ends(step);
        if self.reserve(ends).is_err() {
            return Stepped::NoMemory;
        }
        self.happen(step);
        if ends {
            Stepped::Finished
        } else {
            Stepped::Went
        }
    }
}

// Whether the number is a valid owner.
fn is_owner(owner: u64) -> bool
    ensures { result ≡ is_owner owner }
{
    0 < owner && owner < 1 << 63
}

// Whether this party holds the index.
fn is_holder(party: usize, place: Place) -> bool
    ensures { result ≡ is_holder party place }
{
    match place {
        Place::Held(holder) => holder == party,
        _ => false,
    }
}

// The state of each index after an access of the party.
fn change_place(places: &mut Vec<Place>, party: usize, stage: RobustCall, answer: u64)
    ensures { places.new.items ≡ places_after places.old.items party stage answer }
{
    match stage {
        RobustCall::Claim { place, .. } if answer == 0 => put(places, place, Place::Claimed(party)),
        RobustCall::Count { place, count, .. } if answer == count => {
            put(places, place, Place::Counted(party));
        }
        RobustCall::Confirm { place, .. } => put(places, place, Place::Held(party)),
        RobustCall::Undo { place, .. } => put(places, place, Place::Empty),
        RobustCall::Free { owner, index, .. } if answer == owner => {
            put(places, index, Place::Empty);
        }
        RobustCall::Clear { place, seen, .. } if answer == seen => put(places, place, Place::Empty),
        _ => {}
    }
}

fn put(places: &mut Vec<Place>, index: u64, place: Place)
    ensures { places.new.items ≡ set places.old.items index place }
{
    let index = index as usize;
    if index < places.len() {
        places[index] = place;
    }
}

fn idle() -> Seat
    ensures { result ≡ idle_seat }
{
    Seat {
        stage: RobustCall::Idle,
        first: 0,
    }
}

// Records the call, if it is finished.
fn end_call(finished: &mut Vec<Finished>, party: usize, seat: Seat, last: u64)
    requires { call_is_over seat.stage ≡ true → vec_len finished.old < vec_capacity finished.old }
    ensures { finished.new.items ≡ finished.old.items ++ call_ended party seat.first last seat.stage }
{
    if let RobustCall::Done { call, answer } = seat.stage {
        finished.push_reserved(Finished {
            party,
            call,
            answer,
            first: seat.first,
            last,
        });
    }
}

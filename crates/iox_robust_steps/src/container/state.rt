//! The state of a container's machine, and its steps.
ghost use Rattle.std.specs.Prelude.{◌≡◌, ◌+◌, ◌*◌, ◌<◌, ◌^◌, ◌++◌, ◌&&◌, false, true, IfOk, OnOk, length, vec_len, vec_capacity};
ghost use Rattle.iox_queues.specs.Values.{table_value};
ghost use Rattle.iox_robust_steps.specs.ContainerMachine.{MemberStepsTo, asked_at, asked_by, asks_with, empty_parts, may_ask, may_call};
ghost use Rattle.iox_robust_steps.specs.ContainerMachine.{member_begins};
ghost use Rattle.iox_robust_steps.specs.ContainerMachine.{member_ended, member_ends, member_fits, member_happens, member_seat};
ghost use Rattle.iox_robust_steps.specs.ContainerMachine.{member_stage};
ghost use Rattle.iox_robust_steps.specs.ContainerMachine.{member_went, resting, seat_after};
ghost use Rattle.iox_robust_steps.specs.ContainerSteps.{member_is_over};
ghost use Rattle.iox_robust_steps.specs.Machine.{fits, happens};
ghost use Rattle.iox_robust_steps.specs.ContainerView.{parts_of};

use super::call::{ContainerCall, MemberCall, answer_at, is_clearing, is_look, is_shown};
use super::{MemberFinished, MemberMove};
use crate::call::Call;
use crate::machine::{Move, RobustSetMachine};
use iox_queues::sets::Event;
use iox_queues::values::value_of;
use iox_queues_steps::{Access, Ring, Stepped, Word};
use std::alloc::{AllocError, Global};

/// The stage of a party's call, the number of the call's first step, the count of changes that the party's last copy read, and the number
/// of the step that read it.
#[derive(Clone, Copy)]
pub struct MemberSeat {
    /// The stage of the party's call.
    pub stage: ContainerCall,
    /// The number of the first step of this call.
    pub first: u64,
    /// The count of changes that the party's last copy read.
    pub saw: u64,
    /// The number of the step that read this count.
    pub since: u64,
}

#[derive(Drop)]
pub(crate) struct MemberState {
    pub(crate) set: RobustSetMachine,
    // The values that may be added, each with as many words as the first.
    pub(crate) values: Vec<Vec<u64>>,
    // A count for each place, the values of the places, and a spare cell. The write position of the ring stores the count of changes.
    pub(crate) ring: Ring,
    pub(crate) seats: Vec<MemberSeat>,
    pub(crate) events: Vec<Event>,
    pub(crate) finished: Vec<MemberFinished>,
}

impl MemberState {
    pub(crate) fn new(
        alloc: Global,
        capacity: usize,
        parties: usize,
        values: Vec<Vec<u64>>,
        decisions: Vec<Vec<bool>>,
    ) -> Result<MemberState, AllocError>
        requires { capacity + (capacity * length (table_value values.items 0) + 1) < 2 ^ 62 }
        ensures { IfOk result (λ s. parts_of s ≡ empty_parts capacity parties values.items decisions.items) }
    {
        let width = value_of(values.as_slice(), 0).len();
        let cells = vec![in alloc; 0; capacity + (capacity * width + 1)]?;
        Ok(MemberState {
            set: RobustSetMachine::insistent(alloc, capacity, parties, decisions)?,
            values,
            ring: Ring::new(cells, 0, 0),
            seats: vec![in alloc; resting(); parties]?,
            events: Vec::new(alloc),
            finished: Vec::new(alloc),
        })
    }

    // How many words each value has.
    fn width(&self) -> usize
        ensures { result ≡ length (table_value self.now.values.items 0) }
    {
        value_of(self.values.as_slice(), 0).len()
    }

    fn seat(&self, party: usize) -> MemberSeat
        ensures { result ≡ member_seat self.now.seats.items party }
    {
        match self.seats.get(party) {
            Some(seat) => *seat,
            None => resting(),
        }
    }

    pub(crate) fn stage(&self, party: usize) -> ContainerCall
        ensures { result ≡ member_stage self.now.seats.items party }
    {
        self.seat(party).stage
    }

    fn may_call(&self, party: usize, call: MemberCall) -> bool
        requires { 0 < length self.now.ring.cells }
        ensures { result ≡ may_call (parts_of self.now) party call }
    {
        match call {
            MemberCall::Add(number, owner) => {
                self.set.fits(Move::Begin(party, Call::Acquire(owner)))
                    && value_of(self.values.as_slice(), number).len() == self.width()
            }
            MemberCall::Remove(owner, index, mode) => {
                self.set
                    .fits(Move::Begin(party, Call::Release(owner, index, mode)))
                    && is_shown(self.ring.word(Word::Cell(index)))
            }
            MemberCall::Update => true,
            MemberCall::Recover(owner, number, mode) => self
                .set
                .fits(Move::Begin(party, Call::Recover(owner, number, mode))),
        }
    }

    fn fits(&self, step: MemberMove) -> bool
        requires { 0 < length self.now.ring.cells }
        ensures { result ≡ member_fits (parts_of self.now) step }
    {
        match step {
            MemberMove::Begin(party, call) => {
                party < self.seats.len()
                    && self.stage(party).is_idle()
                    && self.may_call(party, call)
            }
            MemberMove::GoOn(party) => {
                party < self.seats.len() && may_ask(&self.set, party, self.stage(party))
            }
        }
    }

    fn ends(&self, step: MemberMove) -> bool
        ensures { result ≡ member_ends (parts_of self.now) step }
    {
        match step {
            MemberMove::Begin(_, _) => false,
            MemberMove::GoOn(party) => self.stage(party).is_over(),
        }
    }

    // Reserves memory for one step, and for the call that finishes with it.
    fn reserve(&mut self, ends: bool) -> Result<(), AllocError>
        ensures same { parts_of self.new ≡ parts_of self.old }
        ensures event { OnOk result (vec_len self.new.events < vec_capacity self.new.events) }
        ensures call { OnOk result (ends ≡ true → vec_len self.new.finished < vec_capacity self.new.finished) }
    {
        if ends {
            self.finished.reserve(1)?;
        }
        self.events.reserve(1)
    }

    // Begins a call of a party; if memory for the set's step runs out, nothing happens.
    fn begin(&mut self, party: usize, call: MemberCall) -> bool
        requires fit { member_fits (parts_of self.old) (MemberMove.Begin party call) ≡ true }
        requires there { party < length self.old.seats.items }
        requires room { vec_len self.old.events < vec_capacity self.old.events }
        ensures done { result ≡ true → parts_of self.new ≡ member_begins (parts_of self.old) party call }
        ensures stopped { result ≡ false → parts_of self.new ≡ parts_of self.old }
    {
        let made = match call {
            MemberCall::Add(_, owner) => {
                makes(&mut self.set, Move::Begin(party, Call::Acquire(owner)))
            }
            MemberCall::Remove(_, _, _) | MemberCall::Update | MemberCall::Recover(_, _, _) => true,
        };
        if !made {
            return false;
        }
        let seat = self.seat(party);
        self.seats[party] = MemberSeat {
            stage: ContainerCall::begin(call),
            first: self.events.len() as u64,
            saw: seat.saw,
            since: seat.since,
        };
        self.events.push_reserved(Event {
            party,
            access: Access::Local,
            answer: 0,
        });
        true
    }

    // Makes the next step of a party; if memory for the set's step runs out, nothing happens.
    fn go_on(&mut self, party: usize) -> bool
        requires fit { may_ask self.old.set party (member_stage self.old.seats.items party) ≡ true }
        requires there { party < length self.old.seats.items }
        requires room { vec_len self.old.events < vec_capacity self.old.events }
        requires call { member_is_over (member_stage self.old.seats.items party) ≡ true
            → vec_len self.old.finished < vec_capacity self.old.finished }
        requires cells { 0 < length self.old.ring.cells }
        ensures done { result ≡ true → parts_of self.new ≡ member_went (parts_of self.old) party }
        ensures stopped { result ≡ false → parts_of self.new ≡ parts_of self.old }
    {
        let seat = self.seat(party);
        let capacity = self.set.capacity();
        let width = self.width();
        let got = answer_at(self.set.stage(party));
        if !ask(&mut self.set, party, seat.stage) {
            return false;
        }
        let finds = is_clearing(self.set.stage(party));
        let number = self.events.len() as u64;
        end_call(&mut self.finished, party, seat, number);
        let access = seat.stage.next(capacity, width, self.values.as_slice());
        let answer = self.ring.apply(access);
        let next = seat
            .stage
            .take(capacity, width, seat.saw, got, finds, answer);
        self.seats[party] = seat_after(seat, next, answer, number);
        self.events.push_reserved(Event {
            party,
            access,
            answer,
        });
        true
    }

    /// Makes one step.
    pub(crate) fn step(&mut self, step: MemberMove) -> Stepped
        requires { 0 < length self.old.ring.cells }
        ensures { MemberStepsTo (parts_of self.old) step result (parts_of self.new) }
    {
        if !self.fits(step) {
            return Stepped::Skipped;
        }
        let ends = self.ends(step);
        if self.reserve(ends).is_err() {
            return Stepped::NoMemory;
        }
        let made = match step {
            MemberMove::Begin(party, call) => self.begin(party, call),
            MemberMove::GoOn(party) => self.go_on(party),
        };
        if !made {
            Stepped::NoMemory
        } else if ends {
            Stepped::Finished
        } else {
            Stepped::Went
        }
    }
}

// Makes a possible step of the index set; false if memory runs out.
fn makes(set: &mut RobustSetMachine, step: Move) -> bool
    requires { fits set.old step ≡ true }
    ensures done { result ≡ true → set.new ≡ happens set.old step }
    ensures stopped { result ≡ false → set.new ≡ set.old }
{
    match set.step(step) {
        Stepped::Went | Stepped::Finished => true,
        Stepped::Skipped | Stepped::NoMemory => false,
    }
}

// The step that a recovery asks of the set: it insists on freeing the index if it saw no member at the place.
fn asks_with(party: usize, seen: u64) -> Move
    ensures { result ≡ asks_with party seen }
{
    if is_shown(seen) {
        Move::GoOn(party)
    } else {
        Move::Insist(party)
    }
}

// Whether the step that a call at this stage asks of the set is possible there, if it asks one.
fn may_ask(set: &RobustSetMachine, party: usize, stage: ContainerCall) -> bool
    ensures { result ≡ may_ask set.now party stage }
{
    match stage {
        ContainerCall::Idle => false,
        ContainerCall::Enter { .. }
        | ContainerCall::Drop { .. }
        | ContainerCall::Clear { .. }
        | ContainerCall::Close { .. } => set.fits(Move::GoOn(party)),
        ContainerCall::Ask { seen, .. } => set.fits(asks_with(party, seen)),
        ContainerCall::Fill { owner, .. }
        | ContainerCall::Show { owner, .. }
        | ContainerCall::Sink { owner, .. }
        | ContainerCall::Hide { owner, .. } => set.may_act(owner),
        ContainerCall::Leave { owner, index, mode } => {
            set.fits(Move::Begin(party, Call::Release(owner, index, mode)))
        }
        ContainerCall::Search {
            owner,
            number,
            mode,
        } => set.fits(Move::Begin(party, Call::Recover(owner, number, mode))),
        _ => true,
    }
}

// Makes the step of the set that a call at this stage asks for, if it asks for one.
fn ask(set: &mut RobustSetMachine, party: usize, stage: ContainerCall) -> bool
    requires { may_ask set.old party stage ≡ true }
    ensures done { result ≡ true → set.new ≡ asked_at set.old party stage }
    ensures stopped { result ≡ false → set.new ≡ set.old }
{
    match stage {
        ContainerCall::Enter { .. }
        | ContainerCall::Drop { .. }
        | ContainerCall::Clear { .. }
        | ContainerCall::Close { .. } => makes(set, Move::GoOn(party)),
        ContainerCall::Ask { seen, .. } => makes(set, asks_with(party, seen)),
        ContainerCall::Leave { owner, index, mode } => {
            makes(set, Move::Begin(party, Call::Release(owner, index, mode)))
        }
        ContainerCall::Search {
            owner,
            number,
            mode,
        } => makes(set, Move::Begin(party, Call::Recover(owner, number, mode))),
        _ => true,
    }
}

// A party's seat after its stage.
fn seat_after(seat: MemberSeat, next: ContainerCall, answer: u64, number: u64) -> MemberSeat
    ensures { result ≡ seat_after seat next answer number }
{
    if is_look(seat.stage) && answer != seat.saw {
        MemberSeat {
            stage: next,
            first: seat.first,
            saw: answer,
            since: number,
        }
    } else {
        MemberSeat {
            stage: next,
            first: seat.first,
            saw: seat.saw,
            since: seat.since,
        }
    }
}

fn resting() -> MemberSeat
    ensures { result ≡ resting }
{
    MemberSeat {
        stage: ContainerCall::Idle,
        first: 0,
        saw: 0,
        since: 0,
    }
}

// Records the call, if it is finished.
fn end_call(finished: &mut Vec<MemberFinished>, party: usize, seat: MemberSeat, last: u64)
    requires { member_is_over seat.stage ≡ true → vec_len finished.old < vec_capacity finished.old }
    ensures { finished.new.items ≡ finished.old.items ++ member_ended party seat.first last seat.stage }
{
    if let ContainerCall::Done { call, answer } = seat.stage {
        finished.push_reserved(MemberFinished {
            party,
            call,
            answer,
            first: seat.first,
            last,
        });
    }
}

//! The state of a ring machine, and its steps.
ghost use Rattle.std.specs.Prelude.{◌≡◌, ◌+◌, ◌<◌, ◌≤◌, ◌^◌, ◌++◌, [], if◌then◌else◌, true, false, OnOk, OnErr, length, map, replicate};
ghost use Rattle.std.specs.Prelude.{◌-◌, vec_len, vec_capacity};
ghost use Rattle.std.specs.Option.{option_to_list};
ghost use Rattle.iox_queues_steps.specs.Order.{push_call, pop_call};
ghost use Rattle.iox_queues_steps.specs.Ends.{cells_of, push_ended, pop_ended, placed_by_pop, placed_by_push, late_put};
ghost use Rattle.iox_queues_steps.specs.RingMachine.{fits, ends, happens, push_goes_on, pop_goes_on, push_begins, pop_begins, StepsTo};
ghost use Rattle.iox_queues_steps.specs.RingMachine.{start};

use crate::log::Record;
use crate::rings::ends::{Pop, Push, RingKind};
use crate::rings::overflowing::{Pop as OverflowingPop, Push as OverflowingPush};
use crate::rings::refusing::{Pop as RefusingPop, Push as RefusingPush};
use crate::{Access, Act, Call, Event, Move, Party, PopAnswer, PopCall, PushCall, Ring, Stepped};
use std::alloc::{AllocError, Global};

#[derive(Drop)]
pub(crate) struct State {
    pub(crate) kind: RingKind,
    pub(crate) limit: u64,
    pub(crate) initial: Vec<u64>,
    pub(crate) ring: Ring,
    pub(crate) push: Push,
    pub(crate) push_first: u64,
    pub(crate) pushes: Vec<PushCall>,
    pub(crate) pop: Pop,
    pub(crate) pop_first: u64,
    pub(crate) pops: Vec<PopCall>,
    pub(crate) log: Record,
}

impl State {
    ghost use Rattle.iox_queues_steps.specs.Machine.{machine_of, StateRoom, new_acts, new_pushes, new_pops};
    ghost use Rattle.iox_queues_steps.specs.Recorded.{HasRoom};

    /// The state before the first step: the numbers of `initial` are in the first cells.
    pub(crate) fn new(
        alloc: Global,
        kind: RingKind,
        limit: u64,
        initial: Vec<u64>,
        cells: Vec<u64>,
    ) -> State
        requires { cells.items ≡ initial.items ++ replicate (cells_of kind limit - length initial.items) 0 }
        ensures { machine_of result ≡ start kind limit initial.items }
    {
        let ring = Ring::new(cells, initial.len() as u64, 0);
        State {
            kind,
            limit,
            initial,
            ring,
            push: Push::idle(kind),
            push_first: 0,
            pushes: Vec::new(alloc),
            pop: Pop::idle(kind),
            pop_first: 0,
            pops: Vec::new(alloc),
            log: Record::new(alloc),
        }
    }

    fn fits(&self, step: Move) -> bool
        ensures { result ≡ fits (machine_of self.now) step }
    {
        match step {
            Move::Begin(Call::Push(_)) => self.push.is_idle(),
            Move::Begin(Call::Pop | Call::Look) => self.pop.is_idle(),
            Move::GoOn(Party::Producer) => !self.push.is_idle(),
            Move::GoOn(Party::Consumer) => !self.pop.is_idle(),
        }
    }

    fn ends(&self, step: Move) -> bool
        ensures { result ≡ ends (machine_of self.now) step }
    {
        match step {
            Move::Begin(_) => false,
            Move::GoOn(Party::Producer) => self.push.is_over(),
            Move::GoOn(Party::Consumer) => self.pop.is_over(),
        }
    }

    // How many acts take effect at this step.
    fn acts(&self, step: Move) -> usize
        ensures { result ≡ new_acts (machine_of self.now) step }
    {
        match step {
            Move::Begin(_) => 0,
            Move::GoOn(Party::Producer) => {
                count_of(self.push.placed(self.limit, self.ring.read()))
            }
            Move::GoOn(Party::Consumer) => {
                let read = self.ring.read();
                count_of(self.pop.taken(self.ring.write(), read))
                    + count_of(late_put_at(&self.push, read, self.pop.moves(read)))
            }
        }
    }

    // How many pushes finish with this step.
    fn ended_pushes(&self, step: Move) -> usize
        ensures { result ≡ new_pushes (machine_of self.now) step }
    {
        match step {
            Move::GoOn(Party::Producer) if self.push.is_over() => 1,
            _ => 0,
        }
    }

    // How many pops and looks finish with this step.
    fn ended_pops(&self, step: Move) -> usize
        ensures { result ≡ new_pops (machine_of self.now) step }
    {
        match step {
            Move::GoOn(Party::Consumer) if self.pop.is_over() => 1,
            _ => 0,
        }
    }

    // Reserves memory for what this step appends.
    fn reserve(&mut self, step: Move) -> Result<(), AllocError>
        ensures same { machine_of self.new ≡ machine_of self.old }
        ensures room { OnOk result (StateRoom step self.new) }
    {
        let acts = self.acts(step);
        let pushes = self.ended_pushes(step);
        let pops = self.ended_pops(step);
        self.pushes.reserve(pushes)?;
        self.pops.reserve(pops)?;
        self.log.reserve(acts)
    }

    fn begin_push(&mut self, value: u64)
        requires room { HasRoom 0 self.old.log }
        requires few { self.old.log.moments < 2 ^ 63 }
        ensures { machine_of self.new ≡ push_begins (machine_of self.old) value }
    {
        self.push = Push::begin(self.kind, self.limit, value);
        self.push_first = self.log.moments;
        self.log.add(local(Party::Producer), None, None);
    }

    fn begin_pop(&mut self, stage: Pop)
        requires room { HasRoom 0 self.old.log }
        requires few { self.old.log.moments < 2 ^ 63 }
        ensures { machine_of self.new ≡ pop_begins (machine_of self.old) stage }
    {
        self.pop = stage;
        self.pop_first = self.log.moments;
        self.log.add(local(Party::Consumer), None, None);
    }

    fn go_on_push(&mut self)
        requires room { StateRoom (Move.GoOn Party.Producer) self.old }
        requires few { self.old.log.moments < 2 ^ 63 }
        requires cells { 0 < length self.old.ring.cells }
        ensures { machine_of self.new ≡ push_goes_on (machine_of self.old) }
    {
        let access = self.push.next();
        let placed = self.push.placed(self.limit, self.ring.read());
        end_push(
            &mut self.pushes,
            self.push,
            self.push_first,
            self.log.moments,
        );
        let answer = self.ring.apply(access);
        self.push = self.push.take(answer);
        let event = Event {
            party: Party::Producer,
            access,
            answer,
        };
        self.log.add(event, placed, None);
    }

    fn go_on_pop(&mut self)
        requires room { StateRoom (Move.GoOn Party.Consumer) self.old }
        requires few { self.old.log.moments < 2 ^ 63 }
        requires cells { 0 < length self.old.ring.cells }
        ensures { machine_of self.new ≡ pop_goes_on (machine_of self.old) }
    {
        let access = self.pop.next();
        let read = self.ring.read();
        let taken = self.pop.taken(self.ring.write(), read);
        let late = late_put_at(&self.push, read, self.pop.moves(read));
        end_pop(&mut self.pops, self.pop, self.pop_first, self.log.moments);
        let answer = self.ring.apply(access);
        self.pop = self.pop.take(answer);
        let event = Event {
            party: Party::Consumer,
            access,
            answer,
        };
        self.log.add(event, taken, late);
    }

    fn happen(&mut self, step: Move)
        requires room { StateRoom step self.old }
        requires few { self.old.log.moments < 2 ^ 63 }
        requires cells { 0 < length self.old.ring.cells }
        ensures { machine_of self.new ≡ happens (machine_of self.old) step }
    {
        match step {
            Move::Begin(Call::Push(value)) => self.begin_push(value),
            Move::Begin(Call::Pop) => self.begin_pop(Pop::begin(self.kind)),
            Move::Begin(Call::Look) => self.begin_pop(Pop::look(self.kind)),
            Move::GoOn(Party::Producer) => self.go_on_push(),
            Move::GoOn(Party::Consumer) => self.go_on_pop(),
        }
    }

    /// Makes one step.
    pub(crate) fn step(&mut self, step: Move) -> Stepped
        requires few { self.old.log.moments < 2 ^ 63 }
        requires cells { 0 < length self.old.ring.cells }
        ensures { StepsTo (machine_of self.old) step result (machine_of self.new) }
    {
        if !self.fits(step) {
            return Stepped::Skipped;
        }
        let ends = self.ends(step);
        if self.reserve(step).is_err() {
            return Stepped::NoMemory;
        }
        self.happen(step);
        if ends {
            Stepped::Finished
        } else {
            Stepped::Went
        }
    }
}

fn local(party: Party) -> Event
    ensures { result ≡ record { party = party; access = Access.Local; answer = 0 } }
{
    Event {
        party,
        access: Access::Local,
        answer: 0,
    }
}

// The delayed put, if this step of the pop moves the read position.
fn late_put_at(push: &Push, read: u64, moves: bool) -> Option<Act>
    ensures { option_to_list result ≡ (if moves then late_put read push.now else []) }
{
    if moves { push.late(read) } else { None }
}

fn end_push(pushes: &mut Vec<PushCall>, push: Push, first: u64, last: u64)
    requires { vec_len pushes.old + length (push_ended push) ≤ vec_capacity pushes.old }
    ensures { pushes.new.items ≡ pushes.old.items ++ map (push_call first last) (push_ended push) }
{
    let (value, answer) = match push {
        Push::Overflowing(OverflowingPush::Pushed { value, answer }) => (value, answer),
        Push::Refusing(RefusingPush::Pushed { value, answer }) => (value, answer),
        _ => return,
    };
    pushes.push_reserved(PushCall {
        value,
        answer,
        first,
        last,
    });
}

fn end_pop(pops: &mut Vec<PopCall>, pop: Pop, first: u64, last: u64)
    requires { vec_len pops.old + length (pop_ended pop) ≤ vec_capacity pops.old }
    ensures { pops.new.items ≡ pops.old.items ++ map (pop_call first last) (pop_ended pop) }
{
    let answer = match pop {
        Pop::Overflowing(OverflowingPop::Popped { got }) => PopAnswer::Got(got),
        Pop::Refusing(RefusingPop::Popped { got }) => PopAnswer::Got(got),
        Pop::Overflowing(OverflowingPop::Looked { waiting }) => PopAnswer::Saw(waiting),
        Pop::Refusing(RefusingPop::Looked { waiting }) => PopAnswer::Saw(waiting),
        _ => return,
    };
    pops.push_reserved(PopCall {
        answer,
        first,
        last,
    });
}

fn count_of(act: Option<Act>) -> usize
    ensures { result ≡ length (option_to_list act) }
{
    match act {
        Some(_) => 1,
        None => 0,
    }
}

//! A machine that runs a bit set or a counting bit set step by step.
ghost use Rattle.std.specs.Prelude.{◌≡◌, ◌+◌, ◌<◌, ◌≤◌, ◌^◌, IfOk, length, slice_index};

use crate::bits::call::{Answer, Call, SetCall};
use crate::bits::state::State;
use iox_queues_steps::{Access, Stepped};
use std::alloc::{AllocError, Global};
use std::marker::Model;

/// One step: a party begins a call, or makes the next step of its call.
#[derive(Clone, Copy)]
pub enum Move {
    /// The party with this number begins a call.
    Begin(usize, Call),
    /// The party with this number makes the next step of its call.
    GoOn(usize),
}

/// A step that was made: who made it, which access it made, and the result of the access.
#[derive(Clone, Copy)]
pub struct Event {
    /// The number of the party that made the step.
    pub party: usize,
    /// The access that the step made.
    pub access: Access,
    /// The result of the access.
    pub answer: u64,
}

/// A finished call, with its first and its last step, by their numbers among the steps made.
#[derive(Clone, Copy)]
pub struct Finished {
    /// The number of the party that made the call.
    pub party: usize,
    /// The call.
    pub call: Call,
    /// The result of the call.
    pub answer: Answer,
    /// The number of its first step.
    pub first: u64,
    /// The number of its last step.
    pub last: u64,
}

/// A set whose parties make their steps in any order that the caller chooses.
///
/// Any party may stop at any step. For each place, the sum of its increments is what resets took out plus the current count, and no count
/// exceeds the largest. A finished call did what its result says, at moments of its own. The result of each step is what its word held, and
/// each step is one that a call requested. The count of a place changes at exactly those steps that raise it by one or reset it.
#[derive(Drop)]
pub struct SetMachine {
    state: State,
}

impl Model for SetMachine {
    ghost use Rattle.iox_queues.specs.Machine.{SetState};
    ghost use Rattle.iox_queues.specs.Kept.{IsKept};

    ghost Value = { SetState };

    ghost use Rattle.std.specs.Prelude.{◌≡◌, length};
    ghost use Rattle.iox_queues.specs.State.{machine_of};

    ghost view = { λ m. machine_of m.state };

    ghost invariant = { λ m. IsKept (machine_of m.state) × (length m.state.ring.cells ≡ m.state.capacity) };
}

impl SetMachine {
    ghost use Rattle.iox_queues.specs.Machine.{IsBalanced, IsTold, StepsTo, RunsTo, start, stage_at};
    ghost use Rattle.iox_queues.specs.Asked.{ChangesByActs, IsRecorded, StepsAreOfCalls, TellsStep};
    ghost use Rattle.iox_queues.specs.Moments.{CallsHaveMoments};

    /// An empty set with this capacity and this many parties. No count exceeds `max`, which is 1 for a bit set. It fails only if an
    /// allocation fails.
    pub fn new(
        alloc: Global,
        max: u64,
        capacity: usize,
        parties: usize,
    ) -> Result<SetMachine, AllocError>
        ensures { IfOk result (λ m. m ≡ start max capacity parties) }
    {
        Ok(SetMachine {
            state: State::new(alloc, max, capacity, parties)?,
        })
    }

    /// Begins a call, or makes the next step of a call. A step that isn't possible is skipped.
    pub fn step(&mut self, step: Move) -> Stepped
        ensures steps { StepsTo self.old step result self.new }
        ensures tells { TellsStep self.old step result self.new }
        ensures balanced { IsBalanced self.new }
        ensures told { IsTold self.new }
        ensures recorded { IsRecorded self.new }
        ensures counted { StepsAreOfCalls self.new }
        ensures acts { ChangesByActs self.new }
        ensures moments { CallsHaveMoments self.new }
    {
        self.state.step(step)
    }

    /// Makes these steps one after another, skips those that aren't possible, and stops where memory for recording a step runs out. Returns
    /// how many steps were made.
    pub fn run(&mut self, schedule: &[Move]) -> usize
        ensures runs { RunsTo self.old schedule.now result self.new }
        ensures balanced { IsBalanced self.new }
        ensures told { IsTold self.new }
        ensures recorded { IsRecorded self.new }
        ensures counted { StepsAreOfCalls self.new }
        ensures acts { ChangesByActs self.new }
        ensures moments { CallsHaveMoments self.new }
    {
        self.keeps();
        let mut made = 0;
        let mut rest = schedule;
        while let Some((step, tail)) = rest.split_first() {
            let stepped = self.step(*step);
            if stepped.is_stopped() {
                return made;
            }
            made += stepped.count();
            rest = tail;
        }
        made
    }

    // Recalls the invariants of every machine for the prover.
    fn keeps(&self)
        ensures balanced { IsBalanced self.now }
        ensures told { IsTold self.now }
        ensures recorded { IsRecorded self.now }
        ensures counted { StepsAreOfCalls self.now }
        ensures acts { ChangesByActs self.now }
        ensures moments { CallsHaveMoments self.now }
    {
        let _ = &self.state;
    }

    /// The steps made so far.
    pub fn events(&self) -> &[Event]
        ensures value { result.now ≡ self.now.events }
        ensures balanced { IsBalanced self.now }
        ensures recorded { IsRecorded self.now }
        ensures counted { StepsAreOfCalls self.now }
        ensures acts { ChangesByActs self.now }
    {
        self.state.events.as_slice()
    }

    /// The finished calls, in the order in which they finished.
    pub fn finished(&self) -> &[Finished]
        ensures value { result.now ≡ self.now.finished }
        ensures told { IsTold self.now }
        ensures recorded { IsRecorded self.now }
        ensures counted { StepsAreOfCalls self.now }
        ensures moments { CallsHaveMoments self.now }
    {
        self.state.finished.as_slice()
    }

    /// How many places the set has.
    pub fn capacity(&self) -> u64
        ensures { result ≡ length self.now.words.cells }
    {
        self.state.capacity
    }

    /// The count of the place.
    pub fn count(&self, place: usize) -> u64
        requires { place < length self.now.words.cells }
        ensures value { result ≡ slice_index self.now.words.cells place }
        ensures balanced { IsBalanced self.now }
    {
        self.state.count(place)
    }

    /// The stage of the party; a party that doesn't exist is idle.
    pub fn stage(&self, party: usize) -> SetCall
        ensures { result ≡ stage_at self.now.seats party }
    {
        self.state.stage(party)
    }
}

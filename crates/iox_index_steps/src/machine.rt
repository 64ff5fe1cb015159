//! A machine that runs an index set step by step.
ghost use Rattle.std.specs.Prelude.{◌≡◌, ◌+◌, ◌<◌, ◌≤◌, ◌^◌, true, IfOk, length};

use crate::call::{Answer, Call, IndexCall};
use crate::state::State;
use iox_queues::sets::Event;
use iox_queues_steps::Stepped;
use std::alloc::{AllocError, Global};
use std::marker::Model;

/// One step: a party begins a call, or makes the next step of its call.
#[derive(Clone, Copy)]
pub enum Move {
    /// The party with this number begins a call.
    Begin(usize, Call),
    /// The party with this number makes the next step of its call.
    GoOn(usize),
}

/// A finished call, with its first and its last step, by their numbers among the steps made.
#[derive(Clone, Copy)]
pub struct Finished {
    /// The number of the party that made the call.
    pub party: usize,
    /// The call.
    pub call: Call,
    /// The result of the call.
    pub answer: Answer,
    /// The number of its first step.
    pub first: u64,
    /// The number of its last step.
    pub last: u64,
}

/// An index set whose parties make their steps in any order that the caller chooses.
///
/// Any party may stop at any step. A party may release only an index that it holds, and only once: any other release is skipped. As long as
/// the head changes fewer than 2^16 times within each acquire, no index has two holders, and acquires and releases of an index alternate. A
/// locked set has no held index, only a release that was to lock the set has locked it, and it stays locked. An acquire took exactly the
/// index that it returns, a release freed exactly its own index, and a refused call moved none. Each step belongs to one call, and each
/// finished call begins and ends with a local step.
#[derive(Drop)]
pub struct IndexSetMachine {
    state: State,
}

impl Model for IndexSetMachine {
    ghost use Rattle.iox_index_steps.specs.Machine.{IndexSetState};
    ghost use Rattle.iox_index_steps.specs.Kept.{IsKept};

    ghost Value = { IndexSetState };

    ghost use Rattle.std.specs.Prelude.{◌≡◌, length};
    ghost use Rattle.iox_index_steps.specs.State.{machine_of};

    ghost view = { λ m. machine_of m.state };

    ghost invariant = { λ m. IsKept (machine_of m.state) × (length m.state.ring.cells ≡ m.state.capacity) };
}

impl IndexSetMachine {
    ghost use Rattle.iox_index_steps.specs.Machine.{HasFewChanges, IsOrderly, IsRecorded, StaysLocked, StepsTo, RunsTo, start, stage_at};
    ghost use Rattle.iox_index_steps.specs.Machine.{is_locked};
    ghost use Rattle.iox_index_steps.specs.OfCalls.{StepsAreOfCalls, TellsStep};

    /// A set of this many indices, none of which is held, with this many parties. There must be fewer than 2^24 indices, since a head can't
    /// store more. It fails only if an allocation fails.
    pub fn new(
        alloc: Global,
        capacity: usize,
        parties: usize,
    ) -> Result<IndexSetMachine, AllocError>
        requires { capacity < 2 ^ 24 }
        ensures { IfOk result (λ m. m ≡ start capacity parties) }
    {
        Ok(IndexSetMachine {
            state: State::new(alloc, capacity, parties)?,
        })
    }

    /// Begins a call, or makes the next step of a call. A step that isn't possible is skipped. The theorems hold as long as the head
    /// changes fewer than 2^16 times within each acquire, which is so if fewer than 2^16 steps were made.
    pub fn step(&mut self, step: Move) -> Stepped
        ensures steps { StepsTo self.old step result self.new }
        ensures tells { TellsStep self.old step result self.new }
        ensures recorded { IsRecorded self.new }
        ensures counted { StepsAreOfCalls self.new }
        ensures orderly { HasFewChanges self.new → IsOrderly self.new }
        ensures locked { HasFewChanges self.new → StaysLocked self.old self.new }
        ensures few { HasFewChanges self.new → HasFewChanges self.old }
        ensures short { length self.new.events < 2 ^ 16 → HasFewChanges self.new }
    {
        self.state.step(step)
    }

    /// Makes these steps one after another, skips those that aren't possible, and stops where memory for recording a step runs out. Returns
    /// how many steps were made. The theorems hold as long as the head changes fewer than 2^16 times within each acquire.
    pub fn run(&mut self, schedule: &[Move]) -> usize
        ensures runs { RunsTo self.old schedule.now result self.new }
        ensures recorded { IsRecorded self.new }
        ensures counted { StepsAreOfCalls self.new }
        ensures orderly { HasFewChanges self.new → IsOrderly self.new }
        ensures locked { HasFewChanges self.new → StaysLocked self.old self.new }
        ensures few { HasFewChanges self.new → HasFewChanges self.old }
        ensures short { length self.new.events < 2 ^ 16 → HasFewChanges self.new }
    {
        self.keeps();
        let mut made = 0;
        let mut rest = schedule;
        while let Some((step, tail)) = rest.split_first() {
            let stepped = self.step(*step);
            if stepped.is_stopped() {
                return made;
            }
            made += stepped.count();
            rest = tail;
        }
        made
    }

    // Recalls the invariants of every machine for the prover.
    fn keeps(&self)
        ensures recorded { IsRecorded self.now }
        ensures counted { StepsAreOfCalls self.now }
        ensures orderly { HasFewChanges self.now → IsOrderly self.now }
    {
        let _ = &self.state;
    }

    /// The steps made so far.
    pub fn events(&self) -> &[Event]
        ensures value { result.now ≡ self.now.events }
        ensures recorded { IsRecorded self.now }
        ensures counted { StepsAreOfCalls self.now }
        ensures orderly { HasFewChanges self.now → IsOrderly self.now }
    {
        self.state.events.as_slice()
    }

    /// The finished calls, in the order in which they finished.
    pub fn finished(&self) -> &[Finished]
        ensures value { result.now ≡ self.now.finished }
        ensures recorded { IsRecorded self.now }
        ensures counted { StepsAreOfCalls self.now }
        ensures orderly { HasFewChanges self.now → IsOrderly self.now }
    {
        self.state.finished.as_slice()
    }

    /// The capacity: every index is below it.
    pub fn capacity(&self) -> u64
        ensures { result ≡ length self.now.words.cells }
    {
        self.state.capacity
    }

    /// Whether the set is locked for good.
    pub fn is_locked(&self) -> bool
        ensures { result ≡ is_locked self.now }
    {
        self.state.is_locked()
    }

    /// The stage of the party; a party that doesn't exist is idle.
    pub fn stage(&self, party: usize) -> IndexCall
        ensures { result ≡ stage_at self.now.seats party }
    {
        self.state.stage(party)
    }
}

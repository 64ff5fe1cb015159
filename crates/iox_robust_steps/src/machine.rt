//! A machine that runs an index set that knows the owner of each held index.
ghost use Rattle.std.specs.Prelude.{◌≡◌, ◌+◌, ◌<◌, ◌≤◌, ◌^◌, ◌-◌, false, true, not, IfOk, length};

use crate::call::{Answer, Call, RobustCall};
pub use crate::state::Place;
use crate::state::State;
use iox_queues::sets::Event;
use iox_queues_steps::Stepped;
use std::alloc::{AllocError, Global};
use std::marker::Model;

/// One step: a party begins a call, or makes the next step of its call.
#[derive(Clone, Copy)]
pub enum Move {
    /// The party with this number begins a call.
    Begin(usize, Call),
    /// The party with this number makes the next step of its call.
    GoOn(usize),
    /// The party makes the next step of its call, and a recovery that sees an index of its owner frees it, whatever the decisions are. This
    /// step is possible only in the set of a container.
    Insist(usize),
}

/// A finished call, with its first and its last step, by their numbers among the steps made.
#[derive(Clone, Copy)]
pub struct Finished {
    /// The number of the party that made the call.
    pub party: usize,
    /// The call.
    pub call: Call,
    /// The result of the call.
    pub answer: Answer,
    /// The number of its first step.
    pub first: u64,
    /// The number of its last step.
    pub last: u64,
}

/// An index set that knows the owner of each held index, and whose parties make their steps in any order that the caller chooses.
///
/// Any party may stop at any step. A release is possible only if its party holds the index for that owner, so only once. After the recovery
/// of an owner began, nobody acts for this owner: the steps of calls in progress are skipped, unless the call has freed its index or has
/// its result. The caller passes in what recoveries decide on each index. If fewer than 2^64 - 1 steps were made, no index has two holders,
/// and the holder is the party that took it. The cell of a held index names the owner of the acquire that took the index last and returned
/// it. Between two acquires of an index lies its release or recovery. A locked set has no held index, only a call that was to lock the set
/// has locked it, and it stays locked. By its own steps, an acquire took exactly the index that it returns, a release freed exactly its
/// own, and a refused call took none. A recovery left its owner no selected index. After any number of steps, a recovery freed nothing
/// else.
#[derive(Drop)]
pub struct RobustSetMachine {
    state: State,
}

impl Model for RobustSetMachine {
    ghost use Rattle.iox_robust_steps.specs.Machine.{RobustSetState};
    ghost use Rattle.iox_robust_steps.specs.Kept.{IsKept};

    ghost Value = { RobustSetState };

    ghost use Rattle.iox_robust_steps.specs.State.{machine_of};

    ghost view = { λ m. machine_of m.state };

    ghost invariant = { λ m. IsKept (machine_of m.state) };
}

impl RobustSetMachine {
    ghost use Rattle.iox_robust_steps.specs.Machine.{HasFewSteps, IsOrderly, IsRecorded, StaysLocked, StepsTo, RunsTo, fits, start};
    ghost use Rattle.iox_robust_steps.specs.Machine.{stage_at};
    ghost use Rattle.iox_robust_steps.specs.Machine.{is_locked, is_lost};
    ghost use Rattle.iox_robust_steps.specs.OfCalls.{StepsAreOfCalls, TellsStep};
    ghost use Rattle.iox_robust_steps.specs.Recovering.{FreesOnlyItsOwn};

    /// A set of this many indices, none of which is held, with this many parties and the decisions of recoveries. A recovery names a list
    /// of decisions by its number; the list says for each index whether it is to be freed, and an index without a decision is kept. It
    /// fails only if an allocation fails.
    pub fn new(
        alloc: Global,
        capacity: usize,
        parties: usize,
        decisions: Vec<Vec<bool>>,
    ) -> Result<RobustSetMachine, AllocError>
        requires { capacity < 2 ^ 62 }
        ensures { IfOk result (λ m. m ≡ start capacity parties decisions.items false) }
    {
        Ok(RobustSetMachine {
            state: State::new(alloc, capacity, parties, decisions, false)?,
        })
    }

    // A set whose steps may insist that a recovery frees an index.
    pub(crate) fn insistent(
        alloc: Global,
        capacity: usize,
        parties: usize,
        decisions: Vec<Vec<bool>>,
    ) -> Result<RobustSetMachine, AllocError>
        requires { capacity < 2 ^ 62 }
        ensures { IfOk result (λ m. m ≡ start capacity parties decisions.items true) }
    {
        Ok(RobustSetMachine {
            state: State::new(alloc, capacity, parties, decisions, true)?,
        })
    }

    /// Begins a call, or makes the next step of a call. A step that isn't possible is skipped. The theorems hold if fewer than 2^64 - 1
    /// steps were made.
    pub fn step(&mut self, step: Move) -> Stepped
        ensures steps { StepsTo self.old step result self.new }
        ensures tells { TellsStep self.old step result self.new }
        ensures recovers { FreesOnlyItsOwn self.old step self.new }
        ensures recorded { IsRecorded self.new }
        ensures counted { StepsAreOfCalls self.new }
        ensures orderly { HasFewSteps self.new → IsOrderly self.new }
        ensures locked { HasFewSteps self.new → StaysLocked self.old self.new }
        ensures few { HasFewSteps self.new → HasFewSteps self.old }
    {
        self.state.step(step)
    }

    /// Makes these steps one after another, skips those that aren't possible, and stops where memory for recording a step runs out. Returns
    /// how many steps were made. The theorems hold if fewer than 2^64 - 1 steps were made.
    pub fn run(&mut self, schedule: &[Move]) -> usize
        ensures runs { RunsTo self.old schedule.now result self.new }
        ensures recorded { IsRecorded self.new }
        ensures counted { StepsAreOfCalls self.new }
        ensures orderly { HasFewSteps self.new → IsOrderly self.new }
        ensures locked { HasFewSteps self.new → StaysLocked self.old self.new }
        ensures few { HasFewSteps self.new → HasFewSteps self.old }
    {
        self.keeps();
        let mut made = 0;
        let mut rest = schedule;
        while let Some((step, tail)) = rest.split_first() {
            let stepped = self.step(*step);
            if stepped.is_stopped() {
                return made;
            }
            made += stepped.count();
            rest = tail;
        }
        made
    }

    // Whether the step is possible.
    pub(crate) fn fits(&self, step: Move) -> bool
        ensures { result ≡ fits self.now step }
    {
        self.state.fits(step)
    }

    // Whether the recovery of this owner hasn't begun.
    pub(crate) fn may_act(&self, owner: u64) -> bool
        ensures { result ≡ not (is_lost owner self.now.lost) }
    {
        !self.state.is_lost(owner)
    }

    // Recalls the invariants of every machine for the prover.
    fn keeps(&self)
        ensures recorded { IsRecorded self.now }
        ensures counted { StepsAreOfCalls self.now }
        ensures orderly { HasFewSteps self.now → IsOrderly self.now }
    {
        let _ = &self.state;
    }

    /// The steps made so far.
    pub fn events(&self) -> &[Event]
        ensures value { result.now ≡ self.now.events }
        ensures recorded { IsRecorded self.now }
        ensures counted { StepsAreOfCalls self.now }
        ensures orderly { HasFewSteps self.now → IsOrderly self.now }
    {
        self.state.events.as_slice()
    }

    /// The finished calls, in the order in which they finished.
    pub fn finished(&self) -> &[Finished]
        ensures value { result.now ≡ self.now.finished }
        ensures recorded { IsRecorded self.now }
        ensures counted { StepsAreOfCalls self.now }
        ensures orderly { HasFewSteps self.now → IsOrderly self.now }
    {
        self.state.finished.as_slice()
    }

    /// The capacity: every index is below it.
    pub fn capacity(&self) -> u64
        ensures { result ≡ self.now.capacity }
    {
        self.state.capacity
    }

    /// Whether the set is locked for good.
    pub fn is_locked(&self) -> bool
        ensures { result ≡ is_locked self.now }
    {
        self.state.is_locked()
    }

    /// The stage of the party; a party that doesn't exist is idle.
    pub fn stage(&self, party: usize) -> RobustCall
        ensures { result ≡ stage_at self.now.seats party }
    {
        self.state.stage(party)
    }
}

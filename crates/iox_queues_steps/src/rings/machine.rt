//! A machine that runs a ring step by step.
ghost use Rattle.std.specs.Prelude.{◌≡◌, ◌+◌, ◌<◌, ◌≤◌, ◌^◌, IfOk, length};

use crate::rings::ends::{Pop, Push, RingKind};
use crate::rings::state::State;
use crate::{Event, Move, Placed, PopCall, PushCall, Stepped};
use std::alloc::{AllocError, Global};
use std::marker::Model;

/// A ring of either kind whose two ends make their steps in any order that the caller chooses.
///
/// Either end may stop at any step. The machine records every step, and the order in which puts, takes and looks took effect. Along this
/// order, the results are those of a bounded list.
#[derive(Drop)]
pub struct RingMachine {
    state: State,
}

impl Model for RingMachine {
    ghost use Rattle.iox_queues_steps.specs.RingMachine.{RingState, IsKept};

    ghost Value = { RingState };

    ghost use Rattle.iox_queues_steps.specs.Machine.{machine_of};

    ghost view = { λ m. machine_of m.state };

    ghost invariant = { λ m. IsKept (machine_of m.state) };
}

impl RingMachine {
    ghost use Rattle.iox_queues_steps.specs.RingMachine.{FollowsOrder, IsTold, RunsTo, StepsTo, Tells, start};

    /// A ring in which at most `limit` numbers wait, and the numbers of `waiting` wait at first. A push into the full ring removes the
    /// oldest number. It fails only if an allocation fails.
    pub fn overflowing(
        alloc: Global,
        limit: u64,
        waiting: &[u64],
    ) -> Result<RingMachine, AllocError>
        requires some { 0 < limit }
        requires room { length waiting.now ≤ limit }
        ensures { IfOk result (λ m. m ≡ start RingKind.Overflowing limit waiting.now) }
    {
        // No memory can hold 2^62 cells or more.
        if limit >= 1 << 62 {
            return Err(AllocError);
        }
        let initial = Vec::from_slice(alloc, waiting)?;
        let mut cells = Vec::from_slice(alloc, waiting)?;
        cells.resize(limit as usize + 1, 0)?;
        Ok(RingMachine {
            state: State::new(alloc, RingKind::Overflowing, limit, initial, cells),
        })
    }

    /// A ring in which at most `limit` numbers wait, and the numbers of `waiting` wait at first. It refuses a push when it is full. It
    /// fails only if an allocation fails.
    pub fn refusing(alloc: Global, limit: u64, waiting: &[u64]) -> Result<RingMachine, AllocError>
        requires room { length waiting.now ≤ limit }
        ensures { IfOk result (λ m. m ≡ start RingKind.Refusing limit waiting.now) }
    {
        // No memory can hold 2^62 cells or more.
        if limit >= 1 << 62 {
            return Err(AllocError);
        }
        let initial = Vec::from_slice(alloc, waiting)?;
        let mut cells = Vec::from_slice(alloc, waiting)?;
        cells.resize(if limit == 0 { 1 } else { limit as usize }, 0)?;
        Ok(RingMachine {
            state: State::new(alloc, RingKind::Refusing, limit, initial, cells),
        })
    }

    /// Begins a call, or makes the next step of a call in progress. A step that isn't possible is skipped.
    pub fn step(&mut self, step: Move) -> Stepped
        requires { self.old.log.moments < 2 ^ 63 }
        ensures steps { StepsTo self.old step result self.new }
        ensures tells { Tells self.old step result self.new }
        ensures order { FollowsOrder self.new }
        ensures told { IsTold self.new }
    {
        self.state.step(step)
    }

    /// Makes these steps one after another, skips those that aren't possible, and stops where memory for recording a step runs out. Returns
    /// how many steps were made.
    pub fn run(&mut self, schedule: &[Move]) -> usize
        requires { self.old.log.moments + length schedule.now < 2 ^ 63 }
        ensures runs { RunsTo self.old schedule.now result self.new }
        ensures order { FollowsOrder self.new }
        ensures told { IsTold self.new }
    {
        self.follows();
        let mut made = 0;
        let mut rest = schedule;
        while let Some((step, tail)) = rest.split_first() {
            let stepped = self.step(*step);
            if stepped.is_stopped() {
                return made;
            }
            made += stepped.count();
            rest = tail;
        }
        made
    }

    // Recalls the invariants of every machine for the prover.
    fn follows(&self)
        ensures order { FollowsOrder self.now }
        ensures told { IsTold self.now }
    {
        let _ = &self.state;
    }

    /// The puts, takes and looks so far, in the order in which they took effect.
    pub fn order(&self) -> &[Placed]
        ensures value { result.now ≡ self.now.log.order }
        ensures order { FollowsOrder self.now }
    {
        self.state.log.order.as_slice()
    }

    /// The steps made so far.
    pub fn events(&self) -> &[Event]
        ensures value { result.now ≡ self.now.log.events }
        ensures told { IsTold self.now }
    {
        self.state.log.events.as_slice()
    }

    /// The finished pushes, in their order.
    pub fn pushes(&self) -> &[PushCall]
        ensures value { result.now ≡ self.now.producer.calls }
        ensures order { FollowsOrder self.now }
        ensures told { IsTold self.now }
    {
        self.state.pushes.as_slice()
    }

    /// The finished pops and looks, in their order.
    pub fn pops(&self) -> &[PopCall]
        ensures value { result.now ≡ self.now.consumer.calls }
        ensures order { FollowsOrder self.now }
        ensures told { IsTold self.now }
    {
        self.state.pops.as_slice()
    }

    /// The stage of the push.
    pub fn push(&self) -> Push
        ensures { result ≡ self.now.producer.push }
    {
        self.state.push
    }

    /// The stage of the pop or look.
    pub fn pop(&self) -> Pop
        ensures { result ≡ self.now.consumer.pop }
    {
        self.state.pop
    }

    /// How many steps were made so far.
    pub fn moments(&self) -> u64
        ensures { result ≡ self.now.log.moments }
    {
        self.state.log.moments
    }
}

//! A single value that is accessed one word at a time: a machine in which one producer at a time stores and any party loads.
ghost use Rattle.std.specs.Prelude.{◌≡◌, ◌<◌, ◌^◌, ◌-◌, IfOk, length};

mod call;
mod state;

pub use call::{AtomicCall, Call};
use iox_queues::sets::Event;
use iox_queues_steps::Stepped;
use state::State;
use std::alloc::{AllocError, Global};
use std::marker::Model;

/// One step: a party begins a call, or makes the next step of its call.
#[derive(Clone, Copy)]
pub enum Move {
    /// The party with this number begins a call.
    Begin(usize, Call),
    /// The party with this number makes the next step of its call.
    GoOn(usize),
}

/// A finished call, with its first and its last step, by their numbers among the steps made.
#[derive(Clone, Copy)]
pub struct Finished {
    /// The number of the party that made the call.
    pub party: usize,
    /// The call.
    pub call: Call,
    /// The number of its first step.
    pub first: u64,
    /// The number of its last step.
    pub last: u64,
}

/// A single value whose parties make their steps in any order that the caller chooses.
///
/// A table has the values that may be stored, each with the same number of words; value 0 is current at first. Any party may stop at any
/// step. A store is skipped if it begins while another store is in progress. As long as the counter was moved fewer than 2^64 - 1 times,
/// the words that a load found between its last two reads of the counter are those that were current at the last one, and the current words
/// are those of the store that moved the counter last, or the first ones. Each step belongs to one call. A finished store moved the counter
/// exactly once, and a load never moves it.
#[derive(Drop)]
pub struct AtomicMachine {
    state: State,
}

impl Model for AtomicMachine {
    ghost use Rattle.iox_index_steps.specs.AtomicMachine.{AtomicState};
    ghost use Rattle.iox_index_steps.specs.AtomicKept.{IsKept};

    ghost Value = { AtomicState };

    ghost use Rattle.iox_index_steps.specs.AtomicView.{machine_of};

    ghost view = { λ m. machine_of m.state };

    ghost invariant = { λ m. IsKept (machine_of m.state) };
}

impl AtomicMachine {
    ghost use Rattle.iox_index_steps.specs.AtomicMachine.{HasFewStores, IsRecorded, IsTold, MovesOnce, StepsAreOfCalls, StepsTo};
    ghost use Rattle.iox_index_steps.specs.AtomicMachine.{RunsTo, TellsStep, start};

    /// A machine in which the first of these values is current, and this many parties may call. If `values` is empty, the value has no
    /// words. It fails only if an allocation fails.
    pub fn new(
        alloc: Global,
        values: Vec<Vec<u64>>,
        parties: usize,
    ) -> Result<AtomicMachine, AllocError>
        ensures { IfOk result (λ m. m ≡ start values.items parties) }
    {
        Ok(AtomicMachine {
            state: State::new(alloc, values, parties)?,
        })
    }

    /// Begins a call, or makes the next step of a call. A step that isn't possible is skipped. What calls did is stated as long as the
    /// counter was moved fewer than 2^64 - 1 times, which holds if fewer steps were made.
    pub fn step(&mut self, step: Move) -> Stepped
        ensures steps { StepsTo self.old step result self.new }
        ensures tells { TellsStep self.old step result self.new }
        ensures recorded { IsRecorded self.new }
        ensures counted { StepsAreOfCalls self.new }
        ensures moves { MovesOnce self.new }
        ensures told { HasFewStores self.new → IsTold self.new }
        ensures few { length self.new.events < 2 ^ 64 - 1 → HasFewStores self.new }
    {
        self.state.step(step)
    }

    /// Makes these steps one after another, skips those that aren't possible, and stops where memory for recording a step runs out. Returns
    /// how many steps were made. What calls did is stated as long as the counter was moved fewer than 2^64 - 1 times.
    pub fn run(&mut self, schedule: &[Move]) -> usize
        ensures runs { RunsTo self.old schedule.now result self.new }
        ensures recorded { IsRecorded self.new }
        ensures counted { StepsAreOfCalls self.new }
        ensures moves { MovesOnce self.new }
        ensures told { HasFewStores self.new → IsTold self.new }
        ensures few { length self.new.events < 2 ^ 64 - 1 → HasFewStores self.new }
    {
        self.keeps();
        let mut made = 0;
        let mut rest = schedule;
        while let Some((step, tail)) = rest.split_first() {
            let stepped = self.step(*step);
            if stepped.is_stopped() {
                return made;
            }
            made += stepped.count();
            rest = tail;
        }
        made
    }

    // Recalls the invariants of every machine for the prover.
    fn keeps(&self)
        ensures recorded { IsRecorded self.now }
        ensures counted { StepsAreOfCalls self.now }
        ensures moves { MovesOnce self.now }
        ensures told { HasFewStores self.now → IsTold self.now }
    {
        let _ = &self.state;
    }

    /// The steps made so far.
    pub fn events(&self) -> &[Event]
        ensures value { result.now ≡ self.now.events }
        ensures recorded { IsRecorded self.now }
        ensures counted { StepsAreOfCalls self.now }
        ensures moves { MovesOnce self.now }
        ensures told { HasFewStores self.now → IsTold self.now }
    {
        self.state.events.as_slice()
    }

    /// The finished calls, in the order in which they finished.
    pub fn finished(&self) -> &[Finished]
        ensures value { result.now ≡ self.now.finished }
        ensures recorded { IsRecorded self.now }
        ensures counted { StepsAreOfCalls self.now }
        ensures moves { MovesOnce self.now }
        ensures told { HasFewStores self.now → IsTold self.now }
    {
        self.state.finished.as_slice()
    }
}

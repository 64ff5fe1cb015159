//! A container of members that is accessed one word at a time: parties add, remove, copy and recover members, over a set that knows the
//! owner of each held index.
ghost use Rattle.std.specs.Prelude.{◌≡◌, ◌+◌, ◌*◌, ◌<◌, ◌^◌, IfOk, length};

mod call;
mod state;

use crate::machine::RobustSetMachine;
pub use call::{ContainerCall, MemberAnswer, MemberCall};
use iox_queues::sets::Event;
use iox_queues_steps::Stepped;
pub use state::MemberSeat;
use state::MemberState;
use std::alloc::{AllocError, Global};
use std::marker::Model;

/// One step: a party begins a call, or makes the next step of its call.
#[derive(Clone, Copy)]
pub enum MemberMove {
    /// The party with this number begins a call.
    Begin(usize, MemberCall),
    /// The party with this number makes the next step of its call.
    GoOn(usize),
}

/// A finished call, with its first and its last step, by their numbers among the steps made.
#[derive(Clone, Copy)]
pub struct MemberFinished {
    /// The number of the party that made the call.
    pub party: usize,
    /// The call.
    pub call: MemberCall,
    /// The result of the call.
    pub answer: MemberAnswer,
    /// The number of its first step.
    pub first: u64,
    /// The number of its last step.
    pub last: u64,
}

/// A container of members whose parties make their steps in any order that the caller chooses.
///
/// A table has the values that may be added, each with as many words as the first. Any party may stop at any step. A removal is possible
/// only for the party that added the member, and only once. After the recovery of an owner began in the index set, nobody adds or removes
/// members for this owner; only recoveries remove its members, and the caller passes in what they decide on each place. Where a recovery
/// sees an index of its owner without a member, it frees the index without a decision. After any number of steps, the result of each step
/// is what its word held, each step belongs to one call of its party, and the steps of a call are those that the call requested.
///
/// If fewer than 2^64 - 1 steps were made, the theorems of [`RobustSetMachine`] hold for the index set, except that a recovery may also
/// free an index without a member. An addition that wasn't refused stored its value at the index that it returns, where no member was, and
/// a removal took its member out; each did so by one step of its own, and each counted one change, as a recovery does. An addition is
/// refused if its call on the set was, and a removal or a recovery returns what its call on the set did. A member stays, with its value,
/// until the party that added it removes it or a recovery does. Each step of a recovery removes one selected member of its owner, or none.
/// After a finished recovery, none of its selected members is in the container, for good, and its owner holds no index without a member,
/// except where a recovery removed one since this recovery began. Each member in a copy was in the container with exactly that value at one
/// moment of the copy, and a member whose count didn't change during the copy is in it. A copy reports that nothing changed only if no
/// change began and finished since the party's last copy.
///
/// An addition or removal takes effect at one step of its party, whoever is recovered. Before the step of an addition, no member of the
/// party is at its index, except one that a recovery removes before that step; before the step of a removal, its member is there. After the
/// step, it is the other way round. Until the call finishes, no recovery removes the added member, unless the recovery of its owner began.
/// By its own steps, each call adds and removes exactly what its result says.
#[derive(Drop)]
pub struct ContainerMachine {
    state: MemberState,
}

impl Model for ContainerMachine {
    ghost use Rattle.iox_robust_steps.specs.ContainerMachine.{ContainerParts};
    ghost use Rattle.iox_robust_steps.specs.ContainerKept.{MembersAreKept};

    ghost Value = { ContainerParts };

    ghost use Rattle.iox_robust_steps.specs.ContainerView.{parts_of};

    ghost view = { λ m. parts_of m.state };

    ghost invariant = { λ m. MembersAreKept (parts_of m.state) };
}

impl ContainerMachine {
    ghost use Rattle.iox_queues.specs.Values.{table_value};
    ghost use Rattle.iox_robust_steps.specs.ContainerMachine.{HasFewMoves, MemberRunsTo, MemberStepsTo, MemberTellsStep, empty_parts};
    ghost use Rattle.iox_robust_steps.specs.ContainerMachine.{MembersAreRecorded, MindsCopies, member_stage};
    ghost use Rattle.iox_robust_steps.specs.ContainerKept.{MembersAreOrderly};
    ghost use Rattle.iox_robust_steps.specs.ContainerRecovering.{TakesOutOnlyItsOwn};
    ghost use Rattle.iox_robust_steps.specs.ContainerStays.{MembersAreOfCalls};

    /// An empty container with this capacity and this many parties, to which these values may be added. If `values` is empty, each value
    /// has no words. A recovery names a list of decisions by its number; the list says for each place whether its member is to be removed,
    /// and a member without a decision stays. It fails only if an allocation fails.
    pub fn new(
        alloc: Global,
        capacity: usize,
        parties: usize,
        values: Vec<Vec<u64>>,
        decisions: Vec<Vec<bool>>,
    ) -> Result<ContainerMachine, AllocError>
        requires { capacity + (capacity * length (table_value values.items 0) + 1) < 2 ^ 62 }
        ensures { IfOk result (λ m. m ≡ empty_parts capacity parties values.items decisions.items) }
    {
        Ok(ContainerMachine {
            state: MemberState::new(alloc, capacity, parties, values, decisions)?,
        })
    }

    /// Begins a call, or makes the next step of a call. A step that isn't possible is skipped. The theorems hold if fewer than 2^64 - 1
    /// steps were made.
    pub fn step(&mut self, step: MemberMove) -> Stepped
        ensures steps { MemberStepsTo self.old step result self.new }
        ensures tells { MemberTellsStep self.old step result self.new }
        ensures copies { MindsCopies self.old step result self.new }
        ensures recovers { HasFewMoves self.new → TakesOutOnlyItsOwn self.old step self.new }
        ensures recorded { MembersAreRecorded self.new }
        ensures counted { MembersAreOfCalls self.new }
        ensures orderly { HasFewMoves self.new → MembersAreOrderly self.new }
    {
        self.state.step(step)
    }

    /// Makes these steps one after another, skips those that aren't possible, and stops where memory for recording a step runs out. Returns
    /// how many steps were made. The theorems hold if fewer than 2^64 - 1 steps were made.
    pub fn run(&mut self, schedule: &[MemberMove]) -> usize
        ensures runs { MemberRunsTo self.old schedule.now result self.new }
        ensures recorded { MembersAreRecorded self.new }
        ensures counted { MembersAreOfCalls self.new }
        ensures orderly { HasFewMoves self.new → MembersAreOrderly self.new }
    {
        self.keeps();
        let mut made = 0;
        let mut rest = schedule;
        while let Some((step, tail)) = rest.split_first() {
            let stepped = self.step(*step);
            if stepped.is_stopped() {
                return made;
            }
            made += stepped.count();
            rest = tail;
        }
        made
    }

    // Recalls the invariants of every machine for the prover.
    fn keeps(&self)
        ensures recorded { MembersAreRecorded self.now }
        ensures counted { MembersAreOfCalls self.now }
        ensures orderly { HasFewMoves self.now → MembersAreOrderly self.now }
    {
        let _ = &self.state;
    }

    /// The steps made so far. A step in which a call accesses the index set is a local one here, and one of the set's own events.
    pub fn events(&self) -> &[Event]
        ensures value { result.now ≡ self.now.events }
        ensures recorded { MembersAreRecorded self.now }
        ensures counted { MembersAreOfCalls self.now }
        ensures orderly { HasFewMoves self.now → MembersAreOrderly self.now }
    {
        self.state.events.as_slice()
    }

    /// The finished calls, in the order in which they finished.
    pub fn finished(&self) -> &[MemberFinished]
        ensures value { result.now ≡ self.now.finished }
        ensures orderly { HasFewMoves self.now → MembersAreOrderly self.now }
    {
        self.state.finished.as_slice()
    }

    /// The index set under the container.
    pub fn indices(&self) -> &RobustSetMachine
        ensures { result.now ≡ self.now.indices }
    {
        &self.state.set
    }

    /// The stage of the party; a party that doesn't exist is idle.
    pub fn stage(&self, party: usize) -> ContainerCall
        ensures { result ≡ member_stage self.now.seats party }
    {
        self.state.stage(party)
    }
}

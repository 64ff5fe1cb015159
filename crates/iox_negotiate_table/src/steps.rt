//! A table with actions of other nodes before each storage operation.
ghost use Rattle.std.specs.Prelude.{◌≡◌, drop};
ghost use Rattle.iox_negotiate_table.specs.Stepped.{ActsAll, next_list};

use crate::step::ForeignStep;
use crate::table::Table;
use iox_describe::ServiceHash;
use iox_negotiate_base::{
    LeaveAnswer, LockAnswer, LookAnswer, MakeSegmentAnswer, OpenSegmentAnswer, PublishAnswer,
    RemoveAnswer, Storage, StoredDescription,
};
use std::alloc::AllocError;
use std::marker::Model;

/// Actions of foreign nodes that are made one after another. Contracts see their list.
pub struct StepList {
    steps: Vec<ForeignStep>,
}

/// Stated once here, so that crates above don't have to prove it again.
impl Drop for StepList {
    fn drop(self) {
        let StepList { steps: _ } = self;
    }
}

impl Model for StepList {
    ghost use Rattle.std.specs.Prelude.{List};
    ghost use Rattle.iox_negotiate_table.specs.declared.step.ForeignStep.{ForeignStep};

    ghost Value = { List ForeignStep };

    ghost view = { λ l. l.steps.items };
}

impl StepList {
    /// A list of these actions.
    pub fn new(steps: Vec<ForeignStep>) -> Self
        ensures { result ≡ steps.items }
    {
        StepList { steps }
    }

    /// The actions.
    pub fn as_slice(&self) -> &[ForeignStep]
        ensures { result.now ≡ self.now }
    {
        self.steps.as_slice()
    }
}

/// A table on which foreign nodes act: the first list of actions comes before the first storage operation that looks up, locks, makes,
/// publishes or opens something, the second list before the second storage operation of these kinds, and so on. If memory for an action
/// runs out, the storage operation returns `OutOfMemory`, and the actions before remain.
#[derive(Drop)]
pub struct Stepped {
    table: Table,
    lists: Vec<StepList>,
    at: usize,
}

impl Model for Stepped {
    ghost use Rattle.std.specs.Prelude.{drop};
    ghost use Rattle.iox_negotiate_table.specs.Stepped.{Steps};

    ghost Value = { Steps };

    ghost view = { λ s. record { table = s.table; lists = drop s.at s.lists.items } };
}

impl Stepped {
    ghost use Rattle.iox_negotiate_table.specs.Stepped.{Steps};

    /// The table, with these lists of actions to be made.
    pub fn new(table: Table, lists: Vec<StepList>) -> Self
        ensures { result ≡ record { table = table; lists = lists.items } }
    {
        Stepped {
            table,
            lists,
            at: 0,
        }
    }

    /// The table as it is now; the actions in the remaining lists are not made.
    pub fn into_table(self) -> Table
        ensures { result ≡ self.table }
    {
        self.table
    }

    // Makes the actions of the next list.
    fn run_list(&mut self, hash: &ServiceHash) -> Result<(), AllocError>
        ensures acts { ActsAll hash.now (next_list self.old.lists) self.old.table result self.new.table }
        ensures lists { self.new.lists ≡ drop 1 self.old.lists }
    {
        let Some(list) = self.lists.get(self.at) else {
            return Ok(());
        };
        self.at += 1;
        act_all(&mut self.table, hash, list.as_slice())
    }
}

// Makes the actions one after another.
fn act_all(table: &mut Table, hash: &ServiceHash, steps: &[ForeignStep]) -> Result<(), AllocError>
    ensures { ActsAll hash.now steps.now table.old result table.new }
{
    let mut rest = steps;
    while let Some(split) = rest.split_first() {
        rest = split.1;
        table.act(hash, split.0)?;
    }
    Ok(())
}

impl Storage for Stepped {
    ghost use Rattle.iox_negotiate_table.specs.Stepped.{SteppedSight};

    ghost id = { λ s. s.table.id };

    ghost gives = { SteppedSight };

    fn id(&self) -> u64 {
        self.table.id()
    }

    fn look(&mut self, hash: &ServiceHash) -> LookAnswer {
        match self.run_list(hash) {
            Ok(()) => self.table.look(hash),
            Err(_) => LookAnswer::OutOfMemory,
        }
    }

    fn lock(&mut self, hash: &ServiceHash, node: u64) -> LockAnswer {
        match self.run_list(hash) {
            Ok(()) => self.table.lock(hash, node),
            Err(_) => LockAnswer::OutOfMemory,
        }
    }

    fn make_segment(
        &mut self,
        hash: &ServiceHash,
        number: u64,
        node: u64,
        max_nodes: u64,
    ) -> MakeSegmentAnswer {
        match self.run_list(hash) {
            Ok(()) => self.table.make_segment(hash, number, node, max_nodes),
            Err(_) => MakeSegmentAnswer::OutOfMemory,
        }
    }

    fn publish(
        &mut self,
        hash: &ServiceHash,
        number: u64,
        bytes: StoredDescription,
    ) -> PublishAnswer {
        match self.run_list(hash) {
            Ok(()) => self.table.publish(hash, number, bytes),
            Err(_) => PublishAnswer::OutOfMemory,
        }
    }

    fn unlock(&mut self, hash: &ServiceHash, number: u64) {
        self.table.unlock(hash, number);
    }

    fn open_segment(&mut self, hash: &ServiceHash, number: u64, node: u64) -> OpenSegmentAnswer {
        match self.run_list(hash) {
            Ok(()) => self.table.open_segment(hash, number, node),
            Err(_) => OpenSegmentAnswer::OutOfMemory,
        }
    }

    fn leave(&mut self, hash: &ServiceHash, number: u64, node: u64) -> LeaveAnswer {
        self.table.leave(hash, number, node)
    }

    fn remove_description(&mut self, hash: &ServiceHash, number: u64) -> RemoveAnswer {
        self.table.remove_description(hash, number)
    }

    fn remove_segment(&mut self, hash: &ServiceHash, number: u64) -> RemoveAnswer {
        self.table.remove_segment(hash, number)
    }
}

//! Publishers and subscribers of one service that make their calls one access to a shared word at a time.
ghost use Rattle.std.specs.Prelude.{◌≡◌, ◌<◌, [], true, false, IfOk, OnErr, get_or, length};

use crate::found::Found;
use crate::link::{Link, Positions};
use crate::sizes::LaneSizes;
use crate::state::State;
use iox_lanes_parties::{Entry, FinishedCall, Move, Party};
use iox_queues_steps::{Placed, Stepped};
use std::alloc::{AllocError, Global};
use std::marker::Model;

/// Any number of publishers and subscribers of one service, and the words that they share. They make one step at a time, in any order that
/// the caller chooses, and any of them may stop anywhere.
///
/// A port's own data change only by its own steps, and each step touches at most one shared word. Not in `iceoryx2`.
pub struct LaneMachine {
    pub(crate) state: State,
}

/// Writes the drop out once, so that no crate above proves it anew.
impl Drop for LaneMachine {
    fn drop(self) {
        let LaneMachine { state: _ } = self;
    }
}

impl Model for LaneMachine {
    ghost use Rattle.iox_lanes_machine.specs.World.{World};

    ghost Value = { World };

    ghost use Rattle.iox_lanes_machine.specs.State.{world_of};
    ghost use Rattle.iox_lanes_machine.specs.Kept.{IsKept};

    ghost view = { λ l. world_of l.state };

    ghost invariant = { λ l. IsKept (world_of l.state) };
}

impl LaneMachine {
    ghost use Rattle.iox_lanes_machine.specs.State.{world_of};

    // The state that the lanes consist of.
    pub(crate) fn into_state(self) -> State
        ensures { world_of result ≡ self }
    {
        let LaneMachine { state } = self;
        state
    }
}

impl LaneMachine {
    ghost use Rattle.iox_lanes_machine.specs.World.{RunsTo, StepsTo};
    ghost use Rattle.iox_lanes_machine.specs.Apart.{StaysApart};
    ghost use Rattle.iox_lanes_machine.specs.Made.{start};
    ghost use Rattle.iox_lanes_machine.specs.Alone.{LoansStandAlone, UsedSlotsStay};
    ghost use Rattle.iox_lanes_machine.specs.Arrivals.{OrderArrives};
    ghost use Rattle.iox_lanes_machine.specs.Calls.{CallsKeepTime};
    ghost use Rattle.iox_lanes_machine.specs.Findings.{FindsTo};
    ghost use Rattle.iox_lanes_machine.specs.Fixed.{StaysFixed};
    ghost use Rattle.iox_lanes_machine.specs.Held.{ReadsWhole};
    ghost use Rattle.iox_lanes_machine.specs.Left.{StoresLeft};
    ghost use Rattle.iox_lanes_machine.specs.Loans.{LoansLent};
    ghost use Rattle.iox_lanes_machine.specs.Queues.{GivenBackInTurn};
    ghost use Rattle.iox_lanes_machine.specs.Reads.{ReadsLie};
    ghost use Rattle.iox_lanes_machine.specs.Receipts.{ReceiptsFollow};
    ghost use Rattle.iox_lanes_machine.specs.Returns.{ReturnsNear};
    ghost use Rattle.iox_lanes_machine.specs.Rooms.{ReleasesFollow};
    ghost use Rattle.iox_lanes_machine.specs.Sends.{SendsFollow};
    ghost use Rattle.iox_lanes_machine.specs.Slots.{LoansApart, SlotsStay};
    ghost use Rattle.iox_lanes_machine.specs.TakenIn.{TakesIn, WantsMemory};
    ghost use Rattle.iox_lanes_machine.specs.Told.{Told};
    ghost use Rattle.iox_lanes_machine.specs.Mailboxes.{OrderFollows, OrdersFollow, PositionsNear, positions_of};

    /// Lanes of these sizes, on which nothing was done yet. Each publisher has a connection to each subscriber, numbered publisher by
    /// publisher. `AllocError` is returned only where an allocation fails, as it does for buffers of 2^61 messages, completion rings for
    /// 2^61 samples, or 2^61 subscribers.
    pub fn new(alloc: Global, sizes: LaneSizes) -> Result<LaneMachine, AllocError>
        requires { 0 < sizes.buffer }
        ensures { IfOk result (λ made. made ≡ start sizes) }
    {
        if sizes.buffer >= 1 << 61 {
            return Err(AllocError);
        }
        if sizes.most_borrowed >= 1 << 61 {
            return Err(AllocError);
        }
        if sizes.subscribers >= 1 << 61 {
            return Err(AllocError);
        }
        let Some(table) = sizes.table() else {
            return Err(AllocError);
        };
        let state = State::new(alloc, &sizes, &table)?;
        Ok(LaneMachine { state })
    }

    /// Sets what the lanes begin with, before their first step: what `found` names (see `Found`).
    ///
    /// Returns false, and changes nothing, after the first step, and also unless
    /// - for a waiting message or a sample in a completion ring: its connection exists and doesn't have the slot yet, which is one of the
    ///   publisher's; a message has space in the buffer; and both together are no more than the cells of the completion ring;
    /// - for the newest slot of a history: it is one of the publisher's, is not yet in the history, and the history isn't full;
    /// - for a word of a slot: the slot has this word;
    /// - for a buffer size: it is at least 1 and at most the present one, and nothing waits or came back at the connection;
    /// - for the number of slots and the loan limit: the publisher has at least as many, and no message, sample or history was set;
    /// - for what a sender's headers name: the publisher exists;
    /// - for two swapped places: the subscriber has connections at both.
    ///
    /// A message, sample or slot of a history comes after those set before. `AllocError` is returned, and nothing changes, only if an
    /// allocation fails for a message that would be taken.
    pub fn find(&mut self, found: Found) -> Result<bool, AllocError>
        ensures finds { IfOk result (λ answer. FindsTo self.old found answer self.new) }
        ensures takes { IfOk result (λ answer. TakesIn self.old found answer self.new) }
        ensures memory { OnErr result (WantsMemory self.old found) }
        ensures same { OnErr result (self.new ≡ self.old) }
    {
        if !self.state.finds(found) {
            return Ok(false);
        }
        self.state.find(found)?;
        Ok(true)
    }

    /// Begins a call of a party, or makes the next step of the call that it is in. Returns whether the step was made, and whether it was
    /// the last one of its call. Nothing changes if the move doesn't fit, or if there is no memory for the call that ends or for what the
    /// step adds to an order. A call may begin between calls, if it is of the party's kind, and the loan or sample that it names exists and
    /// is the party's own; a send needs a finished write of its loan. A party goes on only inside a call.
    ///
    /// No step changes the connections, the sizes of the words, the numbers of publishers and subscribers, or, for any publisher, the
    /// number of its first slot, its number of slots, its loan limit, and its history size.
    ///
    /// As long as at most 2^63 steps were made: a loan is in no history and at no connection; no step changes a word of a slot that is in a
    /// history or at a connection; a write and a send leave in their slot what they were given; and a read returns exactly what its slot
    /// contains. A loan is refused exactly if the publisher has as many loans as its loan limit allows, and finds no slot only if each slot
    /// is used; below the loan limit, and with as many slots as the worst case needs, it gets a slot. A release appends its sample to those
    /// in the completion ring of its connection, and a loan or a send takes samples back from the first on.
    pub fn step(&mut self, party: Party, step: &Move) -> Stepped
        ensures steps { StepsTo self.old party step.now result self.new }
        ensures apart { StaysApart self.old party step.now result self.new }
        ensures told { Told self.old party step.now result self.new }
        ensures slots { SlotsStay self.old party self.new }
        ensures fixed { StaysFixed self.old self.new }
        ensures uses { UsedSlotsStay self.old self.new }
        ensures left { StoresLeft self.old self.new }
        ensures lent { LoansLent self.old self.new }
        ensures turns { GivenBackInTurn self.old party self.new }
        ensures whole { ReadsWhole self.old self.new }
        ensures orders { OrdersFollow self.new }
        ensures receipts { ReceiptsFollow self.new }
        ensures sends { SendsFollow self.new }
        ensures calls { CallsKeepTime self.new }
        ensures loans { LoansApart self.new }
        ensures alone { LoansStandAlone self.new }
        ensures reads { ReadsLie self.new }
        ensures releases { ReleasesFollow self.new }
    {
        self.state.step(party, step)
    }

    /// Makes the entries one after the other, and skips those that don't fit or find no memory for what they record; these change nothing.
    /// Returns how many were made. What no step changes, a run doesn't change either.
    pub fn run(&mut self, schedule: &[Entry]) -> usize
        ensures runs { RunsTo self.old schedule.now result self.new }
        ensures fixed { StaysFixed self.old self.new }
        ensures orders { OrdersFollow self.new }
        ensures receipts { ReceiptsFollow self.new }
        ensures sends { SendsFollow self.new }
        ensures calls { CallsKeepTime self.new }
        ensures loans { LoansApart self.new }
        ensures alone { LoansStandAlone self.new }
        ensures reads { ReadsLie self.new }
        ensures releases { ReleasesFollow self.new }
    {
        self.follow();
        let mut made = 0;
        let mut rest = schedule;
        while let Some((entry, tail)) = rest.split_first() {
            made += self.step(entry.party, &entry.step).count();
            rest = tail;
        }
        made
    }

    // What is true of all lanes.
    fn follow(&self)
        ensures orders { OrdersFollow self.now }
        ensures receipts { ReceiptsFollow self.now }
        ensures sends { SendsFollow self.now }
        ensures calls { CallsKeepTime self.now }
        ensures loans { LoansApart self.now }
        ensures alone { LoansStandAlone self.now }
        ensures reads { ReadsLie self.now }
        ensures releases { ReleasesFollow self.now }
    {
        let _ = &self.state;
    }

    /// The connections, by number.
    pub fn links(&self) -> &[Link]
        ensures { result.now ≡ self.now.links }
    {
        self.state.links.as_slice()
    }

    /// The puts, takes and looks of a connection, in their order; none if there is no such connection. As long as at most 2^63 steps were
    /// made, they answer as the connection's mailbox does, and their moments never fall. So the slots taken are part of those put, in the
    /// order of the puts, and each put is taken at most once.
    pub fn order(&self, connection: u64) -> &[Placed]
        ensures value { result.now ≡ get_or self.now.orders connection [] }
        ensures follows { OrderFollows self.now connection result.now }
        ensures arrives { OrderArrives self.now connection result.now }
    {
        self.state.order(connection)
    }

    /// The four positions of a connection. As long as at most 2^63 steps were made, at most as many messages as may wait are between the
    /// two positions of the submission ring, or one more on an overflowing ring; and at most as many samples as the completion ring has
    /// cells are between its two positions. The completion ring has one cell more than the maximum of waiting and borrowed messages
    /// together.
    pub fn position(&self, connection: u64) -> Positions
        requires { connection < length self.now.links }
        ensures value { result ≡ positions_of self.now.table connection }
        ensures near { PositionsNear self.now connection result }
        ensures back { ReturnsNear self.now result }
    {
        self.state.positions(connection)
    }

    /// The calls that ended, in their order. As long as at most 2^63 steps were made: each has an answer of its own kind, and those of one
    /// party don't overlap. The receives returned exactly the slots that were taken at each connection, in that order, except the one that
    /// a receive in progress has. Each send has one put of its slot at each connection of its publisher, within the time of the send and
    /// one connection after the other, and its answer counts how many were taken and how many were refused. At each connection these puts
    /// are in the order of the sends; a put after them is of the send that the publisher is in. Each release returned its sample.
    pub fn finished(&self) -> &[FinishedCall]
        ensures value { result.now ≡ self.now.finished }
        ensures receipts { ReceiptsFollow self.now }
        ensures sends { SendsFollow self.now }
        ensures calls { CallsKeepTime self.now }
        ensures reads { ReadsLie self.now }
        ensures releases { ReleasesFollow self.now }
    {
        self.follow();
        self.state.finished.as_slice()
    }

    /// The words that finished reads loaded, one read after the other, each with header, user header and payload. The answer of a read says
    /// where its words begin.
    pub fn words_read(&self) -> &[u64]
        ensures value { result.now ≡ self.now.read }
        ensures reads { ReadsLie self.now }
    {
        self.follow();
        self.state.read.as_slice()
    }

    /// How many steps were made.
    pub fn moments(&self) -> u64
        ensures { result ≡ self.now.moments }
    {
        self.state.moments
    }
}

//! Lanes taken apart: their words and their ports.
ghost use Rattle.std.specs.Prelude.{◌≡◌, ◌≤◌, ◌^◌, ℕ};
ghost use Rattle.iox_lanes_machine.specs.Kept.{IsWithin};
ghost use Rattle.iox_lanes_machine.specs.Mailboxes.{PositionsNear, positions_of};
ghost use Rattle.iox_lanes_machine.specs.Opening.{SlotsNamed};
ghost use Rattle.iox_lanes_machine.specs.Rooms.{RoomsFollow};
ghost use Rattle.iox_lanes_machine.specs.Owned.{HistoriesAreOwn, MailHasRoom, MailIsOwn};
ghost use Rattle.iox_lanes_machine.specs.Slots.{SlotsInRows};
ghost use Rattle.iox_lanes_machine.specs.Together.{HoldTogether};

use crate::lanes::LaneMachine;
use crate::state::State;
use iox_lanes_base::words::WordTable;
use iox_lanes_parties::{PublisherLane, SubscriberLane};

impl LaneMachine {
    /// The shared words.
    pub fn table(&self) -> &WordTable
        ensures { result.now ≡ self.now.table }
    {
        &self.state.table
    }

    /// The publishers, by number. As long as at most 2^63 steps were made, each has only slots of its own in its history, and at most as
    /// many as its history size.
    pub fn publishers(&self) -> &[PublisherLane]
        ensures value { result.now ≡ self.now.publishers }
        ensures histories { HistoriesAreOwn self.now }
    {
        self.state.publishers.as_slice()
    }

    /// The subscribers, by number.
    pub fn subscribers(&self) -> &[SubscriberLane]
        ensures { result.now ≡ self.now.subscribers }
    {
        self.state.subscribers.as_slice()
    }

    /// Theorem on all lanes: ports, connections and words are those of one service, the slots of each publisher come before those of later
    /// publishers, and each cell of a ring names a slot. As long as at most 2^63 steps were made, no read position is beyond its write
    /// position; what waits at a connection and what a history has are slots of the publisher; between calls, no more messages wait at a
    /// connection than its maximum; words, ports and slots agree with each other (`HoldTogether`); and no connection has more slots than
    /// its completion ring has cells.
    pub fn are_of_one_service(&self)
        ensures within { IsWithin self.now }
        ensures rows { SlotsInRows self.now }
        ensures named { SlotsNamed self.now }
        ensures near { (connection : ℕ) → PositionsNear self.now connection (positions_of self.now.table connection) }
        ensures mail { (connection : ℕ) → MailIsOwn self.now connection }
        ensures room { (connection : ℕ) → MailHasRoom self.now connection }
        ensures histories { HistoriesAreOwn self.now }
        ensures together { self.now.moments ≤ 2 ^ 63 → HoldTogether self.now }
        ensures rooms { RoomsFollow self.now }
    {
        let _ = &self.state;
    }

    /// The publishers and the subscribers; the words, orders and finished calls are dropped.
    pub fn into_ports(self) -> (Vec<PublisherLane>, Vec<SubscriberLane>)
        ensures { (result.0.items ≡ self.publishers) × (result.1.items ≡ self.subscribers) }
    {
        let State {
            publishers,
            subscribers,
            ..
        } = self.into_state();
        (publishers, subscribers)
    }
}

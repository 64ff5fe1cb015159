//! What waits at a connection, read from its ring.
ghost use Rattle.std.specs.Prelude.{◌≡◌, ◌+◌, ◌-◌, ◌<◌, ◌≤◌, ◌%◌, length, slice_get, Some};
ghost use Rattle.iox_lanes_machine.specs.QueuesSteps.Ends.{cells_of};
ghost use Rattle.iox_lanes_machine.specs.QueuesSteps.declared.access.Word.TheVariants.{Cell};
ghost use Rattle.iox_lanes_machine.specs.LanesBase.Table.{held_by};
ghost use Rattle.iox_lanes_machine.specs.Kept.{IsWithin};
ghost use Rattle.iox_lanes_machine.specs.Links.{LinkState};
ghost use Rattle.iox_lanes_machine.specs.Mailboxes.{positions_of};
ghost use Rattle.iox_lanes_machine.specs.Owned.{MailIsOwn};
ghost use Rattle.iox_lanes_machine.specs.Resting.{Rests, mail_at};
ghost use Rattle.iox_lanes_machine.specs.Rings.{sent_word};
ghost use Rattle.iox_lanes_machine.specs.State.{world_of};

use crate::found::cells;
use crate::lanes::LaneMachine;
use crate::state::State;
use iox_lanes_base::words::{ConnectionRing, SharedWord};
use iox_queues_steps::Word;

impl State {
    // The value of the cell of this position in a connection's submission ring.
    #[tactic(auto, using(crate::proofs::Findings::message_words))]
    fn message_at(&self, connection: u64, position: u64) -> u64
        requires within { IsWithin (world_of self.now) }
        requires there { connection < length self.now.links.items }
        ensures { (link : LinkState) → slice_get self.now.links.items connection ≡ Some link
            → result ≡ held_by self.now.table (sent_word connection (Cell (position % cells_of link.kind link.limit))) }
    {
        // A ring has at most as many cells as the table has words for it.
        let _most = self.table.sizes().submission_cells;
        let Some(link) = self.links.get(connection as usize) else {
            return 0;
        };
        let count = cells(link.kind(), link.limit());
        self.table.word(SharedWord::Ring {
            connection,
            ring: ConnectionRing::Submission,
            word: Word::Cell(position % count),
        })
    }

    // The number of messages between the two positions of a connection, but at most the maximum number of waiting messages.
    fn message_count(&self, connection: u64) -> u64
        requires { connection < self.now.table.sizes.connections }
        ensures few { (link : LinkState) → slice_get self.now.links.items connection ≡ Some link → result ≤ link.limit }
        ensures between { (link : LinkState) → slice_get self.now.links.items connection ≡ Some link
            → (positions_of self.now.table connection).submission_write ≤ (positions_of self.now.table connection).submission_read +
            link.limit
            → result ≡ (positions_of self.now.table connection).submission_write -
            (positions_of self.now.table connection).submission_read }
    {
        let positions = self.positions(connection);
        let between = positions
            .submission_write
            .saturating_sub(positions.submission_read);
        match self.links.get(connection as usize) {
            Some(link) if between > link.limit() => link.limit(),
            _ => between,
        }
    }
}

impl LaneMachine {
    /// The number of messages that wait at a connection: as many as are between the positions of its submission ring, but at most its
    /// maximum.
    ///
    /// If its publisher and its subscriber are between calls, and at most 2^63 steps were made, this is the number of messages that wait
    /// there by the connection's order. As long as at most 2^63 steps were made, what waits there by its order are slots of its publisher.
    pub fn waiting(&self, connection: u64) -> u64
        requires { connection < length self.now.links }
        ensures few { (link : LinkState) → slice_get self.now.links connection ≡ Some link → result ≤ link.limit }
        ensures waits { Rests self.now connection → result ≡ length (mail_at self.now connection) }
        ensures own { MailIsOwn self.now connection }
    {
        self.state.message_count(connection)
    }

    /// The slot of the message that waits at this place of a connection; the oldest is at 0.
    ///
    /// If its publisher and its subscriber are between calls, and at most 2^63 steps were made, this is the message that waits there by the
    /// connection's order.
    pub fn waiting_slot(&self, connection: u64, at: u64) -> u64
        requires { connection < length self.now.links }
        ensures { Rests self.now connection → at < length (mail_at self.now connection)
            → slice_get (mail_at self.now connection) at ≡ Some result }
    {
        let positions = self.state.positions(connection);
        self.state
            .message_at(connection, positions.submission_read.saturating_add(at))
    }
}

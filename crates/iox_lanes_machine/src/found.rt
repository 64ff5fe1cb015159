//! What lanes find before their first step.
ghost use Rattle.std.specs.Prelude.{◌≡◌, ◌+◌, ◌-◌, ◌<◌, ◌≤◌, ◌^◌, ◌&&◌, true, nat_lt, length, slice_get, option_copied, Some, OnOk, OnErr};
ghost use Rattle.iox_lanes_machine.specs.QueuesSteps.declared.access.Word.{Word};
ghost use Rattle.iox_lanes_machine.specs.QueuesSteps.Ends.{cells_of};
ghost use Rattle.iox_lanes_machine.specs.LanesBase.Numbers.{IsWord};
ghost use Rattle.iox_lanes_machine.specs.LanesBase.Table.{stored_in};
ghost use Rattle.iox_lanes_machine.specs.Findings.{back_at, back_found, back_of, buffered_at, buffered_in, buffered_of, buffers_at};
ghost use Rattle.iox_lanes_machine.specs.Findings.{buffers_of, finds, finds_now, given_at, given_of, has_word, laid, may_be_back};
ghost use Rattle.iox_lanes_machine.specs.Findings.{may_buffer, may_wait, is_there, named_of, newest_of, remembered_of, resized_of};
ghost use Rattle.iox_lanes_machine.specs.Findings.{resizes_of, subscribers_meet, swapped_of, swaps_of, takes_buffer, takes_more};
ghost use Rattle.iox_lanes_machine.specs.Findings.{waiting_at, waiting_in, waiting_of, waits_at, waits_of, with_buffer, with_found};
ghost use Rattle.iox_lanes_machine.specs.Kept.{IsWithin};
ghost use Rattle.iox_lanes_machine.specs.State.{world_of};
ghost use Rattle.iox_lanes_machine.specs.TakenIn.{IsAppended};

use crate::link::Link;
use crate::state::State;
use iox_lanes_base::calls::Route;
use iox_lanes_base::words::{
    ConnectionRing, SharedAccess, SharedWord, SlotWord, TableSizes, WordTable,
};
use iox_lanes_parties::PublisherLane;
use iox_queues_steps::Word;
use iox_queues_steps::rings::RingKind;
use std::alloc::AllocError;

/// What lanes find before their first step. A connection is identified by its publisher and its place there, a slot by its number in the
/// service.
#[derive(Clone, Copy)]
pub enum Found {
    /// A message waits at a connection, after those found there before.
    Waiting {
        publisher: usize,
        place: u64,
        slot: u64,
    },
    /// A sample is in the completion ring of a connection, after those found there before.
    GivenBack {
        publisher: usize,
        place: u64,
        slot: u64,
    },
    /// A slot is the newest of its publisher's history, after those found there before.
    Newest {
        publisher: usize,
        slot: u64,
    },
    /// A word of a slot has this value.
    Held {
        slot: u64,
        word: SlotWord,
        value: u64,
    },
    /// At most `messages` messages may wait at a connection at which nothing was found yet.
    Buffer {
        publisher: usize,
        place: u64,
        messages: u64,
    },
    /// A publisher of which nothing was found yet has only its first `slots` slots, and the loan limit `most_loans`.
    Slots {
        publisher: usize,
        slots: u64,
        most_loans: u64,
    },
    /// The headers of a publisher's messages name this node and this publisher, its sends fail at a full mailbox or don't, and its last
    /// sequence number is `last`, so its next message gets the number after it; None where messages have none.
    Sender {
        publisher: usize,
        node_id: u64,
        publisher_id: u64,
        fails: bool,
        last: Option<u64>,
    },
    /// The connections at two places of a subscriber are swapped.
    Swapped {
        subscriber: usize,
        one: u64,
        other: u64,
    },
}

impl State {
    /// Whether this may be found now.
    pub(crate) fn finds(&self, found: Found) -> bool
        requires { IsWithin (world_of self.now) }
        ensures { result ≡ finds (world_of self.now) found }
    {
        self.moments == 0 && self.finds_now(found)
    }

    fn finds_now(&self, found: Found) -> bool
        requires { IsWithin (world_of self.now) }
        ensures { result ≡ finds_now (world_of self.now) found }
    {
        match found {
            Found::Waiting {
                publisher,
                place,
                slot,
            } => self.waits_of(publisher, place, slot),
            Found::GivenBack {
                publisher,
                place,
                slot,
            } => self.back_of(publisher, place, slot),
            Found::Newest { publisher, slot } => self.newest_of(publisher, slot),
            Found::Held { slot, word, .. } => {
                let sizes = self.table.sizes();
                slot < sizes.slots && has_word(sizes, word)
            }
            Found::Buffer {
                publisher,
                place,
                messages,
            } => self.buffers_of(publisher, place, messages),
            Found::Slots {
                publisher,
                slots,
                ..
            } => self.resizes_of(publisher, slots),
            Found::Sender { publisher, .. } => self.publishers.get(publisher).is_some(),
            Found::Swapped {
                subscriber,
                one,
                other,
            } => self.swaps_of(subscriber, one, other),
        }
    }

    fn waits_of(&self, publisher: usize, place: u64, slot: u64) -> bool
        requires { IsWithin (world_of self.now) }
        ensures { result ≡ waits_of (world_of self.now) place slot (slice_get self.now.publishers.items publisher) }
    {
        match self.publisher(publisher) {
            Some(lane) => self.waits_at(lane, place, slot),
            None => false,
        }
    }

    // Whether a slot may be found to wait at this place of the publisher.
    fn waits_at(&self, lane: &PublisherLane, place: u64, slot: u64) -> bool
        requires { IsWithin (world_of self.now) }
        ensures { result ≡ waits_at (world_of self.now) place slot lane.now (slice_get lane.now.port.routes place) }
    {
        let port = lane.port();
        match port.route(place) {
            Some(route) => port.book().may_have(place, slot) && self.may_wait(route.connection),
            None => false,
        }
    }

    fn back_of(&self, publisher: usize, place: u64, slot: u64) -> bool
        requires { IsWithin (world_of self.now) }
        ensures { result ≡ back_of (world_of self.now) place slot (slice_get self.now.publishers.items publisher) }
    {
        match self.publisher(publisher) {
            Some(lane) => self.back_at(lane, place, slot),
            None => false,
        }
    }

    // Whether a slot may be found in the completion ring at this place of the publisher.
    fn back_at(&self, lane: &PublisherLane, place: u64, slot: u64) -> bool
        requires { IsWithin (world_of self.now) }
        ensures { result ≡ back_at (world_of self.now) place slot lane.now (slice_get lane.now.port.routes place) }
    {
        let port = lane.port();
        match port.route(place) {
            Some(route) => port.book().may_have(place, slot) && self.may_be_back(route.connection),
            None => false,
        }
    }

    fn newest_of(&self, publisher: usize, slot: u64) -> bool
        ensures { result ≡ newest_of slot (slice_get self.now.publishers.items publisher) }
    {
        match self.publishers.get(publisher) {
            Some(lane) => lane.port().book().may_remember(slot),
            None => false,
        }
    }

    fn buffers_of(&self, publisher: usize, place: u64, messages: u64) -> bool
        requires { IsWithin (world_of self.now) }
        ensures { result ≡ buffers_of (world_of self.now) place messages (slice_get self.now.publishers.items publisher) }
    {
        match self.publishers.get(publisher) {
            Some(lane) => match lane.port().route(place) {
                Some(route) => self.may_buffer(route.connection, messages),
                None => false,
            },
            None => false,
        }
    }

    fn resizes_of(&self, publisher: usize, slots: u64) -> bool
        ensures { result ≡ resizes_of slots (slice_get self.now.publishers.items publisher) }
    {
        match self.publishers.get(publisher) {
            Some(lane) => lane.port().book().may_resize(slots),
            None => false,
        }
    }

    fn swaps_of(&self, subscriber: usize, one: u64, other: u64) -> bool
        ensures { result ≡ swaps_of one other (slice_get self.now.subscribers.items subscriber) }
    {
        match self.subscribers.get(subscriber) {
            Some(lane) => {
                let connections = lane.port().routes().len() as u64;
                one < connections && other < connections
            }
            None => false,
        }
    }

    // The connection with this number, if there is one.
    fn link(&self, connection: u64) -> Option<&Link>
        ensures { option_copied result ≡ slice_get self.now.links.items connection }
    {
        self.links.get(connection as usize)
    }

    #[tactic(auto, using(crate::proofs::Findings::link_there))]
    fn may_wait(&self, connection: u64) -> bool
        requires { IsWithin (world_of self.now) }
        ensures { result ≡ may_wait (world_of self.now) connection (slice_get self.now.links.items connection) }
    {
        match self.link(connection) {
            Some(link) => {
                (link.found().len() as u64) < link.limit()
                    && has_place(&self.table, connection, link)
            }
            None => false,
        }
    }

    #[tactic(auto, using(crate::proofs::Findings::link_there))]
    fn may_be_back(&self, connection: u64) -> bool
        requires { IsWithin (world_of self.now) }
        ensures { result ≡ may_be_back (world_of self.now) connection (slice_get self.now.links.items connection) }
    {
        match self.link(connection) {
            Some(link) => has_place(&self.table, connection, link),
            None => false,
        }
    }

    #[tactic(auto, using(crate::proofs::Findings::link_there))]
    fn may_buffer(&self, connection: u64, messages: u64) -> bool
        requires { IsWithin (world_of self.now) }
        ensures { result ≡ may_buffer (world_of self.now) connection messages (slice_get self.now.links.items connection) }
    {
        match self.link(connection) {
            Some(link) => takes_buffer(&self.table, connection, messages, link),
            None => false,
        }
    }

    /// Takes in what was found. An allocation may fail only where a message waits.
    pub(crate) fn find(&mut self, found: Found) -> Result<(), AllocError>
        requires fits { finds_now (world_of self.old) found ≡ true }
        requires within { IsWithin (world_of self.old) }
        ensures found { OnOk result (world_of self.new ≡ with_found (world_of self.old) found) }
        ensures appended { OnErr result (IsAppended found) }
        ensures same { OnErr result (world_of self.new ≡ world_of self.old) }
    {
        match found {
            Found::Waiting {
                publisher,
                place,
                slot,
            } => self.find_waiting(publisher, place, slot),
            Found::GivenBack {
                publisher,
                place,
                slot,
            } => {
                self.find_given_back(publisher, place, slot);
                Ok(())
            }
            Found::Newest { publisher, slot } => {
                self.find_newest(publisher, slot);
                Ok(())
            }
            Found::Held { slot, word, value } => {
                self.find_held(slot, word, value);
                Ok(())
            }
            Found::Buffer {
                publisher,
                place,
                messages,
            } => {
                self.find_buffer(publisher, place, messages);
                Ok(())
            }
            Found::Slots {
                publisher,
                slots,
                most_loans,
            } => {
                self.find_slots(publisher, slots, most_loans);
                Ok(())
            }
            Found::Sender {
                publisher,
                node_id,
                publisher_id,
                fails,
                last,
            } => {
                self.find_sender(publisher, node_id, publisher_id, fails, last);
                Ok(())
            }
            Found::Swapped {
                subscriber,
                one,
                other,
            } => {
                self.find_swapped(subscriber, one, other);
                Ok(())
            }
        }
    }

    fn find_waiting(&mut self, publisher: usize, place: u64, slot: u64) -> Result<(), AllocError>
        requires fits { waits_of (world_of self.old) place slot (slice_get self.old.publishers.items publisher) ≡ true }
        requires within { IsWithin (world_of self.old) }
        ensures found { OnOk result (world_of self.new
            ≡ waiting_of (world_of self.old) publisher place slot (slice_get self.old.publishers.items publisher)) }
        ensures same { OnErr result (world_of self.new ≡ world_of self.old) }
    {
        let Some(lane) = self.publishers.get_mut(publisher) else {
            return Ok(());
        };
        let Some(route) = lane.port().route(place) else {
            return Ok(());
        };
        let Some(link) = self.links.get_mut(route.connection as usize) else {
            return Ok(());
        };
        let cell = link.found().len() as u64;
        link.find(slot)?;
        lay(
            &mut self.table,
            route.connection,
            ConnectionRing::Submission,
            cell,
            slot,
        );
        lane.find(place, slot);
        Ok(())
    }

    fn find_given_back(&mut self, publisher: usize, place: u64, slot: u64)
        requires fits { back_of (world_of self.old) place slot (slice_get self.old.publishers.items publisher) ≡ true }
        requires within { IsWithin (world_of self.old) }
        ensures { world_of self.new ≡ given_of (world_of self.old) publisher place slot (slice_get self.old.publishers.items publisher) }
    {
        let Some(lane) = self.publishers.get_mut(publisher) else {
            return;
        };
        let Some(route) = lane.port().route(place) else {
            return;
        };
        let cell = back_found(&self.table, route.connection);
        lay(
            &mut self.table,
            route.connection,
            ConnectionRing::Completion,
            cell,
            slot,
        );
        lane.find(place, slot);
    }

    fn find_newest(&mut self, publisher: usize, slot: u64)
        requires { newest_of slot (slice_get self.old.publishers.items publisher) ≡ true }
        ensures { world_of self.new ≡ remembered_of (world_of self.old) publisher slot (slice_get self.old.publishers.items publisher) }
    {
        if let Some(lane) = self.publishers.get_mut(publisher) {
            lane.find_newest(slot);
        }
    }

    fn find_held(&mut self, slot: u64, word: SlotWord, value: u64)
        requires { IsWord self.old.table.sizes (SharedWord.Slot slot word) }
        ensures { world_of self.new ≡ record (world_of self.old) { table = stored_in self.old.table (SharedWord.Slot slot word) value } }
    {
        self.table.apply(SharedAccess::Store(SharedWord::Slot { slot, word }, value));
    }

    fn find_buffer(&mut self, publisher: usize, place: u64, messages: u64)
        requires fits { buffers_of (world_of self.old) place messages (slice_get self.old.publishers.items publisher) ≡ true }
        requires within { IsWithin (world_of self.old) }
        ensures { world_of self.new ≡ buffered_of (world_of self.old) publisher place messages
            (slice_get self.old.publishers.items publisher) }
    {
        let Some(lane) = self.publishers.get_mut(publisher) else {
            return;
        };
        let Some(route) = lane.port().route(place) else {
            return;
        };
        let Some(link) = self.links.get_mut(route.connection as usize) else {
            return;
        };
        let known = with_buffer(messages, route);
        let receiver = link.subscriber();
        link.resize(messages);
        lane.meet(known);
        self.subscriber_meets(receiver, known);
    }

    fn find_slots(&mut self, publisher: usize, slots: u64, most_loans: u64)
        ensures { world_of self.new ≡ resized_of (world_of self.old) publisher slots most_loans
            (slice_get self.old.publishers.items publisher) }
    {
        if let Some(lane) = self.publishers.get_mut(publisher) {
            lane.resize(slots, most_loans);
        }
    }

    fn find_sender(
        &mut self,
        publisher: usize,
        node_id: u64,
        publisher_id: u64,
        fails: bool,
        last: Option<u64>,
    )
        ensures { world_of self.new ≡ named_of (world_of self.old) publisher node_id publisher_id fails last
            (slice_get self.old.publishers.items publisher) }
    {
        if let Some(lane) = self.publishers.get_mut(publisher) {
            lane.name(node_id, publisher_id, fails, last);
        }
    }

    fn find_swapped(&mut self, subscriber: usize, one: u64, other: u64)
        requires fits { swaps_of one other (slice_get self.old.subscribers.items subscriber) ≡ true }
        ensures { world_of self.new ≡ swapped_of (world_of self.old) subscriber one other
            (slice_get self.old.subscribers.items subscriber) }
    {
        if let Some(lane) = self.subscribers.get_mut(subscriber) {
            lane.swap(one, other);
        }
    }

    // Replaces the connection that has the number of `route` in what a subscriber knows, if there is such a subscriber.
    fn subscriber_meets(&mut self, subscriber: u64, route: Route)
        ensures { world_of self.new
            ≡ record (world_of self.old) {
              subscribers = subscribers_meet self.old.subscribers.items subscriber route (slice_get self.old.subscribers.items subscriber);
            } }
    {
        if let Some(lane) = self.subscribers.get_mut(subscriber as usize) {
            lane.meet(route);
        }
    }
}

// How many samples were found in the completion ring of a connection.
fn back_found(table: &WordTable, connection: u64) -> u64
    requires { connection < table.now.sizes.connections }
    ensures { result ≡ back_found table.now connection }
{
    table.word(SharedWord::Ring {
        connection,
        ring: ConnectionRing::Completion,
        word: Word::Write,
    })
}

// Whether a connection takes one more slot.
fn has_place(table: &WordTable, connection: u64, link: &Link) -> bool
    requires { connection < table.now.sizes.connections }
    ensures { result ≡ nat_lt (length link.now.found) (table.now.sizes.completion_cells - back_found table.now connection) }
{
    let back = back_found(table, connection);
    (link.found().len() as u64) < table.sizes().completion_cells.saturating_sub(back)
}

// Stores a slot in a cell of a ring, and the position after that cell in the ring's write position.
fn lay(table: &mut WordTable, connection: u64, ring: ConnectionRing, cell: u64, slot: u64)
    requires { IsWord table.old.sizes (SharedWord.Ring connection ring (Word.Cell cell)) }
    ensures { table.new ≡ laid table.old connection ring cell slot }
{
    let last = SharedWord::Ring {
        connection,
        ring,
        word: Word::Cell(cell),
    };
    let write = SharedWord::Ring {
        connection,
        ring,
        word: Word::Write,
    };
    table.apply(SharedAccess::Store(last, slot));
    table.apply(SharedAccess::Store(write, cell.saturating_add(1)));
}

// Whether a slot has the word.
fn has_word(sizes: TableSizes, word: SlotWord) -> bool
    ensures { result ≡ has_word sizes word }
{
    match word {
        SlotWord::Header(word) => word < 3,
        SlotWord::UserHeader(word) => word < sizes.user_header_words,
        SlotWord::Payload(word) => word < sizes.payload_words,
    }
}

// Whether a connection may have a buffer of this many messages.
fn takes_buffer(table: &WordTable, connection: u64, messages: u64, link: &Link) -> bool
    requires { connection < table.now.sizes.connections }
    ensures { result ≡ takes_buffer table.now connection messages link.now }
{
    0 < messages
        && messages <= link.limit()
        && link.found().len() == 0
        && back_found(table, connection) == 0
}

// The connection as its ends know it, with a buffer of this many messages.
fn with_buffer(messages: u64, route: Route) -> Route
    requires { cells_of route.kind messages ≤ route.submission_cells }
    ensures { result ≡ with_buffer messages route }
{
    Route {
        connection: route.connection,
        kind: route.kind,
        limit: messages,
        submission_cells: cells(route.kind, messages),
        completion_cells: route.completion_cells,
    }
}

// How many cells the submission ring needs for a buffer of this many messages.
pub(crate) fn cells(kind: RingKind, limit: u64) -> u64
    requires { cells_of kind limit < 2 ^ 64 }
    ensures { result ≡ cells_of kind limit }
{
    match kind {
        RingKind::Overflowing => limit.saturating_add(1),
        RingKind::Refusing => if limit > 0 { limit } else { 1 },
    }
}

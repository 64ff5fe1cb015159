//! A publisher, without the shared words.
ghost use Rattle.std.specs.Prelude.{◌≡◌, true, if◌then◌else◌, length, replicate, slice_get, IfOk};
ghost use Rattle.iox_lanes_base.specs.Publishing.{publisher_is_idle};
ghost use Rattle.iox_lanes_parties.specs.PublisherKeeping.{may_remember};
ghost use Rattle.iox_lanes_parties.specs.Publishers.{after_answer, found_at, found_last, with_slots, met_anew, begun_loan, begun_write};
ghost use Rattle.iox_lanes_parties.specs.Publishers.{begun_send, begun_drop, new_publisher, words_of};
ghost use Rattle.iox_lanes_parties.specs.Sequences.{with_number};

use crate::publisher::slot_book::SlotBook;
use crate::sequences::put_number;
use iox_lanes_base::calls::{PublisherCall, PublisherChange, Route, reroute};
use std::alloc::{AllocError, Global};
use std::marker::Model;

/// A publisher: its connections by place, what its slots are used for, the words that its write or send stores, and the stage of its call.
///
/// All its memory is allocated when it is made.
#[derive(Drop)]
pub struct LanePublisher {
    routes: Vec<Route>,
    book: SlotBook,
    payload: Vec<u64>,
    head: Vec<u64>,
    // Whether the call in progress stores header and user header, not a payload.
    sends: bool,
    call: PublisherCall,
}

impl Model for LanePublisher {
    ghost use Rattle.iox_lanes_parties.specs.Publishers.{PublisherState};

    ghost Value = { PublisherState };

    ghost view = { λ p. record {
      routes = p.routes.items;
      book = p.book;
      payload = p.payload.items;
      head = p.head.items;
      sends = p.sends;
      call = p.call;
    } };
}

impl LanePublisher {
    /// A publisher with these connections and slots, and with this many words in payloads and in heads (header and user header).
    /// `AllocError` is returned only where an allocation fails.
    pub fn new(
        alloc: Global,
        routes: &[Route],
        book: SlotBook,
        payload_words: usize,
        head_words: usize,
    ) -> Result<LanePublisher, AllocError>
        ensures { IfOk result (λ made. made ≡ new_publisher routes.now book payload_words head_words) }
    {
        Ok(LanePublisher {
            routes: Vec::from_slice(alloc, routes)?,
            book,
            payload: vec![in alloc; 0; payload_words]?,
            head: vec![in alloc; 0; head_words]?,
            sends: false,
            call: PublisherCall::Idle,
        })
    }

    /// What its slots are used for.
    #[inline(always)]
    pub fn book(&self) -> &SlotBook
        ensures { result.now ≡ self.now.book }
    {
        &self.book
    }

    /// The connection at this place, if there is one.
    pub fn route(&self, place: u64) -> Option<Route>
        ensures { result ≡ slice_get self.now.routes place }
    {
        self.routes.get(place as usize).copied()
    }

    /// Counts a use of the slot at the connection of this place, where lanes found the slot.
    pub fn find(&mut self, place: u64, slot: u64)
        ensures { self.new ≡ found_at place slot self.old }
    {
        self.book.change(PublisherChange::Put { place, slot });
    }

    /// Makes a slot that lanes found the newest one of the history.
    pub fn find_newest(&mut self, slot: u64)
        requires { may_remember slot self.old.book ≡ true }
        ensures { self.new ≡ found_last slot self.old }
    {
        self.book.find_newest(slot);
    }

    /// Keeps only the first `slots` slots, and sets the loan limit.
    pub fn resize(&mut self, slots: u64, most_loans: u64)
        ensures { self.new ≡ with_slots slots most_loans self.old }
    {
        self.book
            .resize(self.routes.len(), slots as usize, most_loans);
    }

    /// Replaces the connection that has the number of `route` by `route`.
    pub fn meet(&mut self, route: Route)
        ensures { self.new ≡ met_anew route self.old }
    {
        reroute(&mut self.routes, route);
    }

    /// How many words a payload has.
    pub fn payload_words(&self) -> usize
        ensures { result ≡ length self.now.payload }
    {
        self.payload.len()
    }

    /// How many words header and user header have together.
    pub fn head_words(&self) -> usize
        ensures { result ≡ length self.now.head }
    {
        self.head.len()
    }

    /// The stage of its call.
    #[inline(always)]
    pub fn call(&self) -> &PublisherCall
        ensures { result.now ≡ self.now.call }
    {
        &self.call
    }

    /// Begins a loan.
    pub fn begin_loan(&mut self)
        requires { publisher_is_idle self.old.call ≡ true }
        ensures { self.new ≡ begun_loan self.old }
    {
        self.call = PublisherCall::loan(&self.routes);
    }

    /// Begins to write these words into the slot of a loan.
    pub fn begin_write(&mut self, slot: u64, payload: &[u64])
        requires idle { publisher_is_idle self.old.call ≡ true }
        requires words { length payload.now ≡ length self.old.payload }
        ensures { self.new ≡ begun_write slot payload.now self.old }
    {
        self.payload.copy_from_slice(payload);
        self.sends = false;
        self.call = PublisherCall::write(&self.payload, slot);
    }

    /// Begins to send the slot of a loan with these words of header and user header, with this sequence number, if there is one, as the
    /// fourth word.
    pub fn begin_send(&mut self, slot: u64, head: &[u64], number: Option<u64>)
        requires idle { publisher_is_idle self.old.call ≡ true }
        requires words { length head.now ≡ length self.old.head }
        ensures { self.new ≡ begun_send slot (with_number number head.now) self.old }
    {
        self.head.copy_from_slice(head);
        put_number(&mut self.head, number);
        self.sends = true;
        self.call = PublisherCall::send(&self.head, slot);
    }

    /// Begins to drop the loan of a slot.
    pub fn begin_drop(&mut self, slot: u64)
        requires { publisher_is_idle self.old.call ≡ true }
        ensures { self.new ≡ begun_drop slot self.old }
    {
        self.call = PublisherCall::drop_loan(slot);
    }

    /// Goes on after the answer of the next access, and keeps what it changes.
    #[inline(always)]
    pub fn take(&mut self, answer: u64)
        ensures { self.new ≡ after_answer answer self.old }
    {
        let words = stored(self.sends, &self.head, &self.payload);
        let change = self.call.take(answer, &self.routes, words);
        self.book.change(change);
    }

    /// Sets the call to the stage `call`, and goes on after the answer of the access that comes next there.
    #[inline(always)]
    pub fn take_from(&mut self, call: PublisherCall, answer: u64)
        ensures { self.new ≡ after_answer answer (record self.old { call = call }) }
    {
        let mut call = call;
        let words = stored(self.sends, &self.head, &self.payload);
        let change = call.take(answer, &self.routes, words);
        self.call = call;
        self.book.change(change);
    }

    /// The words that the current write or send stores.
    pub fn stored(&self) -> &[u64]
        ensures { result.now ≡ words_of self.now }
    {
        stored(self.sends, &self.head, &self.payload)
    }
}

// The words that the current write or send stores, as `sends` says.
fn stored<'x>(sends: bool, head: &'x [u64], payload: &'x [u64]) -> &'x [u64]
    ensures { result.now ≡ (if sends then head.now else payload.now) }
{
    if sends { head } else { payload }
}

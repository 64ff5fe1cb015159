//! A publisher, the call that it is in, and the headers of its slots.
ghost use Rattle.std.specs.Prelude.{◌≡◌, ◌+◌, ◌<◌, ◌&&◌, ◌==◌, true, false, [], length, IfOk, IsSome, is_some};
ghost use Rattle.std.specs.List.{All};
ghost use Rattle.iox_lanes_parties.specs.LanesBase.Publishing.{publisher_is_idle, publisher_is_over};
ghost use Rattle.iox_lanes_parties.specs.PublisherKeeping.{may_remember};
ghost use Rattle.iox_lanes_parties.specs.Publishers.{words_of};
ghost use Rattle.iox_lanes_parties.specs.Parties.{lane_found, lane_meets, lane_named, lane_remembers, lane_resized, name_of, is_out};
ghost use Rattle.iox_lanes_parties.specs.Parties.{is_written, publisher_may, publisher_fits, publisher_begun, publisher_after};
ghost use Rattle.iox_lanes_parties.specs.Parties.{publisher_answer, lent, index_of, head_of, kept_head, kept, send_begun};

use crate::call::{Answer, Call, CallName, Move, SendAnswer};
use crate::head::Head;
use crate::publisher::{LanePublisher, LoanAnswer, LoanMark};
use crate::sequences::{number_after, put_number};
use iox_lanes_base::calls::{PublisherCall, Route};
use std::alloc::{AllocError, Global};
use std::marker::Model;

/// A publisher, with the header and user header that each of its slots will be sent with, whether its sends fail at a full mailbox, its
/// last sequence number (if messages have sequence numbers), and the call that it began last.
pub struct PublisherLane {
    port: LanePublisher,
    fails: bool,
    heads: Vec<Head>,
    last: Option<u64>,
    call: CallName,
    first: u64,
}

/// Writes the drop out once, so that no crate above proves it anew.
impl Drop for PublisherLane {
    fn drop(self) {
        let PublisherLane {
            port: _,
            fails: _,
            heads: _,
            last: _,
            call: _,
            first: _,
        } = self;
    }
}

impl Model for PublisherLane {
    ghost use Rattle.iox_lanes_parties.specs.Parties.{PublisherLaneState};

    ghost Value = { PublisherLaneState };

    ghost view = { λ l. record {
      port = l.port;
      fails = l.fails;
      heads = l.heads.items;
      last = l.last;
      call = l.call;
      first = l.first;
    } };
}

impl PublisherLane {
    /// A publisher between calls whose slots will be sent with these headers. Its sends don't fail at a full mailbox, and its messages have
    /// no sequence numbers.
    pub fn new(port: LanePublisher, heads: Vec<Head>) -> PublisherLane
        ensures { result ≡ record {
          port = port;
          fails = false;
          heads = heads.items;
          last = None;
          call = CallName.LoanUninit;
          first = 0;
        } }
    {
        PublisherLane {
            port,
            fails: false,
            heads,
            last: None,
            call: CallName::LoanUninit,
            first: 0,
        }
    }

    /// Whether the publisher may make this move now.
    pub fn fits(&self, step: &Move) -> bool
        ensures { result ≡ publisher_fits self.now step.now }
    {
        match step {
            Move::Begin(call) => self.port.call().is_idle() && self.may(call),
            Move::GoOn => !self.port.call().is_idle(),
        }
    }

    fn may(&self, call: &Call) -> bool
        ensures { result ≡ publisher_may self.now call.now }
    {
        let book = self.port.book();
        match call {
            Call::LoanUninit => true,
            Call::Write {
                loan,
                payload,
                user_header,
            } => {
                is_out(book.loan(*loan))
                    && payload.len() == self.port.payload_words()
                    && is_head(user_header.len(), self.port.head_words())
            }
            Call::Send { loan } => is_written(book.loan(*loan)),
            Call::DropLoan { loan } => is_out(book.loan(*loan)),
            Call::Receive | Call::Read { .. } | Call::Release { .. } => false,
        }
    }

    /// Begins a call at this moment.
    pub fn begin(&mut self, moment: u64, call: &Call)
        requires fits { publisher_fits self.old (Move.Begin call.now) ≡ true }
        requires heads { length self.old.heads ≡ length self.old.port.book.loans }
        requires widths { All (λ head. length head ≡ length self.old.port.head) self.old.heads }
        ensures { self.new ≡ publisher_begun moment call.now self.old }
    {
        match call {
            Call::LoanUninit => {
                self.port.begin_loan();
                self.call = CallName::LoanUninit;
            }
            Call::Write {
                loan,
                payload,
                user_header,
            } => {
                self.keep(*loan, user_header);
                self.port.begin_write(*loan, payload);
                self.call = CallName::Write { loan: *loan };
            }
            Call::Send { loan } => {
                self.begin_send(*loan);
                self.call = CallName::Send { loan: *loan };
            }
            Call::DropLoan { loan } => {
                self.port.begin_drop(*loan);
                self.call = CallName::DropLoan { loan: *loan };
            }
            Call::Receive | Call::Read { .. } | Call::Release { .. } => return,
        }
        self.first = moment;
    }

    // The index among the publisher's own slots of a slot of the service.
    fn index(&self, slot: u64) -> usize
        ensures { result ≡ index_of slot self.now }
    {
        slot.saturating_sub(self.port.book().first()) as usize
    }

    // Keeps the user header of a slot for its send.
    fn keep(&mut self, slot: u64, user_header: &[u64])
        requires there { index_of slot self.old < length self.old.heads }
        requires width { 3 + length user_header.now ≡ length (kept_head slot self.old) }
        ensures { self.new ≡ kept slot user_header.now self.old }
    {
        let index = self.index(slot);
        self.heads[index].keep(user_header);
    }

    /// The words of header and user header that a send of this slot would store now, with the next sequence number if messages have one.
    /// `AllocError` is returned only where an allocation fails.
    pub fn head(&self, alloc: Global, slot: u64) -> Result<Vec<u64>, AllocError>
        ensures { IfOk result (λ words. words.items ≡ head_of slot self.now) }
    {
        let head = match self.heads.get(self.index(slot)) {
            Some(head) => head.words(),
            None => &[],
        };
        let mut words = Vec::from_slice(alloc, head)?;
        put_number(&mut words, number_after(self.last));
        Ok(words)
    }

    fn begin_send(&mut self, slot: u64)
        requires idle { publisher_is_idle self.old.port.call ≡ true }
        requires there { index_of slot self.old < length self.old.heads }
        requires width { length (kept_head slot self.old) ≡ length self.old.port.head }
        ensures { self.new ≡ send_begun slot self.old }
    {
        let index = self.index(slot);
        let number = number_after(self.last);
        self.port
            .begin_send(slot, self.heads[index].words(), number);
        self.last = number;
    }

    /// Goes on after the answer of the next access. Returns the answer of the call if that was its last step.
    #[inline(always)]
    pub fn go_on(&mut self, given: u64) -> Option<Answer>
        ensures lane { self.new ≡ publisher_after given self.old }
        ensures answer { result ≡ publisher_answer self.old.fails self.old.port.call self.new.port.book.answer }
        ensures ends { is_some result ≡ publisher_is_over self.old.port.call }
    {
        match *self.port.call() {
            PublisherCall::Lending => {
                self.port.take(given);
                Some(lent(self.port.book().answer()))
            }
            PublisherCall::Written { .. } => {
                self.port.take(given);
                Some(Answer::Written)
            }
            PublisherCall::Sent { delivery, .. } => {
                self.port.take(given);
                Some(Answer::Sent(SendAnswer::of(self.fails, delivery)))
            }
            PublisherCall::Dropping { .. } => {
                self.port.take(given);
                Some(Answer::Dropped)
            }
            PublisherCall::Idle
            | PublisherCall::LoanReclaims { .. }
            | PublisherCall::Writing { .. }
            | PublisherCall::Heading { .. }
            | PublisherCall::Remembering { .. }
            | PublisherCall::SendReclaims { .. }
            | PublisherCall::Pushing { .. } => {
                self.port.take(given);
                None
            }
        }
    }

    /// Sets the call to the stage `call`, and goes on after the answer of the access that comes next there.
    #[inline(always)]
    pub fn go_on_from(&mut self, call: PublisherCall, given: u64)
        ensures { self.new ≡ publisher_after given (record self.old { port = record self.old.port { call = call } }) }
    {
        self.port.take_from(call, given);
    }

    /// The port: its connections, what its slots are used for, and the stage of its call.
    #[inline(always)]
    pub fn port(&self) -> &LanePublisher
        ensures { result.now ≡ self.now.port }
    {
        &self.port
    }

    /// The words that the current write or send stores.
    pub fn stored(&self) -> &[u64]
        ensures { result.now ≡ words_of self.now.port }
    {
        self.port.stored()
    }

    /// The sequence number of the last message that the publisher sent; before its first send, the number before that of its first message.
    /// None where messages have no sequence numbers.
    pub fn last_sequence(&self) -> Option<u64>
        ensures { result ≡ self.now.last }
    {
        self.last
    }

    /// Counts a use of the slot at the connection of this place, where lanes found the slot.
    pub fn find(&mut self, place: u64, slot: u64)
        ensures { self.new ≡ lane_found place slot self.old }
    {
        self.port.find(place, slot);
    }

    /// Makes a slot that lanes found the newest one of the history.
    pub fn find_newest(&mut self, slot: u64)
        requires { may_remember slot self.old.port.book ≡ true }
        ensures { self.new ≡ lane_remembers slot self.old }
    {
        self.port.find_newest(slot);
    }

    /// Keeps only the first `slots` slots, and sets the loan limit.
    pub fn resize(&mut self, slots: u64, most_loans: u64)
        ensures { self.new ≡ lane_resized slots most_loans self.old }
    {
        self.port.resize(slots, most_loans);
        self.heads.truncate(slots as usize);
    }

    /// Sets the node and the publisher that the headers name, whether sends fail at a full mailbox, and the last sequence number, so the
    /// next message gets the number after it; None where messages have none.
    pub fn name(&mut self, node_id: u64, publisher_id: u64, fails: bool, last: Option<u64>)
        ensures { self.new ≡ lane_named node_id publisher_id fails last self.old }
    {
        self.fails = fails;
        self.last = last;
        for head in self.heads.iter_mut() {
            head.name(node_id, publisher_id);
        }
    }

    /// Replaces the connection that has the number of `route` by `route`.
    pub fn meet(&mut self, route: Route)
        ensures { self.new ≡ lane_meets route self.old }
    {
        self.port.meet(route);
    }

    /// The stage of its call.
    #[inline(always)]
    pub fn stage(&self) -> PublisherCall
        ensures { result ≡ self.now.port.call }
    {
        *self.port.call()
    }

    /// The call that the publisher began last.
    pub fn call(&self) -> CallName
        ensures { result ≡ self.now.call }
    {
        self.call
    }

    /// The moment of the first step of the call that the publisher began last.
    pub fn first(&self) -> u64
        ensures { result ≡ self.now.first }
    {
        self.first
    }
}

fn is_out(mark: LoanMark) -> bool
    ensures { result ≡ is_out mark }
{
    matches!(mark, LoanMark::Lent | LoanMark::Written)
}

fn is_written(mark: LoanMark) -> bool
    ensures { result ≡ is_written mark }
{
    matches!(mark, LoanMark::Written)
}

// Whether a user header of this many words makes a head of `head_words` words.
fn is_head(user_header_words: usize, head_words: usize) -> bool
    ensures { result ≡ (3 + user_header_words == head_words) }
{
    head_words >= 3 && head_words - 3 == user_header_words
}

// The answer of a loan that ended.
fn lent(loan: Option<LoanAnswer>) -> Answer
    requires { IsSome loan }
    ensures { result ≡ lent loan }
{
    Answer::Lent(loan.unwrap())
}

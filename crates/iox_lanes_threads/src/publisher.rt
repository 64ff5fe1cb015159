//! A publisher with its share of the words.
ghost use Rattle.std.specs.Prelude.{◌≡◌, ◌<◌, ℕ, true, not, is_some, IfSome};
ghost use Rattle.iox_lanes_machine.specs.LanesBase.Publishing.{publisher_is_idle};
ghost use Rattle.iox_lanes_machine.specs.LanesParties.Parties.{head_of, is_out, kept_head, with_user_header};
ghost use Rattle.iox_lanes_machine.specs.LanesParties.PublisherKeeping.{loan_of};
ghost use Rattle.iox_lanes_threads_ports.specs.LanesThreadsRule.Acts.{single};
ghost use Rattle.iox_lanes_threads_ports.specs.Known.{KeepsPayload, KnowsHead, KnowsPayload, KnowsSent};
ghost use Rattle.iox_lanes_threads_ports.specs.OtherLoans.{KeepsHead};
ghost use Rattle.iox_lanes_threads_ports.specs.Ports.{PublisherStands};
ghost use Rattle.iox_lanes_threads_ports.specs.Values.{Loans, Sends, Writes, Drops};
ghost use Rattle.iox_lanes_threads.specs.Ports.{StaysPublisher};

use crate::table::Share;
use crate::threads::OnBoard;
use iox_lanes_parties::publisher::{LoanAnswer, LoanMark};
use iox_lanes_parties::{PublisherLane, SendAnswer};
use iox_lanes_threads_ports::ThreadedPublisher;
use iox_lanes_threads_rule::WordSeat;
use iox_queues_base::Words;
use std::marker::Model;

/// A publisher that makes its steps on the words that it shares with the other ports of its board. It may move to any thread. No call
/// locks, allocates or waits.
pub struct LanePublisher {
    words: Share,
    board: u64,
    place: usize,
    port: ThreadedPublisher,
}

/// Writes the drop out once, so that no crate above proves it anew.
impl Drop for LanePublisher {
    fn drop(self) {
        let LanePublisher {
            words: _,
            board: _,
            place: _,
            port: _,
        } = self;
    }
}

impl Model for LanePublisher {
    ghost use Rattle.std.specs.Prelude.{◌≡◌};
    ghost use Rattle.iox_lanes_threads.specs.Ports.{BoardPublisher};

    ghost Value = { BoardPublisher };

    ghost view = { λ l. record { board = l.board; place = l.place; own = l.port } };

    ghost invariant = { λ l. l.port.table ≡ l.words };
}

impl LanePublisher {
    pub(crate) fn new(
        words: Share,
        board: u64,
        place: usize,
        port: ThreadedPublisher,
    ) -> LanePublisher
        requires { port.table ≡ words }
        ensures { result ≡ record { board = board; place = place; own = port } }
    {
        LanePublisher {
            words,
            board,
            place,
            port,
        }
    }

    /// The port's place among the board's publishers.
    pub fn place(&self) -> usize
        ensures { result ≡ self.now.place }
    {
        self.place
    }

    /// Loans a slot. Returns None, and does nothing, if the port is inside a call.
    ///
    /// The call makes at most `loan_steps` steps. These are enough if each connection returns no more samples than its completion ring has
    /// cells, and one more. If the loan isn't over by then, None is returned, and the port stays inside that call. This happens only if a
    /// write position was 2^64 - 1 when the call loaded a word, and more samples came back at one connection than its completion ring has
    /// cells.
    pub fn loan_uninit(&mut self) -> Option<LoanAnswer>
        ensures same { StaysPublisher self.old self.new }
        ensures call { Loans self.old.own self.new.own result }
        ensures others { (other : ℕ) → other < self.old.own.port.service.sizes.slots
            → KeepsPayload self.old.own.port self.new.own.port other }
        ensures headers { (other : ℕ) → KeepsHead other self.old.own self.new.own }
    {
        self.port.loan_uninit(self.words.words())
    }

    /// Writes the words of a payload into the slot of a loan, and keeps the words of a user header for its send. Returns false if the slot
    /// isn't a loan of this port, the number of words isn't that of a payload and a user header, or the port is inside a call; then nothing
    /// is done.
    pub fn write(&mut self, loan: u64, payload: &[u64], user_header: &[u64]) -> bool
        ensures same { StaysPublisher self.old self.new }
        ensures call { Writes self.old.own loan payload.now user_header.now self.new.own result }
        ensures payload { result ≡ true → KnowsPayload self.new.own.port loan payload.now }
        ensures header { result ≡ true → kept_head loan self.new.own.lane
            ≡ with_user_header (kept_head loan self.old.own.lane) user_header.now }
        ensures others { result ≡ true → (other : ℕ) → (loan ≡ other → ⊥) → other < self.old.own.port.service.sizes.slots
            → KeepsPayload self.old.own.port self.new.own.port other }
        ensures headers { result ≡ true → (other : ℕ) → (loan ≡ other → ⊥)
            → is_out (loan_of other self.old.own.lane.port.book) ≡ true → KeepsHead other self.old.own self.new.own }
    {
        self.port
            .write(self.words.words(), loan, payload, user_header)
    }

    /// Writes a value into the slot of a loan, and keeps a user header for its send: does what `write` does with the words of both. Returns
    /// false if the slot isn't a loan of this port, the value or the user header has another number of words than the service's, or the
    /// port is inside a call; then nothing is done.
    pub fn write_values<T: Words, U: Words>(
        &mut self,
        loan: u64,
        value: &T,
        user_header: &U,
    ) -> bool
        ensures same { StaysPublisher self.old self.new }
        ensures call { Writes self.old.own loan (T.parts value.now) (U.parts user_header.now) self.new.own result }
        ensures payload { result ≡ true → KnowsPayload self.new.own.port loan (T.parts value.now) }
        ensures header { result ≡ true → kept_head loan self.new.own.lane
            ≡ with_user_header (kept_head loan self.old.own.lane) (U.parts user_header.now) }
        ensures others { result ≡ true → (other : ℕ) → (loan ≡ other → ⊥) → other < self.old.own.port.service.sizes.slots
            → KeepsPayload self.old.own.port self.new.own.port other }
        ensures headers { result ≡ true → (other : ℕ) → (loan ≡ other → ⊥)
            → is_out (loan_of other self.old.own.lane.port.book) ≡ true → KeepsHead other self.old.own self.new.own }
    {
        self.port
            .write_values(self.words.words(), loan, value, user_header)
    }

    /// Sends a written loan, and returns the number of connections that took the message. The answer is `UnableToDeliver` exactly if the
    /// publisher's sends fail at a full mailbox and a connection refused the message. Returns None, and does nothing, if the slot isn't a
    /// written loan of this port; and None in the cases in which a loan returns None.
    pub fn send(&mut self, loan: u64) -> Option<SendAnswer>
        ensures same { StaysPublisher self.old self.new }
        ensures call { Sends self.old.own loan self.new.own result }
        ensures slot { is_some result ≡ true → KnowsHead self.new.own.port loan (head_of loan self.old.own.lane)
            × KeepsPayload self.old.own.port self.new.own.port loan }
        ensures sent { IfSome result (λ told. KnowsSent self.old.own.port self.new.own.port self.old.own.lane.fails
            self.old.own.lane.port.routes loan told) }
        ensures others { (other : ℕ) → other < self.old.own.port.service.sizes.slots
            → KeepsPayload self.old.own.port self.new.own.port other }
        ensures headers { (other : ℕ) → KeepsHead other self.old.own self.new.own }
    {
        self.port.send(self.words.words(), loan)
    }

    /// Drops a loan, so its slot is free again. It accesses no shared word. Returns false, and does nothing, if the slot is no loan of this
    /// port or the port is inside a call.
    pub fn drop_loan(&mut self, loan: u64) -> bool
        ensures same { StaysPublisher self.old self.new }
        ensures call { Drops self.old.own loan self.new.own result }
        ensures others { (other : ℕ) → other < self.old.own.port.service.sizes.slots
            → KeepsPayload self.old.own.port self.new.own.port other }
        ensures headers { (other : ℕ) → KeepsHead other self.old.own self.new.own }
    {
        self.port.drop_loan(loan)
    }

    /// Does nothing. For the prover it recalls that the port knows what the next step of its lane needs, as `other_loans_stay` of
    /// `iox_lanes_threads_ports` requires.
    pub fn shows(&self)
        ensures { PublisherStands self.now.own.port self.now.own.lane }
    {
        self.port.shows();
    }

    /// Whether the port is inside a call. This is so only after a loan or a send that returned None because it didn't end, which needs a
    /// write position of 2^64 - 1.
    pub fn is_inside_call(&self) -> bool
        ensures { result ≡ not (publisher_is_idle self.now.own.lane.port.call) }
    {
        !self.port.lane().port().call().is_idle()
    }

    /// Whether a slot is a loan of this port, and whether it is written.
    pub fn loan_mark(&self, slot: u64) -> LoanMark
        ensures { result ≡ loan_of slot self.now.own.lane.port.book }
    {
        self.port.lane().port().book().loan(slot)
    }

    /// The sequence number of the last message that the publisher sent; before its first send, the number before that of its first message.
    /// None where messages have no sequence numbers.
    pub fn last_sequence(&self) -> Option<u64>
        ensures { result ≡ self.now.own.lane.last }
    {
        self.port.last_sequence()
    }

    /// The seat and the lane, which makes no more steps in a thread.
    pub(crate) fn into_parts(self) -> (WordSeat, PublisherLane)
        ensures { (result.0.table_id ≡ self.own.table) × (result.0.me ≡ single self.own.port) × (result.1 ≡ self.own.lane) }
    {
        let LanePublisher {
            words: _,
            board: _,
            place: _,
            port,
        } = self;
        port.into_parts()
    }
}

impl OnBoard for LanePublisher {
    ghost board_of = { λ l. l.board };

    fn board(&self) -> u64 {
        self.board
    }
}

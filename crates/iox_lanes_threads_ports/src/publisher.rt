//! A publisher whose calls make their steps on words that threads share.
ghost use Rattle.std.specs.Prelude.{◌≡◌, ◌<◌, ℕ, true, false, length, is_some, IfOk, IfSome};
ghost use Rattle.iox_lanes_machine.specs.LanesBase.Numbers.{IsSmall};
ghost use Rattle.std.specs.List.{All};
ghost use Rattle.iox_lanes_machine.specs.LanesParties.Parties.{head_of, is_out, kept_head, with_user_header, publisher_fits};
ghost use Rattle.iox_lanes_machine.specs.LanesParties.PublisherKeeping.{loan_of};
ghost use Rattle.iox_lanes_threads_rule.specs.Acts.{single, port_of};
ghost use Rattle.iox_lanes_threads_ports.specs.Known.{KeepsPayload, KnowsHead, KnowsPayload, KnowsSent};
ghost use Rattle.iox_lanes_threads_ports.specs.OtherLoans.{KeepsHead};
ghost use Rattle.iox_lanes_threads_ports.specs.Ports.{PublisherStands};
ghost use Rattle.iox_lanes_threads_ports.specs.Pace.{HasSteps};
ghost use Rattle.iox_lanes_threads_ports.specs.Paces.{sweep_steps, loan_steps, write_steps, send_steps};
ghost use Rattle.iox_lanes_threads_ports.specs.Values.{IsSeated, HasRoom, Asks, PublisherDoes, publisher_begins, SamePublisher, lent_of};
ghost use Rattle.iox_lanes_threads_ports.specs.Values.{sent_of, Loans, Sends, Writes, Drops};

use crate::publishing::run;
use iox_lanes_base::words::TableSizes;
use iox_lanes_parties::publisher::LoanAnswer;
use iox_lanes_parties::{Answer, Call, Move, PublisherLane, SendAnswer};
use iox_lanes_threads_rule::{Opening, WordSeat, Words};
use iox_queues_base::Words as WordValues;
use std::alloc::{AllocError, Global};
use std::marker::Model;

/// A publisher whose calls make their steps on words that threads share.
pub struct ThreadedPublisher {
    seat: WordSeat,
    sizes: TableSizes,
    lane: PublisherLane,
    // The write that the lane begins next. Its memory was allocated when the port was made.
    asked: Move,
}

/// Writes the drop out once, so that no crate above proves it anew.
impl Drop for ThreadedPublisher {
    fn drop(self) {
        let ThreadedPublisher {
            seat: _,
            sizes: _,
            lane: _,
            asked: _,
        } = self;
    }
}

impl Model for ThreadedPublisher {
    ghost use Rattle.iox_lanes_threads_rule.specs.Acts.{port_of};
    ghost use Rattle.iox_lanes_threads_ports.specs.Ports.{PublisherStands};
    ghost use Rattle.iox_lanes_threads_ports.specs.Values.{PublisherPort, IsSeated, HasRoom};

    ghost Value = { PublisherPort };

    ghost view = { λ t. record { table = t.seat.table_id; port = port_of t.seat.me; lane = t.lane } };

    ghost invariant = { λ t. IsSeated t.seat.table_id t.seat.me t.sizes × PublisherStands (port_of t.seat.me) t.lane
        × HasRoom t.sizes t.asked };
}

/// Memory for the words of a write, for slots of the table's sizes. `AllocError` is returned only where an allocation fails.
pub fn write_room(alloc: Global, sizes: &TableSizes) -> Result<Move, AllocError>
    ensures { IfOk result (λ room. HasRoom sizes.now room) }
{
    Ok(Move::Begin(Call::Write {
        loan: 0,
        payload: vec![in alloc; 0; sizes.payload_words as usize]?,
        user_header: vec![in alloc; 0; sizes.user_header_words as usize]?,
    }))
}

// Copies slot, payload and user header into the write that the lane begins next, if their numbers of words are those that it has memory
// for.
fn fill(asked: &mut Move, loan: u64, words: &[u64], header: &[u64]) -> bool
    ensures fills { result ≡ true → Asks loan words.now header.now asked.new }
    ensures refuses { (sizes : TableSizes) → HasRoom sizes asked.old → HasRoom sizes asked.new
        × (result ≡ false → length words.now ≡ sizes.payload_words → length header.now ≡ sizes.user_header_words → ⊥) }
{
    match asked {
        Move::Begin(call) => fill_call(call, loan, words, header),
        Move::GoOn => false,
    }
}

fn fill_call(asked: &mut Call, loan: u64, words: &[u64], header: &[u64]) -> bool
    ensures fills { result ≡ true → Asks loan words.now header.now (Move.Begin asked.new) }
    ensures refuses { (sizes : TableSizes) → HasRoom sizes (Move.Begin asked.old) → HasRoom sizes (Move.Begin asked.new)
        × (result ≡ false → length words.now ≡ sizes.payload_words → length header.now ≡ sizes.user_header_words → ⊥) }
{
    match asked {
        Call::Write {
            loan: slot,
            payload,
            user_header,
        } => {
            if payload.len() != words.len() || user_header.len() != header.len() {
                return false;
            }
            *slot = loan;
            payload.copy_from_slice(words);
            user_header.copy_from_slice(header);
            true
        }
        _ => false,
    }
}

// Copies the words of a value and of a user header into the write that the lane begins next, if their numbers are those that it has memory
// for.
fn fill_values<T: WordValues, U: WordValues>(
    asked: &mut Move,
    loan: u64,
    value: &T,
    user_header: &U,
) -> bool
    ensures fills { result ≡ true → Asks loan (T.parts value.now) (U.parts user_header.now) asked.new }
    ensures refuses { (sizes : TableSizes) → HasRoom sizes asked.old → HasRoom sizes asked.new
        × (result ≡ false → length (T.parts value.now) ≡ sizes.payload_words → length (U.parts user_header.now) ≡ sizes.user_header_words
        → ⊥) }
{
    match asked {
        Move::Begin(call) => call.write_anew(loan, value, user_header),
        Move::GoOn => false,
    }
}

fn lent(answer: Option<Answer>) -> Option<LoanAnswer>
    ensures { result ≡ lent_of answer }
{
    match answer {
        Some(Answer::Lent(given)) => Some(given),
        _ => None,
    }
}

fn sent(answer: Option<Answer>) -> Option<SendAnswer>
    ensures { result ≡ sent_of answer }
{
    match answer {
        Some(Answer::Sent(told)) => Some(told),
        _ => None,
    }
}

// The maximum number of steps in which a publisher takes samples back at all its connections.
fn sweep_steps(sizes: &TableSizes) -> u128
    requires { IsSmall sizes.now }
    ensures { result ≡ sweep_steps sizes.now }
{
    sizes.connections as u128 * (4 * (sizes.completion_cells as u128 + 1) + 2)
}

// The maximum number of steps of a loan.
fn loan_steps(sizes: &TableSizes) -> u128
    requires { IsSmall sizes.now }
    ensures { result ≡ loan_steps sizes.now }
{
    sweep_steps(sizes) + 1
}

// The maximum number of steps of a write.
fn write_steps(sizes: &TableSizes) -> u128
    ensures { result ≡ write_steps sizes.now }
{
    sizes.payload_words as u128 + 1
}

// The maximum number of steps of a send.
fn send_steps(sizes: &TableSizes) -> u128
    requires { IsSmall sizes.now }
    ensures { result ≡ send_steps sizes.now }
{
    3 + sizes.user_header_words as u128 + 1 + sweep_steps(sizes) + 6 * sizes.connections as u128 + 1
}

// Begins the call that the publisher is asked for.
fn begin(lane: &mut PublisherLane, step: &Move)
    requires fits { publisher_fits lane.old step.now ≡ true }
    requires heads { length lane.old.heads ≡ length lane.old.port.book.loans }
    requires widths { All (λ head. length head ≡ length lane.old.port.head) lane.old.heads }
    ensures { lane.new ≡ publisher_begins step.now lane.old }
{
    if let Move::Begin(call) = step {
        lane.begin(0, call);
    }
}

// Makes the call that the publisher is asked for, in at most `most` steps.
fn does<K: Opening>(
    words: &Words<K>,
    seat: &mut WordSeat,
    sizes: &TableSizes,
    lane: &mut PublisherLane,
    step: &Move,
    most: u128,
) -> Option<Answer>
    requires table { seat.old.table_id ≡ words.now.table_id }
    requires seat { IsSeated seat.old.table_id seat.old.me sizes.now }
    requires stands { PublisherStands (port_of seat.old.me) lane.old }
    requires enough { HasSteps sizes.now step.now most }
    ensures table { seat.new.table_id ≡ seat.old.table_id }
    ensures seat { IsSeated seat.new.table_id seat.new.me sizes.now }
    ensures stands { PublisherStands (port_of seat.new.me) lane.new }
    ensures same { ((port_of seat.new.me).name ≡ (port_of seat.old.me).name)
        × ((port_of seat.new.me).service ≡ (port_of seat.old.me).service) }
    ensures does { PublisherDoes most (port_of seat.old.me) lane.old step.now (port_of seat.new.me) lane.new result }
{
    if !lane.fits(step) {
        return None;
    }
    begin(lane, step);
    run(words, seat, sizes, lane, most)
}

impl ThreadedPublisher {
    /// A publisher that makes the calls of `lane` on the words of `seat`. `asked` is what `write_room` returned for these sizes.
    pub fn new(
        seat: WordSeat,
        sizes: TableSizes,
        lane: PublisherLane,
        asked: Move,
    ) -> ThreadedPublisher
        requires seat { IsSeated seat.table_id seat.me sizes }
        requires stands { PublisherStands (port_of seat.me) lane }
        requires room { HasRoom sizes asked }
        ensures { result ≡ record { table = seat.table_id; port = port_of seat.me; lane = lane } }
    {
        ThreadedPublisher {
            seat,
            sizes,
            lane,
            asked,
        }
    }

    /// Loans a slot that nothing uses, in at most `loan_steps` steps. In so many steps each connection can return as many samples as its
    /// completion ring has cells, and one more.
    ///
    /// Returns None in two cases. If the port is inside a call, nothing is done. If the loan isn't over after these steps, the port stays
    /// inside this call. The second case needs a write position that was 2^64 - 1 when the call loaded it, and a connection that returned
    /// more samples than its completion ring has cells.
    pub fn loan_uninit<K: Opening>(&mut self, words: &Words<K>) -> Option<LoanAnswer>
        requires { self.old.table ≡ words.now.table_id }
        ensures same { SamePublisher self.old self.new }
        ensures call { Loans self.old self.new result }
        ensures others { (other : ℕ) → other < self.old.port.service.sizes.slots → KeepsPayload self.old.port self.new.port other }
        ensures headers { (other : ℕ) → KeepsHead other self.old self.new }
    {
        let most = loan_steps(&self.sizes);
        let step = Move::Begin(Call::LoanUninit);
        let answer = does(
            words,
            &mut self.seat,
            &self.sizes,
            &mut self.lane,
            &step,
            most,
        );
        lent(answer)
    }

    /// Writes the words of a payload into the slot of a loan, and keeps the words of a user header for its send. Returns false if the slot
    /// isn't a loan of this port, the number of words isn't that of a payload and a user header, or the port is inside a call; then nothing
    /// is done.
    pub fn write<K: Opening>(
        &mut self,
        words: &Words<K>,
        loan: u64,
        payload: &[u64],
        user_header: &[u64],
    ) -> bool
        requires { self.old.table ≡ words.now.table_id }
        ensures same { SamePublisher self.old self.new }
        ensures call { Writes self.old loan payload.now user_header.now self.new result }
        ensures payload { result ≡ true → KnowsPayload self.new.port loan payload.now }
        ensures header { result ≡ true → kept_head loan self.new.lane ≡ with_user_header (kept_head loan self.old.lane) user_header.now }
        ensures others { result ≡ true → (other : ℕ) → (loan ≡ other → ⊥) → other < self.old.port.service.sizes.slots
            → KeepsPayload self.old.port self.new.port other }
        ensures headers { result ≡ true → (other : ℕ) → (loan ≡ other → ⊥) → is_out (loan_of other self.old.lane.port.book) ≡ true
            → KeepsHead other self.old self.new }
    {
        if !fill(&mut self.asked, loan, payload, user_header) {
            return false;
        }
        let most = write_steps(&self.sizes);
        let answer = does(
            words,
            &mut self.seat,
            &self.sizes,
            &mut self.lane,
            &self.asked,
            most,
        );
        answer.is_some()
    }

    /// Writes a value into the slot of a loan, and keeps a user header for its send: does what `write` does with the words of both.
    pub fn write_values<K: Opening, T: WordValues, U: WordValues>(
        &mut self,
        words: &Words<K>,
        loan: u64,
        value: &T,
        user_header: &U,
    ) -> bool
        requires { self.old.table ≡ words.now.table_id }
        ensures same { SamePublisher self.old self.new }
        ensures call { Writes self.old loan (T.parts value.now) (U.parts user_header.now) self.new result }
        ensures payload { result ≡ true → KnowsPayload self.new.port loan (T.parts value.now) }
        ensures header { result ≡ true → kept_head loan self.new.lane
            ≡ with_user_header (kept_head loan self.old.lane) (U.parts user_header.now) }
        ensures others { result ≡ true → (other : ℕ) → (loan ≡ other → ⊥) → other < self.old.port.service.sizes.slots
            → KeepsPayload self.old.port self.new.port other }
        ensures headers { result ≡ true → (other : ℕ) → (loan ≡ other → ⊥) → is_out (loan_of other self.old.lane.port.book) ≡ true
            → KeepsHead other self.old self.new }
    {
        if !fill_values(&mut self.asked, loan, value, user_header) {
            return false;
        }
        let most = write_steps(&self.sizes);
        let answer = does(
            words,
            &mut self.seat,
            &self.sizes,
            &mut self.lane,
            &self.asked,
            most,
        );
        answer.is_some()
    }

    /// Sends a written loan, and returns the number of connections that took the message. The answer is `UnableToDeliver` exactly if the
    /// publisher's sends fail at a full mailbox and a connection refused the message. Returns None, and does nothing, if the slot isn't a
    /// written loan of this port; and None in the cases in which a loan returns None.
    pub fn send<K: Opening>(&mut self, words: &Words<K>, loan: u64) -> Option<SendAnswer>
        requires { self.old.table ≡ words.now.table_id }
        ensures same { SamePublisher self.old self.new }
        ensures call { Sends self.old loan self.new result }
        ensures slot { is_some result ≡ true → KnowsHead self.new.port loan (head_of loan self.old.lane)
            × KeepsPayload self.old.port self.new.port loan }
        ensures sent { IfSome result (λ told. KnowsSent self.old.port self.new.port self.old.lane.fails self.old.lane.port.routes loan
            told) }
        ensures others { (other : ℕ) → other < self.old.port.service.sizes.slots → KeepsPayload self.old.port self.new.port other }
        ensures headers { (other : ℕ) → KeepsHead other self.old self.new }
    {
        let most = send_steps(&self.sizes);
        let step = Move::Begin(Call::Send { loan });
        let answer = does(
            words,
            &mut self.seat,
            &self.sizes,
            &mut self.lane,
            &step,
            most,
        );
        sent(answer)
    }

    /// Drops a loan, so its slot is free again. It accesses no shared word. Returns false, and does nothing, if the slot is no loan of this
    /// port or the port is inside a call.
    pub fn drop_loan(&mut self, loan: u64) -> bool
        ensures same { SamePublisher self.old self.new }
        ensures call { Drops self.old loan self.new result }
        ensures others { (other : ℕ) → other < self.old.port.service.sizes.slots → KeepsPayload self.old.port self.new.port other }
        ensures headers { (other : ℕ) → KeepsHead other self.old self.new }
    {
        let step = Move::Begin(Call::DropLoan { loan });
        if !self.lane.fits(&step) {
            return false;
        }
        begin(&mut self.lane, &step);
        self.lane.go_on(0);
        true
    }

    /// Does nothing. For the prover it recalls that the port knows what the next step of its lane needs.
    pub fn shows(&self)
        ensures { PublisherStands self.now.port self.now.lane }
    {
        let _ = &self.lane;
    }

    /// The publisher's lane.
    pub fn lane(&self) -> &PublisherLane
        ensures { result.now ≡ self.now.lane }
    {
        &self.lane
    }

    /// The sequence number of the last message that the publisher sent; before its first send, the number before that of its first message.
    /// None where messages have no sequence numbers.
    pub fn last_sequence(&self) -> Option<u64>
        ensures { result ≡ self.now.lane.last }
    {
        self.lane.last_sequence()
    }

    /// Takes the port apart into its seat and its lane.
    pub fn into_parts(self) -> (WordSeat, PublisherLane)
        ensures { (result.0.table_id ≡ self.table) × (result.0.me ≡ single self.port) × (result.1 ≡ self.lane) }
    {
        let ThreadedPublisher {
            seat,
            sizes: _,
            lane,
            asked: _,
        } = self;
        (seat, lane)
    }
}

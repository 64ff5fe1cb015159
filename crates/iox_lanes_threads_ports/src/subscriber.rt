//! A subscriber whose calls make their steps on words that threads share.
ghost use Rattle.std.specs.Prelude.{◌≡◌, ◌+◌, ◌||◌, true, false, length};
ghost use Rattle.iox_lanes_machine.specs.LanesBase.Subscribing.{subscriber_is_idle, subscriber_is_over};
ghost use Rattle.iox_lanes_machine.specs.LanesParties.Parties.{subscriber_begun, words_read};
ghost use Rattle.iox_lanes_threads_rule.specs.Acts.{single, port_of};
ghost use Rattle.iox_lanes_threads_ports.specs.Courses.{SubscriberEnds};
ghost use Rattle.iox_lanes_threads_ports.specs.Holding.{StandsBetween};
ghost use Rattle.iox_lanes_threads_ports.specs.Known.{KnowsRead, ListsRead, KnowsGivenBack, KeepsGivenBack};
ghost use Rattle.iox_lanes_threads_ports.specs.Ports.{SubscriberStands};
ghost use Rattle.iox_lanes_threads_ports.specs.Values.{IsSeated, IsBetween, SameSubscriber, received_of, release_answer_of, settled};
ghost use Rattle.iox_lanes_threads_ports.specs.Values.{Reads, Releases};

use crate::subscribing::{finish, run_on};
use iox_lanes_base::calls::Receipt;
use iox_lanes_base::words::TableSizes;
use iox_lanes_parties::{Answer, Call, Move, SubscriberLane};
use iox_lanes_threads_rule::{Opening, WordSeat, Words};
use std::marker::Model;
use std::sync::Wait;

/// The answer of a release.
#[derive(Clone, Copy, Debug, PartialEq, Eq)]
pub enum ReleaseAnswer {
    /// The sample went back to its publisher.
    Released,
    /// The slot isn't a sample of this port; nothing was done.
    NotMine,
    /// The completion ring was full, so the sample is still borrowed. This happens only where a write position was 2^64 - 1.
    RingFull,
}

/// A subscriber whose calls make their steps on words that threads share.
pub struct ThreadedSubscriber {
    seat: WordSeat,
    sizes: TableSizes,
    // After a read, the lane's last step, which accesses no shared word, isn't made yet; until it is made, the lane contains the words
    // read.
    lane: SubscriberLane,
}

/// Writes the drop out once, so that no crate above proves it anew.
impl Drop for ThreadedSubscriber {
    fn drop(self) {
        let ThreadedSubscriber {
            seat: _,
            sizes: _,
            lane: _,
        } = self;
    }
}

impl Model for ThreadedSubscriber {
    ghost use Rattle.iox_lanes_threads_rule.specs.Acts.{port_of};
    ghost use Rattle.iox_lanes_threads_ports.specs.Ports.{SubscriberStands};
    ghost use Rattle.iox_lanes_machine.specs.LanesParties.Parties.{words_read};
    ghost use Rattle.iox_lanes_threads_ports.specs.Values.{SubscriberPort, IsSeated, IsBetween, settled};

    ghost Value = { SubscriberPort };

    ghost view = { λ t. record {
      table = t.seat.table_id;
      port = port_of t.seat.me;
      lane = settled t.lane;
      words
          = words_read t.lane.port.call t.lane.port.words;
    } };

    ghost invariant = { λ t. IsSeated t.seat.table_id t.seat.me t.sizes × SubscriberStands (port_of t.seat.me) t.lane
        × IsBetween t.lane.port.call };
}

// Makes the last step of a call, if it is the only one left.
fn settle(lane: &mut SubscriberLane)
    requires { IsBetween lane.old.port.call }
    ensures lane { lane.new ≡ settled lane.old }
    ensures idle { subscriber_is_idle lane.new.port.call ≡ true }
{
    if lane.port().call().is_over() {
        lane.go_on(0, 0);
    }
}

fn received(answer: Option<Answer>) -> Receipt
    ensures { result ≡ received_of answer }
{
    match answer {
        Some(Answer::Received(receipt)) => receipt,
        _ => Receipt::Nothing,
    }
}

// What a release returns that made its steps.
fn release_answer(answer: Option<Answer>) -> ReleaseAnswer
    ensures { result ≡ release_answer_of answer }
{
    match answer {
        Some(Answer::Released(done)) => {
            if done {
                ReleaseAnswer::Released
            } else {
                ReleaseAnswer::RingFull
            }
        }
        _ => ReleaseAnswer::RingFull,
    }
}

impl ThreadedSubscriber {
    /// A subscriber that makes the calls of `lane` on the words of `seat`.
    pub fn new(seat: WordSeat, sizes: TableSizes, lane: SubscriberLane) -> ThreadedSubscriber
        requires seat { IsSeated seat.table_id seat.me sizes }
        requires stands { SubscriberStands (port_of seat.me) lane }
        requires idle { subscriber_is_idle lane.port.call ≡ true }
        ensures { result ≡ record
            { table = seat.table_id; port = port_of seat.me; lane = settled lane; words = words_read lane.port.call lane.port.words } }
    {
        ThreadedSubscriber { seat, sizes, lane }
    }

    /// Asks the connections, in their order, for a message, and returns the receipt. It may never return if publishers move the positions
    /// of a ring again and again.
    pub fn receive<R: Wait, K: Opening>(&mut self, rt: &R, words: &Words<K>) -> Receipt
        requires { self.old.table ≡ words.now.table_id }
        ensures same { SameSubscriber self.old self.new }
        ensures stood { StandsBetween self.old }
        ensures call { SubscriberEnds self.old.port (subscriber_begun 0 Call.Receive self.old.lane) self.new.port self.new.lane
            (Answer.Received result) }
    {
        settle(&mut self.lane);
        self.lane.begin(0, &Call::Receive);
        run_on(rt, words, &mut self.seat, &self.sizes, &mut self.lane);
        received(self.lane.go_on(0, 0))
    }

    /// Reads the words of a sample's header, user header and payload, which `words` then returns. Returns false, and reads nothing, if the
    /// slot isn't a sample of this port. Two reads of one sample give the same words if no call between them releases it, and no write
    /// position was 2^64 - 1 when they loaded the words (`held_reads_agree`).
    pub fn read<K: Opening>(&mut self, words: &Words<K>, sample: u64) -> bool
        requires { self.old.table ≡ words.now.table_id }
        ensures same { SameSubscriber self.old self.new }
        ensures stood { StandsBetween self.old }
        ensures call { Reads self.old sample self.new result }
        ensures words { result ≡ true → KnowsRead self.new.port self.old.lane.port.extent sample self.new.words }
        ensures listed { result ≡ true → ListsRead self.new.port self.old.lane.port.extent sample }
        ensures whole { result ≡ true → length self.new.words
            ≡ 3 + self.old.lane.port.extent.user_header_words + self.old.lane.port.extent.payload_words }
    {
        settle(&mut self.lane);
        if !self.lane.fits(&Move::Begin(Call::Read { sample })) {
            return false;
        }
        self.lane.begin(0, &Call::Read { sample });
        finish(words, &mut self.seat, &self.sizes, &mut self.lane);
        true
    }

    /// The words that the last call read, first the header, then the user header and the payload; empty if that call wasn't a read.
    pub fn words(&self) -> &[u64]
        ensures { result.now ≡ self.now.words }
    {
        self.lane.words_read()
    }

    /// Releases a sample: it goes back to its publisher. Returns `NotMine`, and does nothing, exactly if the slot isn't a sample of this
    /// port. A sample of this port comes back to its publisher unless a write position was 2^64 - 1 when the call loaded a word
    /// (`IsReleasedLate`); then the answer may be `RingFull`, and the sample is still borrowed.
    pub fn release<K: Opening>(&mut self, words: &Words<K>, sample: u64) -> ReleaseAnswer
        requires { self.old.table ≡ words.now.table_id }
        ensures same { SameSubscriber self.old self.new }
        ensures stood { StandsBetween self.old }
        ensures call { Releases self.old sample self.new result }
        ensures put { result ≡ ReleaseAnswer.Released → KnowsGivenBack self.old.port self.new.port self.old.lane sample }
        ensures kept { (result ≡ ReleaseAnswer.Released → ⊥) → KeepsGivenBack self.old.port self.new.port self.old.lane sample }
    {
        settle(&mut self.lane);
        if !self.lane.fits(&Move::Begin(Call::Release { sample })) {
            return ReleaseAnswer::NotMine;
        }
        self.lane.begin(0, &Call::Release { sample });
        finish(words, &mut self.seat, &self.sizes, &mut self.lane);
        release_answer(self.lane.go_on(0, 0))
    }

    /// Takes the port apart into its seat and its lane.
    pub fn into_parts(self) -> (WordSeat, SubscriberLane)
        ensures { (result.0.table_id ≡ self.table) × (result.0.me ≡ single self.port) × (result.1 ≡ self.lane) }
    {
        let ThreadedSubscriber {
            seat,
            sizes: _,
            mut lane,
        } = self;
        settle(&mut lane);
        (seat, lane)
    }
}

//! A subscriber with its share of the words.
ghost use Rattle.std.specs.Prelude.{◌≡◌, ◌+◌, true, false, length, IfSome, None};
ghost use Rattle.iox_lanes_machine.specs.LanesParties.Values.{AreValues};
ghost use Rattle.iox_lanes_machine.specs.LanesParties.Parties.{subscriber_begun};
ghost use Rattle.iox_lanes_threads_ports.specs.Courses.{SubscriberEnds};
ghost use Rattle.iox_lanes_threads_ports.specs.LanesThreadsRule.Acts.{single};
ghost use Rattle.iox_lanes_threads_ports.specs.Holding.{StandsBetween};
ghost use Rattle.iox_lanes_threads_ports.specs.Known.{KnowsRead, ListsRead, KnowsGivenBack, KeepsGivenBack};
ghost use Rattle.iox_lanes_threads_ports.specs.Values.{Releases, Reads};
ghost use Rattle.iox_lanes_threads.specs.Ports.{StaysSubscriber};

use crate::table::Share;
use crate::threads::OnBoard;
use iox_lanes_base::calls::Receipt;
use iox_lanes_parties::{Answer, Call, SubscriberLane, values_in};
use iox_lanes_threads_ports::{ReleaseAnswer, ThreadedSubscriber};
use iox_lanes_threads_rule::WordSeat;
use iox_queues_base::Words;
use std::marker::Model;
use std::sync::Wait;

/// A subscriber that makes its steps on the words that it shares with the other ports of its board. It may move to any thread. No call
/// locks or allocates, and only `receive` may wait.
pub struct LaneSubscriber {
    words: Share,
    board: u64,
    place: usize,
    port: ThreadedSubscriber,
}

/// Writes the drop out once, so that no crate above proves it anew.
impl Drop for LaneSubscriber {
    fn drop(self) {
        let LaneSubscriber {
            words: _,
            board: _,
            place: _,
            port: _,
        } = self;
    }
}

impl Model for LaneSubscriber {
    ghost use Rattle.std.specs.Prelude.{◌≡◌};
    ghost use Rattle.iox_lanes_threads.specs.Ports.{BoardSubscriber};

    ghost Value = { BoardSubscriber };

    ghost view = { λ l. record { board = l.board; place = l.place; own = l.port } };

    ghost invariant = { λ l. l.port.table ≡ l.words };
}

impl LaneSubscriber {
    pub(crate) fn new(
        words: Share,
        board: u64,
        place: usize,
        port: ThreadedSubscriber,
    ) -> LaneSubscriber
        requires { port.table ≡ words }
        ensures { result ≡ record { board = board; place = place; own = port } }
    {
        LaneSubscriber {
            words,
            board,
            place,
            port,
        }
    }

    /// The port's place among the board's subscribers.
    pub fn place(&self) -> usize
        ensures { result ≡ self.now.place }
    {
        self.place
    }

    /// Asks the connections, in their order, for a message, and returns the receipt. It may never return if publishers move the positions
    /// of a ring again and again.
    pub fn receive<R: Wait>(&mut self, rt: &R) -> Receipt
        ensures same { StaysSubscriber self.old self.new }
        ensures call { SubscriberEnds self.old.own.port (subscriber_begun 0 Call.Receive self.old.own.lane) self.new.own.port
            self.new.own.lane (Answer.Received result) }
        ensures stood { StandsBetween self.old.own }
    {
        self.port.receive(rt, self.words.words())
    }

    /// Reads the words of a sample's header, user header and payload, which `words` then returns. Returns false, and reads nothing, if the
    /// slot isn't a sample of this port. Two reads of one sample give the same words if no call between them releases it, and no write
    /// position was 2^64 - 1 when they loaded the words (`held_reads_agree` of `iox_lanes_threads_ports`).
    pub fn read(&mut self, sample: u64) -> bool
        ensures same { StaysSubscriber self.old self.new }
        ensures call { Reads self.old.own sample self.new.own result }
        ensures words { result ≡ true → KnowsRead self.new.own.port self.old.own.lane.port.extent sample self.new.own.words }
        ensures listed { result ≡ true → ListsRead self.new.own.port self.old.own.lane.port.extent sample }
        ensures whole { result ≡ true → length self.new.own.words
            ≡ 3 + self.old.own.lane.port.extent.user_header_words + self.old.own.lane.port.extent.payload_words }
        ensures stood { StandsBetween self.old.own }
    {
        self.port.read(self.words.words(), sample)
    }

    /// The words that the last call read, first the header, then the user header and the payload; empty if that call wasn't a read.
    pub fn words(&self) -> &[u64]
        ensures { result.now ≡ self.now.own.words }
    {
        self.port.words()
    }

    /// The user header and the value that the last call read. None if that call wasn't a read, or read another number of words.
    pub fn values<T: Words, U: Words>(&self) -> Option<(U, T)>
        ensures some { IfSome result (AreValues T.of_parts U.of_parts T.WORDS U.WORDS self.now.own.words) }
        ensures none { result ≡ None → length self.now.own.words ≡ 3 + U.WORDS + T.WORDS → ⊥ }
    {
        values_in::<T, U>(self.port.words())
    }

    /// Releases a sample: it goes back to its publisher. Returns `NotMine`, and does nothing, exactly if the slot isn't a sample of this
    /// port. A sample of this port comes back to its publisher unless a write position was 2^64 - 1 when the call loaded a word
    /// (`IsReleasedLate` of `iox_lanes_threads_ports`); then the answer may be `RingFull`, and the sample is still borrowed.
    pub fn release(&mut self, sample: u64) -> ReleaseAnswer
        ensures same { StaysSubscriber self.old self.new }
        ensures call { Releases self.old.own sample self.new.own result }
        ensures put { result ≡ ReleaseAnswer.Released → KnowsGivenBack self.old.own.port self.new.own.port self.old.own.lane sample }
        ensures kept { (result ≡ ReleaseAnswer.Released → ⊥) → KeepsGivenBack self.old.own.port self.new.own.port self.old.own.lane
            sample }
        ensures stood { StandsBetween self.old.own }
    {
        self.port.release(self.words.words(), sample)
    }

    /// The seat and the lane, which makes no more steps in a thread.
    pub(crate) fn into_parts(self) -> (WordSeat, SubscriberLane)
        ensures { (result.0.table_id ≡ self.own.table) × (result.0.me ≡ single self.own.port) × (result.1 ≡ self.own.lane) }
    {
        let LaneSubscriber {
            words: _,
            board: _,
            place: _,
            port,
        } = self;
        port.into_parts()
    }
}

impl OnBoard for LaneSubscriber {
    ghost board_of = { λ l. l.board };

    fn board(&self) -> u64 {
        self.board
    }
}

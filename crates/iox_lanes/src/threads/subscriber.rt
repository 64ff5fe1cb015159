//! A subscriber in threads that knows the types of its service.
ghost use Rattle.std.specs.Prelude.{◌≡◌, ◌+◌, ◌⊎◌, true, false, length, IfErr, IfSome, OnOk, None};
ghost use Rattle.iox_lanes_parties.specs.Parties.{subscriber_begun};
ghost use Rattle.iox_lanes_threads_ports.specs.Courses.{SubscriberEnds};
ghost use Rattle.iox_lanes_threads_ports.specs.Holding.{HasRead, StandsBetween};
ghost use Rattle.iox_lanes_threads_ports.specs.Known.{KnowsGivenBack};
ghost use Rattle.iox_lanes_threads_ports.specs.Values.{Reads, Releases, Unmoved};
ghost use Rattle.iox_lanes.specs.HeldByNone.{StandsInSlot};
ghost use Rattle.iox_lanes.specs.Typed.{is_sample_of};
ghost use Rattle.iox_lanes.specs.TypedCalls.{StaysTheSameSubscriber};
ghost use Rattle.iox_lanes.specs.TypedReads.{FindsNoMessage, IsUnreleased, ReadsMessage, answer_to};

use crate::threads::errors::{ReceiveError, ReleaseError};
use crate::threads::message::{Message, message_in};
use crate::threads::tokens::Sample;
use iox_describe_base::Header;
use iox_lanes_base::calls::Receipt;
use iox_lanes_parties::{Answer, Call, FewWords};
use iox_lanes_threads::{LaneSubscriber, ReleaseAnswer};
use iox_queues_base::Words;
use std::marker::{Model, PhantomData};
use std::sync::Wait;

/// A subscriber in threads to values of `T` with user headers of `U`. It may move to any thread. No call locks or allocates, and only
/// `receive` may wait.
///
/// Ported from `iceoryx2::port::subscriber::Subscriber`.
pub struct Subscriber<T, U> {
    port: LaneSubscriber,
    id: u64,
    of: PhantomData<(T, U)>,
}

/// Writes the drop out once, so that no crate above proves it anew.
impl<T, U> Drop for Subscriber<T, U> {
    fn drop(self) {
        let Subscriber {
            port: _,
            id: _,
            of: _,
        } = self;
    }
}

impl<T, U> Model for Subscriber<T, U> {
    ghost use Rattle.iox_lanes.specs.Typed.{TypedSubscriber};

    ghost Value = { TypedSubscriber };

    ghost view = { λ s. record { port = s.port; id = s.id } };
}

/// A sample that wasn't released, and why.
///
/// Not in `iceoryx2`.
#[derive(Drop)]
pub struct Unreleased<T, U> {
    /// Why.
    pub error: ReleaseError,
    /// The sample, as it was.
    pub sample: Sample<T, U>,
}

impl<T, U> Subscriber<T, U> {
    // The subscriber that has this id in its domain.
    pub(crate) fn new(port: LaneSubscriber, id: u64) -> Subscriber<T, U>
        ensures { result ≡ record { port = port; id = id } }
    {
        Subscriber {
            port,
            id,
            of: PhantomData,
        }
    }

    /// Its id in the domain, which is that of its handle in a hub.
    pub fn id(&self) -> u64
        ensures { result ≡ self.now.id }
    {
        self.id
    }

    /// The port without its types.
    pub fn into_port(self) -> LaneSubscriber
        ensures { result ≡ self.port }
    {
        let Subscriber { port, id: _, of: _ } = self;
        port
    }

    // The number of its board.
    fn board(&self) -> u64
        ensures { result ≡ self.now.port.board }
    {
        iox_lanes_threads::OnBoard::board(&self.port)
    }

    // Whether a sample came from this subscriber.
    fn took(&self, sample: &Sample<T, U>) -> bool
        ensures { result ≡ is_sample_of self.now sample.now }
    {
        sample.board() == self.board() && sample.place() == self.port.place()
    }

    /// Takes a waiting message, and returns its sample; None if no message waits. Refused with `ExceedsMaxBorrows` if messages wait, and
    /// from each connection with a waiting message the maximum number of samples is borrowed.
    ///
    /// It may go on forever if its publishers move the positions of a ring again and again.
    ///
    /// Ported from `iceoryx2::port::subscriber::Subscriber::receive`.
    /// Example: `let Some(sample) = subscriber.receive(rt)? else { return Ok(None) };`
    pub fn receive<R: Wait>(&mut self, rt: &R) -> Result<Option<Sample<T, U>>, ReceiveError>
        ensures same { StaysTheSameSubscriber self.old self.new }
        ensures received { (receipt : Receipt) × (result ≡ answer_to self.new receipt)
            × SubscriberEnds self.old.port.own.port (subscriber_begun 0 Call.Receive self.old.port.own.lane) self.new.port.own.port
            self.new.port.own.lane (Answer.Received receipt) }
    {
        let receipt = self.port.receive(rt);
        self.answer_to(receipt)
    }

    /// Releases a sample: it goes back to its publisher. Refused with `NotMine` if the sample isn't one of this port; then nothing is done,
    /// and the sample comes back.
    ///
    /// A sample that this port borrows always goes to its publisher, as long as no write position is 2^64 - 1. From then on the release may
    /// be refused with `RingFull`; then the sample is still borrowed, and comes back.
    ///
    /// Ported from the drop of an `iceoryx2::sample::Sample`.
    /// Example: `subscriber.release(sample).map_err(|unreleased| unreleased.error)?;`
    pub fn release(&mut self, sample: Sample<T, U>) -> Result<(), Unreleased<T, U>>
        ensures same { StaysTheSameSubscriber self.old self.new }
        ensures released { OnOk result ((is_sample_of self.old sample ≡ true)
            × Releases self.old.port.own sample.slot self.new.port.own ReleaseAnswer.Released
            × KnowsGivenBack self.old.port.own.port self.new.port.own.port self.old.port.own.lane sample.slot) }
        ensures refused { IfErr result (λ unreleased. unreleased.sample ≡ sample) }
        ensures why { IfErr result (λ unreleased. IsUnreleased self.old sample self.new unreleased.error) }
    {
        if !self.took(&sample) {
            return Err(refused(ReleaseError::NotMine, sample));
        }
        match self.give_back(&sample) {
            ReleaseAnswer::Released => Ok(()),
            ReleaseAnswer::NotMine => Err(refused(ReleaseError::NotMine, sample)),
            ReleaseAnswer::RingFull => Err(refused(ReleaseError::RingFull, sample)),
        }
    }
}

// A sample that comes back, and why.
fn refused<T, U>(error: ReleaseError, sample: Sample<T, U>) -> Unreleased<T, U>
    ensures { (result.error ≡ error) × (result.sample ≡ sample) }
{
    Unreleased { error, sample }
}

impl<T, U> Subscriber<T, U> {
    // What a receive returns for the receipt of the port.
    fn answer_to(&self, receipt: Receipt) -> Result<Option<Sample<T, U>>, ReceiveError>
        ensures { result ≡ answer_to self.now receipt }
    {
        match receipt {
            Receipt::Taken { place: _, slot } => {
                let sample = Sample::new(slot, self.board(), self.port.place());
                Ok(Some(sample))
            }
            Receipt::Nothing => Ok(None),
            Receipt::ExceedsMaxBorrows => Err(ReceiveError::ExceedsMaxBorrows),
        }
    }

    // Releases the slot of a sample.
    fn give_back(&mut self, sample: &Sample<T, U>) -> ReleaseAnswer
        ensures same { StaysTheSameSubscriber self.old self.new }
        ensures call { Releases self.old.port.own sample.now.slot self.new.port.own result }
        ensures goes { result ≡ ReleaseAnswer.Released → KnowsGivenBack self.old.port.own.port self.new.port.own.port
            self.old.port.own.lane sample.now.slot }
    {
        self.port.release(sample.slot())
    }

    // Reads the words of a slot into the port, where `words` shows them.
    fn read(&mut self, slot: u64) -> bool
        ensures same { StaysTheSameSubscriber self.old self.new }
        ensures call { Reads self.old.port.own slot self.new.port.own result }
        ensures stood { StandsBetween self.old.port.own }
        ensures has_read { result ≡ true → HasRead self.new.port.own.port self.old.port.own.lane.port.extent slot self.new.port.own.words }
        ensures stands { result ≡ true
            → StandsInSlot self.new.port.own.port self.old.port.own.lane.port.extent slot self.new.port.own.words }
    {
        self.port.read(slot)
    }
}

impl<T: Words, U: FewWords> Subscriber<T, U> {
    /// Reads a sample: its header, user header and value. None if the sample isn't one of this port, or its slot has values of another
    /// width: then the port is one of another board that was opened with the same number.
    ///
    /// No publisher overwrites a slot that the subscriber holds: the words that were read are still those of the slot (`stands`), whatever
    /// the other ports do, until the release. So each read of a held sample returns the same (`held_reads_agree` of
    /// `iox_lanes_threads_ports`). Both hold as long as no write position is 2^64 - 1.
    ///
    /// Not in `iceoryx2`.
    /// Example: `let message = subscriber.message(&sample)?;`
    pub fn message(&mut self, sample: &Sample<T, U>) -> Option<Message<T, U>>
        ensures same { StaysTheSameSubscriber self.old self.new }
        ensures reads { IfSome result (λ message. ReadsMessage T.of_parts U.of_parts T.WORDS U.WORDS self.old sample.now self.new message) }
        ensures none { result ≡ None → FindsNoMessage T.WORDS U.WORDS self.old sample.now self.new }
    {
        if !self.took(sample) || !self.read(sample.slot()) {
            return None;
        }
        message_in(self.port.words())
    }

    /// The value of a sample. None if `message` returns None; `stands` is that of `message`.
    ///
    /// Ported from `iceoryx2::sample::Sample::payload`.
    /// Example: `let reading = subscriber.value(&sample)?;`
    pub fn value(&mut self, sample: &Sample<T, U>) -> Option<T>
        ensures same { StaysTheSameSubscriber self.old self.new }
        ensures reads { IfSome result (λ value. (message : Message T U) × (value ≡ message.value)
            × ReadsMessage T.of_parts U.of_parts T.WORDS U.WORDS self.old sample.now self.new message) }
        ensures none { result ≡ None → FindsNoMessage T.WORDS U.WORDS self.old sample.now self.new }
    {
        Some(self.message(sample)?.value)
    }

    /// The user header of a sample. None if `message` returns None.
    ///
    /// Ported from `iceoryx2::sample::Sample::user_header`.
    /// Example: `let user_header = subscriber.user_header(&sample)?;`
    pub fn user_header(&mut self, sample: &Sample<T, U>) -> Option<U>
        ensures same { StaysTheSameSubscriber self.old self.new }
        ensures reads { IfSome result (λ user_header. (message : Message T U) × (user_header ≡ message.user_header)
            × ReadsMessage T.of_parts U.of_parts T.WORDS U.WORDS self.old sample.now self.new message) }
        ensures none { result ≡ None → FindsNoMessage T.WORDS U.WORDS self.old sample.now self.new }
    {
        Some(self.message(sample)?.user_header)
    }

    /// The header of a sample. None if `message` returns None.
    ///
    /// Ported from `iceoryx2::sample::Sample::header`.
    /// Example: `let number = subscriber.header(&sample)?.sequence;`
    pub fn header(&mut self, sample: &Sample<T, U>) -> Option<Header>
        ensures same { StaysTheSameSubscriber self.old self.new }
        ensures reads { IfSome result (λ header. (message : Message T U) × (header ≡ message.header)
            × ReadsMessage T.of_parts U.of_parts T.WORDS U.WORDS self.old sample.now self.new message) }
        ensures none { result ≡ None → FindsNoMessage T.WORDS U.WORDS self.old sample.now self.new }
    {
        Some(self.message(sample)?.header)
    }
}

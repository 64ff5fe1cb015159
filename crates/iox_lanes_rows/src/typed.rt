//! Ports in threads that know the types of their service, by their ids in the domain.
use crate::changes::NumberThreads;
use crate::domain::in_both_words;
use iox_lanes::threads::{Loan, Publisher, SendError, Subscriber, Unsent, WriteError};
use iox_lanes::{Delivery, LanePublisher};
use std::sync::Wait;

type Sender = Publisher<u128, ()>;

type Receiver = Subscriber<u128, ()>;

// A value of two words, of which neither is 0.
const VALUE: u64 = 7;

// The loan that comes back from a send, if it does so for this reason.
fn back(answer: Result<Delivery, Unsent<u128, ()>>, reason: SendError) -> Option<Loan<u128, ()>> {
    match answer {
        Ok(_) => None,
        Err(Unsent { error, loan }) => { if error == reason { loan } else { None } }
    }
}

// Whether another publisher refuses a loan, its own doesn't send it before it is written, and its own drops it.
fn is_refused(one: &mut Sender, other: &mut Sender) -> Option<bool> {
    let loan = one.loan().ok()?;
    let written = other.write(&loan, &in_both_words(VALUE), &());
    let loan = other.drop_loan(loan).err()?;
    let loan = back(other.send(loan), SendError::NotMine)?;
    let loan = back(one.send(loan), SendError::NotWritten)?;
    Some(one.drop_loan(loan).is_ok() && written == Err(WriteError::NotMine))
}

// What the send of a value answers.
fn sent(port: &mut Sender) -> Option<Result<Delivery, Unsent<u128, ()>>> {
    let loan = port.loan().ok()?;
    port.write(&loan, &in_both_words(VALUE), &()).ok()?;
    Some(port.send(loan))
}

// Whether the message that was sent first waits, reads twice as it was sent, and is released.
fn is_read(rt: &impl Wait, port: &mut Receiver) -> Option<bool> {
    let sample = port.receive(rt).ok()??;
    let message = port.message(&sample)?;
    let again = port.value(&sample)? == message.value;
    let whole = message.value == in_both_words(VALUE) && message.header.sequence == Some(1);
    Some(port.release(sample).is_ok() && whole && again)
}

// Whether two publishers and a subscriber do all this.
fn do_well(
    rt: &impl Wait,
    one: &mut Sender,
    other: &mut Sender,
    reader: &mut Receiver,
) -> Option<bool> {
    let refused = is_refused(one, other)?;
    let delivery = sent(one)?.ok()?;
    Some(is_read(rt, reader)? && refused && delivery.taken == 1)
}

/// Whether two publishers and a subscriber with these ids are there, refuse what isn't theirs, send and read, and come back.
pub(crate) fn go(rt: &impl Wait, threads: &mut NumberThreads, ids: [u64; 3]) -> Option<bool> {
    let [one, other, reader] = ids;
    let mut one = threads.take_publisher(one)?;
    let mut other = threads.take_publisher(other)?;
    let mut reader = threads.take_subscriber(reader)?;
    let well = do_well(rt, &mut one, &mut other, &mut reader)?;
    threads.put_publisher(one).ok()?;
    threads.put_publisher(other).ok()?;
    threads.put_subscriber(reader).ok()?;
    Some(well)
}

/// Whether a publisher whose slots have a word, which has board number and place of the publisher with this id, refuses a value of two.
pub(crate) fn is_refused_for_width(
    threads: &mut NumberThreads,
    id: u64,
    narrow: Option<LanePublisher>,
) -> Option<bool> {
    let own = threads.take_publisher(id)?;
    threads.publishers.push(narrow?).ok()?;
    let mut port = threads.take_publisher(id)?;
    let loan = port.loan().ok()?;
    let written = port.write(&loan, &in_both_words(VALUE), &());
    let dropped = port.drop_loan(loan).is_ok();
    threads.put_publisher(own).ok()?;
    Some(written == Err(WriteError::OtherWidth) && dropped)
}

/// Whether the send of the publisher with this id fails at the only mailbox, which is full, and its loan is gone.
pub(crate) fn fails(threads: &mut NumberThreads, id: u64) -> Option<bool> {
    let mut port = threads.take_publisher(id)?;
    let unsent = sent(&mut port)?.err()?;
    threads.put_publisher(port).ok()?;
    let full = Delivery {
        taken: 0,
        refused: 1,
    };
    Some(unsent.error == SendError::UnableToDeliver(full) && unsent.loan.is_none())
}

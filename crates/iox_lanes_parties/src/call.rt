//! What lanes may be asked to do, and their answers.
ghost use Rattle.std.specs.Prelude.{◌≡◌};
ghost use Rattle.iox_lanes_parties.specs.SendAnswers.{delivery_in, send_answer};

use crate::publisher::LoanAnswer;
use iox_lanes_base::calls::{Delivery, Receipt};

/// A publisher or a subscriber, by its number among those of its kind.
#[derive(Clone, Copy)]
pub enum Party {
    /// The publisher with this number.
    Publisher(usize),
    /// The subscriber with this number.
    Subscriber(usize),
}

/// A call that a party may begin. Loans and samples are identified by the numbers of their slots.
#[derive(Drop)]
pub enum Call {
    /// A publisher loans a slot.
    LoanUninit,
    /// A publisher writes these words of payload into a loan, and keeps the words of the user header for its send.
    Write {
        loan: u64,
        payload: Vec<u64>,
        user_header: Vec<u64>,
    },
    /// A publisher sends a loan that is written.
    Send {
        loan: u64,
    },
    /// A publisher drops a loan.
    DropLoan {
        loan: u64,
    },
    /// A subscriber receives a message.
    Receive,
    /// A subscriber reads a sample.
    Read {
        sample: u64,
    },
    /// A subscriber releases a sample.
    Release {
        sample: u64,
    },
}

/// What a party is asked to do next.
#[derive(Drop)]
pub enum Move {
    /// It begins a call.
    Begin(Call),
    /// It makes the next step of the call that it is in.
    GoOn,
}

/// One entry of a schedule.
#[derive(Drop)]
pub struct Entry {
    /// The party.
    pub party: Party,
    /// What it is asked to do.
    pub step: Move,
}

/// A call, without the words of a write.
#[derive(Clone, Copy)]
pub enum CallName {
    /// A loan.
    LoanUninit,
    /// A write into this loan.
    Write { loan: u64 },
    /// A send of this loan.
    Send { loan: u64 },
    /// The dropping of this loan.
    DropLoan { loan: u64 },
    /// A receive.
    Receive,
    /// A read of this sample.
    Read { sample: u64 },
    /// A release of this sample.
    Release { sample: u64 },
}

/// The answer of a send.
#[derive(Clone, Copy, Debug, PartialEq, Eq)]
pub enum SendAnswer {
    /// The message was delivered.
    Delivered(Delivery),
    /// The publisher's sends fail at a full mailbox, and a connection refused the message. The other connections took it all the same.
    UnableToDeliver(Delivery),
}

impl SendAnswer {
    /// The answer for this delivery of a publisher whose sends fail at a full mailbox, or don't.
    ///
    /// Example: `SendAnswer::of(true, delivery)` is `UnableToDeliver(delivery)` where `delivery.refused` is 1.
    pub fn of(fails: bool, delivery: Delivery) -> SendAnswer
        ensures { result ≡ send_answer fails delivery }
    {
        if fails && delivery.refused > 0 {
            SendAnswer::UnableToDeliver(delivery)
        } else {
            SendAnswer::Delivered(delivery)
        }
    }

    /// How many connections took the message, and how many refused it.
    ///
    /// Example: `answer.delivery().taken`.
    pub fn delivery(&self) -> Delivery
        ensures { result ≡ delivery_in self.now }
    {
        match *self {
            SendAnswer::Delivered(delivery) | SendAnswer::UnableToDeliver(delivery) => delivery,
        }
    }
}

/// The answer of a call.
#[derive(Clone, Copy, Debug, PartialEq, Eq)]
pub enum Answer {
    /// The answer of a loan.
    Lent(LoanAnswer),
    /// The loan is written.
    Written,
    /// The answer of a send.
    Sent(SendAnswer),
    /// The loan is dropped.
    Dropped,
    /// The answer of a receive.
    Received(Receipt),
    /// The sample is read. `from` is where its words begin among all that were read.
    Read { from: usize },
    /// Whether the sample went back to its publisher.
    Released(bool),
}

/// A call that ended.
#[derive(Clone, Copy)]
pub struct FinishedCall {
    /// The party that made it.
    pub party: Party,
    /// The call.
    pub call: CallName,
    /// Its answer.
    pub answer: Answer,
    /// The moment of its first step.
    pub first: u64,
    /// The moment of its last step.
    pub last: u64,
}

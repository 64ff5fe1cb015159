//! A publisher in threads that knows the types of its service.
ghost use Rattle.std.specs.Prelude.{◌≡◌, ◌<◌, ℕ, true, false, IfOk, IfErr, OnOk, Some, None};
ghost use Rattle.iox_lanes_parties.specs.Parties.{head_of, is_out, kept_head, with_user_header};
ghost use Rattle.iox_lanes_parties.specs.PublisherKeeping.{loan_of};
ghost use Rattle.iox_lanes_threads_ports.specs.Known.{KeepsPayload, KnowsHead, KnowsPayload, KnowsSent};
ghost use Rattle.iox_lanes_threads_ports.specs.OtherLoans.{KeepsHead};
ghost use Rattle.iox_lanes_threads_ports.specs.Values.{Drops, Loans, Sends, StaysPut, Writes, write_fits};
ghost use Rattle.iox_lanes.specs.HeldByNone.{IsHeldByNone};
ghost use Rattle.iox_lanes.specs.Typed.{is_loan_of, middle_parts};
ghost use Rattle.iox_lanes.specs.TypedCalls.{StaysTheSame, refused_loan, is_mine, is_ready, why_unwritten};
ghost use Rattle.iox_lanes.specs.TypedSends.{IsUnsent};

use crate::threads::errors::{LoanError, SendError, WriteError};
use crate::threads::tokens::Loan;
use iox_lanes_base::calls::Delivery;
use iox_lanes_parties::publisher::{LoanAnswer, LoanMark};
use iox_lanes_parties::{FewWords, SendAnswer, WithSequence};
use iox_lanes_threads::LanePublisher;
use iox_queues_base::Words;
use std::marker::{Model, PhantomData};

/// A publisher in threads of values of `T` with user headers of `U`. It may move to any thread. No call locks, allocates or waits.
///
/// Ported from `iceoryx2::port::publisher::Publisher`.
pub struct Publisher<T, U> {
    port: LanePublisher,
    id: u64,
    of: PhantomData<(T, U)>,
}

/// Writes the drop out once, so that no crate above proves it anew.
impl<T, U> Drop for Publisher<T, U> {
    fn drop(self) {
        let Publisher {
            port: _,
            id: _,
            of: _,
        } = self;
    }
}

impl<T, U> Model for Publisher<T, U> {
    ghost use Rattle.iox_lanes.specs.Typed.{TypedPublisher};

    ghost Value = { TypedPublisher };

    ghost view = { λ p. record { port = p.port; id = p.id } };
}

/// Why a send returned no delivery, and the loan if it comes back.
///
/// Not in `iceoryx2`.
#[derive(Drop)]
pub struct Unsent<T, U> {
    /// Why.
    pub error: SendError,
    /// The loan, as it was. None if the other connections took the message (`UnableToDeliver`).
    pub loan: Option<Loan<T, U>>,
}

impl<T, U> Publisher<T, U> {
    // The publisher that has this id in its domain.
    pub(crate) fn new(port: LanePublisher, id: u64) -> Publisher<T, U>
        ensures { result ≡ record { port = port; id = id } }
    {
        Publisher {
            port,
            id,
            of: PhantomData,
        }
    }

    /// Its id in the domain, which is that of its handle in a hub.
    pub fn id(&self) -> u64
        ensures { result ≡ self.now.id }
    {
        self.id
    }

    /// The port without its types.
    pub fn into_port(self) -> LanePublisher
        ensures { result ≡ self.port }
    {
        let Publisher { port, id: _, of: _ } = self;
        port
    }

    // Whether a loan came from this publisher.
    fn lent(&self, loan: &Loan<T, U>) -> bool
        ensures { result ≡ is_loan_of self.now loan.now }
    {
        loan.board() == self.board() && loan.place() == self.port.place()
    }

    // The number of its board.
    fn board(&self) -> u64
        ensures { result ≡ self.now.port.board }
    {
        iox_lanes_threads::OnBoard::board(&self.port)
    }

    // Whether a loan came from this publisher, and wasn't sent or dropped yet.
    fn is_out(&self, loan: &Loan<T, U>) -> bool
        ensures { result ≡ is_mine self.now loan.now }
    {
        if !self.lent(loan) {
            return false;
        }
        match self.port.loan_mark(loan.slot()) {
            LoanMark::No => false,
            LoanMark::Lent | LoanMark::Written => true,
        }
    }

    // Whether a loan came from this publisher, and wasn't sent or dropped yet. No subscriber holds the slot of such a loan.
    fn has(&self, loan: &Loan<T, U>) -> bool
        ensures mine { result ≡ is_mine self.now loan.now }
        ensures unheld { result ≡ true → IsHeldByNone self.now.port.own.port loan.now.slot }
    {
        self.port.shows();
        self.is_out(loan)
    }

    // Whether a loan is written.
    fn is_ready(&self, loan: &Loan<T, U>) -> bool
        ensures { result ≡ is_ready self.now loan.now }
    {
        match self.port.loan_mark(loan.slot()) {
            LoanMark::No | LoanMark::Lent => false,
            LoanMark::Written => true,
        }
    }

    /// Loans a slot. Refused with `ExceedsMaxLoans` if the maximum number of loans is out, with `OutOfMemory` if each slot is in use, and
    /// with `InsideCall` if the port is inside a call.
    ///
    /// It returns after at most `loan_steps` steps: as many as its connections need to give back all the samples that they have cells for,
    /// and one sample more each. All loans keep their values (`others`) and
    /// user headers (`headers`).
    ///
    /// Ported from `iceoryx2::port::publisher::Publisher::loan_uninit`.
    /// Example: `let loan = publisher.loan()?;`
    pub fn loan(&mut self) -> Result<Loan<T, U>, LoanError>
        ensures same { StaysTheSame self.old self.new }
        ensures lent { IfOk result (λ loan. Loans self.old.port.own self.new.port.own (Some (LoanAnswer.Slot loan.slot))
            × (is_loan_of self.new loan ≡ true)) }
        ensures refused { IfErr result (λ error. Loans self.old.port.own self.new.port.own (refused_loan error)) }
        ensures others { (other : ℕ) → other < self.old.port.own.port.service.sizes.slots
            → KeepsPayload self.old.port.own.port self.new.port.own.port other }
        ensures headers { (other : ℕ) → KeepsHead other self.old.port.own self.new.port.own }
    {
        match self.port.loan_uninit() {
            Some(LoanAnswer::Slot(slot)) => Ok(Loan::new(slot, self.board(), self.port.place())),
            Some(LoanAnswer::ExceedsMaxLoans) => Err(LoanError::ExceedsMaxLoans),
            Some(LoanAnswer::OutOfMemory) => Err(LoanError::OutOfMemory),
            None => Err(LoanError::InsideCall),
        }
    }

    /// Drops a loan, so that its slot is free again; all other loans keep their values (`others`) and user headers (`headers`). The loan
    /// comes back if it isn't a loan of this port, or the port is inside a call.
    ///
    /// Ported from the drop of an `iceoryx2::sample_mut_uninit::SampleMutUninit`.
    /// Example: `if let Err(loan) = publisher.drop_loan(loan) { .. }`
    pub fn drop_loan(&mut self, loan: Loan<T, U>) -> Result<(), Loan<T, U>>
        ensures same { StaysTheSame self.old self.new }
        ensures dropped { OnOk result ((is_loan_of self.old loan ≡ true) × Drops self.old.port.own loan.slot self.new.port.own true) }
        ensures refused { IfErr result (λ back. (back ≡ loan) × StaysPut self.old.port.own self.new.port.own) }
        ensures why { IfErr result (λ _. is_loan_of self.old loan ≡ true → Drops self.old.port.own loan.slot self.new.port.own false) }
        ensures others { (other : ℕ) → other < self.old.port.own.port.service.sizes.slots
            → KeepsPayload self.old.port.own.port self.new.port.own.port other }
        ensures headers { (other : ℕ) → KeepsHead other self.old.port.own self.new.port.own }
    {
        if self.lent(&loan) && self.port.drop_loan(loan.slot()) {
            return Ok(());
        }
        Err(loan)
    }

    /// Sends a loan that is written. Returns how many connections took the message, and how many refused it.
    ///
    /// Refused with `InsideCall` if the port is inside a call, with `NotMine` if the loan isn't one of this port, and with `NotWritten` if
    /// nothing was written into it, checked in this order; then nothing is done, and the loan comes back. Where the publisher fails at a
    /// full mailbox and a connection refused the message, the error is `UnableToDeliver`; the other connections have the message.
    ///
    /// The send stores words of the loan's slot alone, which no subscriber holds (`unheld`); all other loans keep their values (`others`)
    /// and user headers (`headers`).
    ///
    /// Ported from `iceoryx2::sample_mut::SampleMut::send`.
    /// Example: `publisher.send(loan).map_err(|unsent| unsent.error)?;`
    pub fn send(&mut self, loan: Loan<T, U>) -> Result<Delivery, Unsent<T, U>>
        ensures same { StaysTheSame self.old self.new }
        ensures mine { IfOk result (λ _. is_mine self.old loan ≡ true) }
        ensures sent { IfOk result (λ delivery. Sends self.old.port.own loan.slot self.new.port.own
            (Some (SendAnswer.Delivered delivery))) }
        ensures slot { IfOk result (λ _. KnowsHead self.new.port.own.port loan.slot (head_of loan.slot self.old.port.own.lane)
            × KeepsPayload self.old.port.own.port self.new.port.own.port loan.slot) }
        ensures told { IfOk result (λ delivery. KnowsSent self.old.port.own.port self.new.port.own.port self.old.port.own.lane.fails
            self.old.port.own.lane.port.routes loan.slot (SendAnswer.Delivered delivery)) }
        ensures unheld { IfOk result (λ _. IsHeldByNone self.old.port.own.port loan.slot) }
        ensures others { (other : ℕ) → other < self.old.port.own.port.service.sizes.slots
            → KeepsPayload self.old.port.own.port self.new.port.own.port other }
        ensures headers { (other : ℕ) → KeepsHead other self.old.port.own self.new.port.own }
        ensures unsent { IfErr result (λ unsent. IsUnsent self.old loan self.new unsent.error unsent.loan) }
    {
        if self.port.is_inside_call() {
            return Err(refused(SendError::InsideCall, loan));
        }
        if !self.has(&loan) {
            return Err(refused(SendError::NotMine, loan));
        }
        if !self.is_ready(&loan) {
            return Err(refused(SendError::NotWritten, loan));
        }
        match self.port.send(loan.slot()) {
            Some(SendAnswer::Delivered(delivery)) => Ok(delivery),
            Some(SendAnswer::UnableToDeliver(delivery)) => Err(undelivered(delivery)),
            None => Err(refused(SendError::InsideCall, loan)),
        }
    }
}

// A loan that comes back, and why.
fn refused<T, U>(error: SendError, loan: Loan<T, U>) -> Unsent<T, U>
    ensures { (result.error ≡ error) × (result.loan ≡ Some loan) }
{
    Unsent {
        error,
        loan: Some(loan),
    }
}

// A message that some connection refused.
fn undelivered<T, U>(delivery: Delivery) -> Unsent<T, U>
    ensures { (result.error ≡ SendError.UnableToDeliver delivery) × (result.loan ≡ None) }
{
    Unsent {
        error: SendError::UnableToDeliver(delivery),
        loan: None,
    }
}

impl<T: Words, U: FewWords> Publisher<T, U> {
    /// Writes a value into a loan, and keeps a user header for its send. A loan may be written again until it is sent.
    ///
    /// Refused with `InsideCall` if the port is inside a call, with `NotMine` if the loan isn't one of this port, and with `OtherWidth` if
    /// the slots have values or user headers of another width (`width`), checked in this order; then nothing is done. Slots have another
    /// width only if the port is one of another board that was opened with the same number.
    ///
    /// The write stores words of the loan's slot alone, which no subscriber holds (`unheld`); other loans keep their values (`others`) and
    /// user headers (`headers`).
    ///
    /// Ported from `iceoryx2::sample_mut_uninit::SampleMutUninit::write_payload` and `iceoryx2::sample_mut::SampleMut::user_header_mut`.
    /// Example: `publisher.write(&loan, &reading, &())?;`
    pub fn write(&mut self, loan: &Loan<T, U>, value: &T, user_header: &U) -> Result<(), WriteError>
        ensures same { StaysTheSame self.old self.new }
        ensures written { OnOk result ((is_mine self.old loan.now ≡ true) × Writes self.old.port.own loan.now.slot (T.parts value.now)
            (middle_parts self.old.port.own.lane.last (U.parts user_header.now)) self.new.port.own true) }
        ensures payload { OnOk result (KnowsPayload self.new.port.own.port loan.now.slot (T.parts value.now)) }
        ensures header { OnOk result (kept_head loan.now.slot self.new.port.own.lane ≡ with_user_header
            (kept_head loan.now.slot self.old.port.own.lane) (middle_parts self.old.port.own.lane.last (U.parts user_header.now))) }
        ensures unheld { OnOk result (IsHeldByNone self.old.port.own.port loan.now.slot) }
        ensures others { OnOk result ((other : ℕ) → (loan.now.slot ≡ other → ⊥) → other < self.old.port.own.port.service.sizes.slots
            → KeepsPayload self.old.port.own.port self.new.port.own.port other) }
        ensures headers { OnOk result ((other : ℕ) → (loan.now.slot ≡ other → ⊥)
            → is_out (loan_of other self.old.port.own.lane.port.book) ≡ true → KeepsHead other self.old.port.own self.new.port.own) }
        ensures refused { IfErr result (λ error. (error ≡ why_unwritten self.old loan.now)
            × StaysPut self.old.port.own self.new.port.own) }
        ensures width { IfErr result (λ error. error ≡ WriteError.OtherWidth → write_fits self.old.port.own.lane loan.now.slot
            (T.parts value.now) (middle_parts self.old.port.own.lane.last (U.parts user_header.now)) ≡ false) }
    {
        if self.port.is_inside_call() {
            return Err(WriteError::InsideCall);
        }
        if !self.has(loan) {
            return Err(WriteError::NotMine);
        }
        if self.store(loan.slot(), value, user_header) {
            Ok(())
        } else {
            Err(WriteError::OtherWidth)
        }
    }

    // Writes into a slot. If messages have sequence numbers, the send of the slot sets the number.
    fn store(&mut self, slot: u64, value: &T, user_header: &U) -> bool
        ensures same { StaysTheSame self.old self.new }
        ensures call { Writes self.old.port.own slot (T.parts value.now)
            (middle_parts self.old.port.own.lane.last (U.parts user_header.now)) self.new.port.own result }
        ensures payload { result ≡ true → KnowsPayload self.new.port.own.port slot (T.parts value.now) }
        ensures header { result ≡ true → kept_head slot self.new.port.own.lane ≡ with_user_header
            (kept_head slot self.old.port.own.lane) (middle_parts self.old.port.own.lane.last (U.parts user_header.now)) }
        ensures others { result ≡ true → (other : ℕ) → (slot ≡ other → ⊥) → other < self.old.port.own.port.service.sizes.slots
            → KeepsPayload self.old.port.own.port self.new.port.own.port other }
        ensures headers { result ≡ true → (other : ℕ) → (slot ≡ other → ⊥)
            → is_out (loan_of other self.old.port.own.lane.port.book) ≡ true → KeepsHead other self.old.port.own self.new.port.own }
    {
        match self.port.last_sequence() {
            None => self.port.write_values(slot, value, user_header),
            Some(_) => {
                let header = WithSequence {
                    sequence: 0,
                    user_header: *user_header,
                };
                self.port.write_values(slot, value, &header)
            }
        }
    }
}

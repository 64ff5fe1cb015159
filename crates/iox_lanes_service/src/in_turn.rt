//! Lanes whose calls don't overlap, and which record, for proofs only, what is asked and answered.
ghost use Rattle.std.specs.Prelude.{ℕ, ◌≡◌, ◌+◌, ◌<◌, ◌∷◌, ◌++◌, [], ⊤, suc, true, false, length, drop};
ghost use Rattle.std.specs.Prelude.{None, Some, MatchBool, MatchOption, MatchResult, IfOk, IfSome, OnErr};
ghost use Rattle.iox_command.specs.NegotiateBase.DescribeBase.declared.message_type.MessageTypeDetails.{MessageTypeDetails};
ghost use Rattle.iox_command.specs.declared.command.Command.TheVariants as command;
ghost use Rattle.iox_command.specs.declared.reply.Reply.TheVariants as reply;
ghost use Rattle.iox_command.specs.declared.refusal.Refusal.TheVariants as refusal;
ghost use Rattle.iox_lanes_service.specs.InTurn.{BeginsTurns, IsUnanswered, turned};
ghost use Rattle.iox_machine.specs.Choices.{as_named};
ghost use Rattle.iox_lanes_service.specs.Turning.{lent_as, sent_as, taken_as};
ghost use Rattle.iox_machine.specs.Run.{Runs};
ghost use Rattle.iox_machine.specs.State.{State};
ghost use Rattle.iox_machine.specs.Table.{at, contains, removed};
ghost use Rattle.std.specs.Global.{Vec};
ghost use Rattle.std.specs.Vec.{vec_items};
ghost use Rattle.std.specs.Prelude.{List};

use crate::history::TurnHistory;
use crate::number::TurnNumber;
use crate::seen::Seen;
use crate::turn::{Turn, take_turn};
use iox_domain_values::{LoanError, ReceiveError, SendError};
use iox_lanes_base::calls::Receipt;
use iox_lanes_machine::{LaneMachine, LaneSizes};
use iox_lanes_parties::publisher::LoanAnswer;
use iox_lanes_parties::{Answer, Call, Party, SendAnswer};
use iox_queues_base::Words;
use std::alloc::{AllocError, Global};
use std::marker::Model;

/// A loan of lanes whose calls don't overlap, by its publisher's place and its slot. Its number, by which commands name it, exists for
/// proofs only.
///
/// Not in `iceoryx2`.
#[derive(Drop)]
pub struct TurnLoan {
    /// The place of its publisher.
    pub publisher: usize,
    /// Its slot.
    pub slot: u64,
    /// The number by which commands name it.
    pub number: TurnNumber,
}

/// A sample of lanes whose calls don't overlap, by its subscriber's place and its slot. Its number, by which commands name it, exists for
/// proofs only.
///
/// Not in `iceoryx2`.
#[derive(Drop)]
pub struct TurnSample {
    /// The place of its subscriber.
    pub subscriber: usize,
    /// Its slot.
    pub slot: u64,
    /// The number by which commands name it.
    pub number: TurnNumber,
}

/// What ran out within a call.
///
/// Not in `iceoryx2`.
#[derive(Clone, Copy, Debug, PartialEq, Eq)]
pub enum RanOut {
    /// A step found no memory for what it records.
    Memory,
    /// The call made this many steps, and isn't over.
    Steps(u64),
    /// The call is over, and this many steps were made in all.
    Moments(u64),
}

/// Lanes that make one whole call after the other. Proofs know what was asked, as commands, and the answers.
///
/// Each method says which command its call is, and how the command is answered. If the call doesn't fit, or if memory or steps ran out
/// within it, the method returns None or false, and no command is recorded. Once memory or steps ran out, the lanes are stuck: no further
/// call is made. Memory runs out if a step finds none for what it records. Steps run out if a call made 2^62 steps and isn't over, or if
/// more than 2^63 were made in all. This can happen only if the calls that were answered, and one more, may make 2^61 steps: for P
/// publishers and S subscribers, if B messages may wait and R samples be borrowed, a call makes at most 4 · S · (B + R + 3) + 8 · P + 7
/// steps, and one more for each word of user header and payload.
///
/// `answers_as_machine` says that what was asked and answered is a run of the machine. Not in `iceoryx2`.
#[derive(Drop)]
pub struct LanesInTurn {
    lanes: LaneMachine,
    // What ran out within a call, if anything; then no further call is made.
    ran_out: Option<RanOut>,
    history: TurnHistory,
}

impl Model for LanesInTurn {
    ghost use Rattle.iox_lanes_service.specs.InTurn.{Turns};
    ghost use Rattle.iox_lanes_service.specs.Turning.{AreTurns};

    ghost Value = { Turns };

    ghost view = { λ it. it.history.turns };

    ghost invariant = { λ it. AreTurns it.ran_out it.history.turns it.lanes };
}

impl LanesInTurn {
    /// Lanes of these sizes, of which nothing was asked. `AllocError` is returned where an allocation fails, as it does for 2^61
    /// subscribers, a maximum of 2^61 waiting messages or borrowed samples, and 2^64 slots.
    ///
    /// Example: `let mut lanes = LanesInTurn::new(alloc, sizes)?;`
    pub fn new(alloc: Global, sizes: LaneSizes) -> Result<LanesInTurn, AllocError>
        requires { 0 < sizes.buffer }
        ensures begun { IfOk result (λ lanes. lanes ≡ record {
          sizes = sizes;
          asked = [];
          answers = [];
          loans = 0;
          samples = 0;
          lent = [];
          held = [];
          written = [];
          stuck = false;
          ran_out = None;
        }) }
    {
        if sizes.buffer >= 1 << 61
            || sizes.most_borrowed >= 1 << 61
            || sizes.subscribers >= 1 << 61
        {
            return Err(AllocError);
        }
        if sizes.publishers.checked_mul(sizes.slots).is_none() {
            return Err(AllocError);
        }
        Ok(LanesInTurn {
            lanes: LaneMachine::new(alloc, sizes)?,
            ran_out: None,
            history: TurnHistory::told(&sizes, &(), &()),
        })
    }

    /// Theorem, by a method that does nothing: what was asked and answered is a run of the machine, from a state in which it has one
    /// service, where as many ports were created as these lanes have, and nothing was loaned or sent.
    ///
    /// Example: `lanes.answers_as_machine();`
    pub fn answers_as_machine(&self)
        ensures answers { (types : MessageTypeDetails) (buffer : ℕ) (state : State (List ℕ)) → BeginsTurns self.now.sizes state
            → (after : State (List ℕ)) × Runs types (as_named (λ words. ⊤)) buffer self.now.asked state self.now.answers after }
    {
        let _ = &self.lanes;
    }

    /// What ran out, if the lanes are stuck.
    ///
    /// Example: `let why = lanes.ran_out();`
    pub fn ran_out(&self) -> Option<RanOut>
        ensures { result ≡ self.now.ran_out }
    {
        self.ran_out
    }

    /// The publisher at this place loans a slot for one value, which is the command `LoanUninit`. It fits if the sizes have a publisher at
    /// this place.
    ///
    /// Returns `ExceedsMaxLoans` if the publisher has as many loans as its loan limit allows, and `OutOfMemory` if each slot is in use.
    ///
    /// Example: `let loan = lanes.loan(0)?;`
    pub fn loan(&mut self, publisher: usize) -> Option<Result<TurnLoan, LoanError>>
        ensures lent { MatchOption result (IsUnanswered (publisher < self.old.sizes.publishers) self.old self.new)
            (λ answer. MatchResult answer
            (λ loan. self.new ≡ record (turned (command.LoanUninit (suc publisher) 1) (reply.LoanMade (self.old.loans + 1)) self.old) {
              loans = self.old.loans + 1;
              lent = self.old.lent ++ (self.old.loans + 1, record { publisher = publisher; slot = loan.slot }) ∷ [];
            })
            (λ why. self.new ≡ turned (command.LoanUninit (suc publisher) 1) (reply.Refused (refusal.Loan why)) self.old)) }
        ensures number { MatchOption result (Unit {0}) (λ answer. IfOk answer (λ loan. (loan.publisher ≡ publisher)
            × (loan.number.value ≡ self.old.loans + 1)
            × (at loan.number.value self.new.lent ≡ Some (record { publisher = publisher; slot = loan.slot })))) }
        ensures stuck { self.old.stuck ≡ true → result ≡ None }
    {
        if self.ran_out.is_some() {
            return None;
        }
        match take_turn(
            &mut self.lanes,
            Party::Publisher(publisher),
            Call::LoanUninit,
        ) {
            Turn::NotBegun => None,
            Turn::Ended(answer) => {
                let Answer::Lent(given) = answer else {
                    unreachable!()
                };
                let number = TurnNumber::given(&self.history);
                self.history = TurnHistory::told(&self.history, &publisher, &given);
                Some(lent_as(publisher, given, number))
            }
            Turn::Stuck(why) => {
                self.ran_out = Some(why);
                self.history = self.history.stopped(why);
                None
            }
        }
    }

    /// A loan's publisher writes these words of payload into it, and keeps these words of the user header for its send, which is the
    /// command `Fill`. Returns whether it did. It fits if the numbers of words are those of the lanes' sizes.
    ///
    /// Example: `let is_written = lanes.write(&loan, payload, user_header);`
    pub fn write(&mut self, loan: &TurnLoan, payload: Vec<u64>, user_header: Vec<u64>) -> bool
        requires { at loan.now.number.value self.old.lent ≡ Some (record { publisher = loan.now.publisher; slot = loan.now.slot }) }
        ensures written { MatchBool result
            (self.new ≡ record (turned (command.Fill loan.now.number.value (payload.items ∷ [])) reply.Done self.old) {
              written = loan.now.number.value ∷ self.old.written;
            })
            (IsUnanswered ((length payload.items ≡ self.old.sizes.payload_words)
            × (length user_header.items ≡ self.old.sizes.user_header_words)) self.old self.new) }
        ensures stuck { self.old.stuck ≡ true → result ≡ false }
    {
        if self.ran_out.is_some() {
            return false;
        }
        let history = TurnHistory::told(&self.history, &loan.number, &payload);
        match take_turn(
            &mut self.lanes,
            Party::Publisher(loan.publisher),
            Call::Write {
                loan: loan.slot,
                payload,
                user_header,
            },
        ) {
            Turn::NotBegun => false,
            Turn::Ended(answer) => {
                let Answer::Written = answer else {
                    unreachable!()
                };
                self.history = history;
                true
            }
            Turn::Stuck(why) => {
                self.ran_out = Some(why);
                self.history = self.history.stopped(why);
                false
            }
        }
    }

    /// A loan's publisher writes this value into it, and keeps this user header for its send: does what `write` does with the words of
    /// both. `AllocError` is returned where an allocation fails, and then nothing changes.
    ///
    /// Example: `let is_written = lanes.write_values(alloc, &loan, &value, &user_header)?;`
    pub fn write_values<T: Words, U: Words>(
        &mut self,
        alloc: Global,
        loan: &TurnLoan,
        value: &T,
        user_header: &U,
    ) -> Result<bool, AllocError>
        requires { at loan.now.number.value self.old.lent ≡ Some (record { publisher = loan.now.publisher; slot = loan.now.slot }) }
        ensures written { IfOk result (λ done. MatchBool done
            (self.new ≡ record (turned (command.Fill loan.now.number.value (T.parts value.now ∷ [])) reply.Done self.old) {
              written = loan.now.number.value ∷ self.old.written;
            })
            (IsUnanswered ((T.WORDS ≡ self.old.sizes.payload_words)
            × (U.WORDS ≡ self.old.sizes.user_header_words)) self.old self.new)) }
        ensures stuck { IfOk result (λ done. self.old.stuck ≡ true → done ≡ false) }
        ensures same { OnErr result (self.new ≡ self.old) }
    {
        let write = Call::write(alloc, loan.slot, value, user_header)?;
        let Call::Write {
            payload,
            user_header,
            ..
        } = write
        else {
            unreachable!()
        };
        Ok(self.write(loan, payload, user_header))
    }

    /// A loan is sent, which is the command `Send`, and has no number after that. It fits if the loan was written. Returns how many
    /// mailboxes took the message.
    ///
    /// Returns `UnableToDeliver` if the publisher's sends fail at full mailboxes, and a full mailbox refused the message.
    ///
    /// Example: `let taken = lanes.send(&loan)?;`
    pub fn send(&mut self, loan: &TurnLoan) -> Option<Result<u64, SendError>>
        requires { at loan.now.number.value self.old.lent ≡ Some (record { publisher = loan.now.publisher; slot = loan.now.slot }) }
        ensures sent { MatchOption result (IsUnanswered (contains self.old.written loan.now.number.value ≡ true) self.old self.new)
            (λ answer. MatchResult answer
            (λ taken. self.new ≡ record (turned (command.Send loan.now.number.value) (reply.Delivered taken) self.old) {
              lent = removed loan.now.number.value self.old.lent;
            })
            (λ why. self.new ≡ record (turned (command.Send loan.now.number.value) (reply.Refused (refusal.Send why)) self.old) {
              lent = removed loan.now.number.value self.old.lent;
            })) }
        ensures stuck { self.old.stuck ≡ true → result ≡ None }
    {
        if self.ran_out.is_some() {
            return None;
        }
        match take_turn(
            &mut self.lanes,
            Party::Publisher(loan.publisher),
            Call::Send { loan: loan.slot },
        ) {
            Turn::NotBegun => None,
            Turn::Ended(answer) => {
                let Answer::Sent(given) = answer else {
                    unreachable!()
                };
                self.history = TurnHistory::told(&self.history, &loan.number, &given);
                Some(sent_as(given))
            }
            Turn::Stuck(why) => {
                self.ran_out = Some(why);
                self.history = self.history.stopped(why);
                None
            }
        }
    }

    /// Drops a loan: the command `Drop`. Returns whether it was dropped; then the loan has no number any more. The call always fits,
    /// so it is false only if memory or steps ran out.
    ///
    /// Example: `let is_dropped = lanes.drop_loan(&loan);`
    pub fn drop_loan(&mut self, loan: &TurnLoan) -> bool
        requires { at loan.now.number.value self.old.lent ≡ Some (record { publisher = loan.now.publisher; slot = loan.now.slot }) }
        ensures dropped { MatchBool result
            (self.new ≡ record (turned (command.Drop loan.now.number.value) reply.Done self.old) {
              lent = removed loan.now.number.value self.old.lent;
            })
            (IsUnanswered ⊤ self.old self.new) }
        ensures stuck { self.old.stuck ≡ true → result ≡ false }
    {
        if self.ran_out.is_some() {
            return false;
        }
        match take_turn(
            &mut self.lanes,
            Party::Publisher(loan.publisher),
            Call::DropLoan { loan: loan.slot },
        ) {
            Turn::NotBegun => false,
            Turn::Ended(answer) => {
                let Answer::Dropped = answer else {
                    unreachable!()
                };
                self.history = TurnHistory::told(&self.history, &loan.number, &());
                true
            }
            Turn::Stuck(why) => {
                self.ran_out = Some(why);
                self.history = self.history.stopped(why);
                false
            }
        }
    }

    /// The subscriber at this place receives, which is the command `Receive`. It fits if the sizes have a subscriber at this place. Returns
    /// the sample, or `Ok(None)` if no message waits.
    ///
    /// Returns `ExceedsMaxBorrows` if messages wait only at connections from which the subscriber has borrowed its maximum of samples.
    ///
    /// Example: `let sample = lanes.receive(0)?;`
    pub fn receive(&mut self, subscriber: usize) -> Option<Result<Option<TurnSample>, ReceiveError>>
        ensures received { MatchOption result (IsUnanswered (subscriber < self.old.sizes.subscribers) self.old self.new)
            (λ answer. MatchResult answer
            (λ came. MatchOption came (self.new ≡ turned (command.Receive (suc subscriber)) reply.NothingWaits self.old)
            (λ sample. (publisher : ℕ) × (values : Vec (List ℕ))
            × (self.new ≡ record (turned (command.Receive (suc subscriber)) (reply.Received (self.old.samples + 1) values) self.old) {
              samples = self.old.samples + 1;
              held = self.old.held
                  ++ (self.old.samples + 1, record { publisher = publisher; subscriber = subscriber; slot = sample.slot }) ∷ [];
            })))
            (λ why. self.new ≡ turned (command.Receive (suc subscriber)) (reply.Refused (refusal.Receive why)) self.old)) }
        ensures number { MatchOption result (Unit {0}) (λ answer. IfOk answer (λ came. IfSome came (λ sample.
            (sample.subscriber ≡ subscriber) × (sample.number.value ≡ self.old.samples + 1)
            × ((publisher : ℕ) × (at sample.number.value self.new.held
            ≡ Some (record { publisher = publisher; subscriber = subscriber; slot = sample.slot })))))) }
        ensures stuck { self.old.stuck ≡ true → result ≡ None }
    {
        if self.ran_out.is_some() {
            return None;
        }
        let seen = Seen::of(&self.lanes);
        match take_turn(
            &mut self.lanes,
            Party::Subscriber(subscriber),
            Call::Receive,
        ) {
            Turn::NotBegun => None,
            Turn::Ended(answer) => {
                let Answer::Received(given) = answer else {
                    unreachable!()
                };
                let number = TurnNumber::given(&self.history);
                self.history = TurnHistory::told(&self.history, &seen, &(subscriber, given));
                Some(taken_as(subscriber, given, number))
            }
            Turn::Stuck(why) => {
                self.ran_out = Some(why);
                self.history = self.history.stopped(why);
                None
            }
        }
    }

    /// A sample is read, which is the command `Read`. Returns the words of its payload, or `AllocError` if there is no memory for them. It
    /// always fits.
    ///
    /// Example: `let words = lanes.read(alloc, &sample)?;`
    pub fn read(
        &mut self,
        alloc: Global,
        sample: &TurnSample,
    ) -> Option<Result<Vec<u64>, AllocError>>
        requires { (publisher : ℕ) × (at sample.now.number.value self.old.held
            ≡ Some (record { publisher = publisher; subscriber = sample.now.subscriber; slot = sample.now.slot })) }
        ensures read { MatchOption result (IsUnanswered ⊤ self.old self.new) (λ answer. (values : Vec (List ℕ))
            × (self.new ≡ turned (command.Read sample.now.number.value) (reply.Values values) self.old)
            × IfOk answer (λ words. vec_items values ≡ words.items ∷ [])) }
        ensures stuck { self.old.stuck ≡ true → result ≡ None }
    {
        if self.ran_out.is_some() {
            return None;
        }
        match take_turn(
            &mut self.lanes,
            Party::Subscriber(sample.subscriber),
            Call::Read {
                sample: sample.slot,
            },
        ) {
            Turn::NotBegun => None,
            Turn::Ended(answer) => {
                let Answer::Read { from } = answer else {
                    unreachable!()
                };
                let words = payload_read(&self.lanes, from);
                let copied = Vec::from_slice(alloc, words);
                self.history = TurnHistory::told(&self.history, &sample.number, &words);
                Some(copied)
            }
            Turn::Stuck(why) => {
                self.ran_out = Some(why);
                self.history = self.history.stopped(why);
                None
            }
        }
    }

    /// A sample is released, which is the command `Release`, and has no number after that. Returns whether it was released. It always fits.
    ///
    /// Example: `let is_released = lanes.release(&sample);`
    pub fn release(&mut self, sample: &TurnSample) -> bool
        requires { (publisher : ℕ) × (at sample.now.number.value self.old.held
            ≡ Some (record { publisher = publisher; subscriber = sample.now.subscriber; slot = sample.now.slot })) }
        ensures released { MatchBool result
            (self.new ≡ record (turned (command.Release sample.now.number.value) reply.Done self.old) {
              held = removed sample.now.number.value self.old.held;
            })
            (IsUnanswered ⊤ self.old self.new) }
        ensures stuck { self.old.stuck ≡ true → result ≡ false }
    {
        if self.ran_out.is_some() {
            return false;
        }
        match take_turn(
            &mut self.lanes,
            Party::Subscriber(sample.subscriber),
            Call::Release {
                sample: sample.slot,
            },
        ) {
            Turn::NotBegun => false,
            Turn::Ended(answer) => {
                let Answer::Released(_) = answer else {
                    unreachable!()
                };
                self.history = TurnHistory::told(&self.history, &sample.number, &());
                true
            }
            Turn::Stuck(why) => {
                self.ran_out = Some(why);
                self.history = self.history.stopped(why);
                false
            }
        }
    }
}

// The loan of the publisher at this place, with this number, or the error.
fn lent_as(publisher: usize, given: LoanAnswer, number: TurnNumber) -> Result<TurnLoan, LoanError>
    ensures { result ≡ lent_as publisher given number }
{
    match given {
        LoanAnswer::Slot(slot) => Ok(TurnLoan {
            publisher,
            slot,
            number,
        }),
        LoanAnswer::ExceedsMaxLoans => Err(LoanError::ExceedsMaxLoans),
        LoanAnswer::OutOfMemory => Err(LoanError::OutOfMemory),
    }
}

// The result of a send, by the lane's answer.
fn sent_as(given: SendAnswer) -> Result<u64, SendError>
    ensures { result ≡ sent_as given }
{
    match given {
        SendAnswer::Delivered(delivery) => Ok(delivery.taken),
        SendAnswer::UnableToDeliver(_) => Err(SendError::UnableToDeliver),
    }
}

// The sample that the subscriber at this place received, with this number; none if it received nothing; or the error.
fn taken_as(
    subscriber: usize,
    given: Receipt,
    number: TurnNumber,
) -> Result<Option<TurnSample>, ReceiveError>
    ensures { result ≡ taken_as subscriber given number }
{
    match given {
        Receipt::Taken { slot, .. } => Ok(Some(TurnSample {
            subscriber,
            slot,
            number,
        })),
        Receipt::Nothing => Ok(None),
        Receipt::ExceedsMaxBorrows => Err(ReceiveError::ExceedsMaxBorrows),
    }
}

// The words after the first `count`.
fn behind(words: &[u64], count: usize) -> &[u64]
    ensures { result.now ≡ drop count words.now }
{
    match words.get(count..) {
        Some(rest) => rest,
        None => &[],
    }
}

// The words of the payload that a read returned, after header and user header.
fn payload_read(lanes: &LaneMachine, from: usize) -> &[u64]
    ensures { result.now ≡ drop lanes.now.table.sizes.user_header_words (drop 3 (drop from lanes.now.read)) }
{
    let words = behind(lanes.words_read(), from);
    behind(
        behind(words, 3),
        lanes.table().sizes().user_header_words as usize,
    )
}

//! A publisher sends.
ghost use Rattle.std.specs.Prelude.{◌≡◌, ◌≢◌, ℕ, ◌+◌, ◌-◌, ◌<◌, ◌≤◌, ◌^◌, Ok, Err, length, get_or, is_some, true, false, None, Some};
ghost use Rattle.std.specs.Prelude.{if◌then◌else◌};
ghost use Rattle.iox_domain_values.specs.Sequences.{next_sequence, is_used_up};
ghost use Rattle.iox_domain_values.specs.declared.degradation.DegradationCause.TheVariants as cause;
ghost use Rattle.iox_domain_ports.specs.MessagesSending.{has_loan, is_written_loan, loan_at, place_in};
ghost use Rattle.iox_domain_ports.specs.declared.meeting.Meeting.TheVariants as meeting;
ghost use Rattle.iox_domain_ports.specs.declared.meeting.Sent.TheVariants as sent;
ghost use Rattle.iox_domain_ports.specs.PublisherLaws.{live_ties, ReachesAll};
ghost use Rattle.iox_domain_ports.specs.Memory.{HasRoom};
ghost use Rattle.iox_domain_values.specs.declared.connection_failure.ConnectionFailure.{ConnectionFailure};
ghost use Rattle.iox_domain_values.specs.declared.port_error.SendError.TheVariants as sending;
ghost use Rattle.iox_domain_ports.specs.Progress.{start, passed, counted, failing, tried_again};
ghost use Rattle.iox_domain_ports.specs.Sending.{meeting_of, meeting_at, put_at, met, with_progress, info_of, goes_on_by, decided_by};
ghost use Rattle.iox_domain_ports.specs.Sending.{sent_answer, concluded, ready_loan, begun_at, dropped_at, Sends, Steps, Delivers};
ghost use Rattle.iox_domain_ports.specs.Sending.{Finishes};

use crate::meeting::{Meeting, Sent};
use crate::messages::Member;
use crate::progress::Progress;
use crate::publisher_port::PublisherPort;
use crate::subscriber_entry::SubscriberEntry;
use iox_domain_values::{BackpressureDecision, BackpressureInfo, Decides, Degrades, SendError};
use std::alloc::Global;

// The sequence number after the last one; None if messages aren't numbered.
fn next_sequence(last: Option<u64>) -> Option<u64>
    requires { is_used_up last ≡ false }
    ensures { result ≡ next_sequence last }
{
    match last {
        Some(number) => Some(number + 1),
        None => None,
    }
}

// Whether the sequence numbers are used up, because the last one is 2^64 - 1.
fn is_used_up(last: Option<u64>) -> bool
    ensures { result ≡ is_used_up last }
{
    last == Some(u64::MAX)
}

impl<T: Copy, U: Copy> PublisherPort<T, U> {
    // Puts the message that is being sent into the mailbox to which the next place is tied.
    fn meet(&mut self) -> Meeting
        ensures meeting { result ≡ meeting_at self.old.progress.place self.old }
        ensures after { self.new ≡ met self.old.progress.place self.old }
        ensures room { result ≢ meeting.Over → self.new.progress.place + 1 < 2 ^ 64 }
    {
        let place = self.progress.place();
        if place >= self.ties.len() {
            return Meeting::Over;
        }
        let Some(index) = self.ties.get(place) else {
            return Meeting::Passed;
        };
        self.put(index)
    }

    // Puts the message that is being sent into a mailbox.
    fn put(&mut self, index: usize) -> Meeting
        ensures meeting { result ≡ meeting_of index self.old }
        ensures after { self.new ≡ put_at index self.old }
        ensures met { result ≢ meeting.Over }
        ensures same { self.new.progress ≡ self.old.progress }
    {
        if !self.is_live(index) || !self.sender.is_sending() {
            return Meeting::Passed;
        }
        if self.sender.offer(index) {
            return Meeting::Delivered;
        }
        self.readers.asked_at(index)
    }

    // What the handler is given about a full mailbox.
    fn info(&self, subscriber: u64) -> BackpressureInfo
        ensures { result ≡ info_of subscriber self.now }
    {
        BackpressureInfo {
            service_id: self.service,
            sender_port_id: self.number,
            receiver_port_id: subscriber,
            retries: self.progress.retries(),
            elapsed_time: self.progress.elapsed(),
        }
    }

    // Skips a full mailbox or stays at it, as the decision says; answers whether the send continues at the next place.
    fn decide(&mut self, decision: BackpressureDecision) -> bool
        requires { self.old.progress.place + 1 < 2 ^ 64 }
        ensures went { result ≡ goes_on_by decision }
        ensures after { self.new ≡ decided_by decision self.old }
    {
        match decision {
            BackpressureDecision::Retry => false,
            BackpressureDecision::DiscardData => {
                self.progress.pass();
                true
            }
            BackpressureDecision::DiscardDataAndFail => {
                self.progress.fail();
                true
            }
        }
    }

    // Does one place and continues at the next; answers false if the send is blocked at a full mailbox, and if no place is left.
    fn step<B: Decides>(&mut self, handlers: &B) -> bool
        ensures { Steps (B.decides handlers.now) (meeting_at self.old.progress.place self.old) (met self.old.progress.place self.old)
            result self.new }
    {
        match self.meet() {
            Meeting::Over => false,
            Meeting::Passed => {
                self.progress.pass();
                true
            }
            Meeting::Delivered => {
                self.progress.count();
                true
            }
            Meeting::Full(subscriber) => {
                let info = self.info(subscriber);
                let decision = handlers.decide(&info);
                self.decide(decision)
            }
        }
    }

    // Visits the remaining places, up to one where the send is blocked; answers whether it visited all of them.
    fn go_on<B: Decides>(&mut self, handlers: &B) -> bool
        ensures { Delivers (B.decides handlers.now) (length self.old.ties.items - self.old.progress.place) self.old result self.new }
    {
        let count = self.ties.len();
        for place in self.progress.place()..count {
            if self.ties.top() <= place {
                self.progress.pass_all(count - place);
                return true;
            }
            if !self.step(handlers) {
                return false;
            }
        }
        true
    }

    // Answers for a send that has visited all places, or is blocked. Once it has visited all of them, its message stays in use only
    // where the history or a connection has it.
    fn conclude(&mut self, arrived: bool) -> Result<Sent, SendError>
        ensures answer { result ≡ sent_answer arrived self.old.progress }
        ensures after { self.new ≡ concluded arrived self.old }
    {
        if !arrived {
            return Ok(Sent::Blocked);
        }
        self.sender.finish_send();
        if self.progress.fails() {
            return Err(SendError::UnableToDeliver);
        }
        Ok(Sent::Delivered(self.progress.delivered()))
    }

    // Continues the send that is in progress.
    fn deliver<B: Decides>(&mut self, handlers: &B) -> Result<Sent, SendError>
        ensures sends { Finishes (B.decides handlers.now) self.old result self.new }
        ensures all { self.old.sender.uses.overflows ≡ true → is_some self.old.sender.uses.sending ≡ true → self.old.progress ≡ start
            → result ≡ Ok (sent.Delivered (live_ties self.new)) }
    {
        let arrived = self.go_on(handlers);
        self.conclude(arrived)
    }

    /// Tries once more the place at which the send is blocked, and continues; answers as `send` does. `elapsed` is the number of
    /// nanoseconds since this mailbox was first found full, as the caller measured it.
    ///
    /// Not in `iceoryx2`: `iceoryx2::port::publisher::Publisher::send` blocks its caller.
    pub fn retry<B: Decides>(&mut self, elapsed: u64, handlers: &B) -> Result<Sent, SendError>
        ensures { Finishes (B.decides handlers.now) (with_progress (tried_again elapsed self.old.progress) self.old) result self.new }
    {
        self.try_again(elapsed);
        self.deliver(handlers)
    }

    // Counts one more try at the place at which the send is blocked.
    fn try_again(&mut self, elapsed: u64)
        ensures { self.new ≡ with_progress (tried_again elapsed self.old.progress) self.old }
    {
        self.progress.try_again(elapsed);
    }

    /// Gives up the blocked send, and answers how many connections took the message.
    pub fn give_up(&mut self) -> usize
        ensures answer { result ≡ self.old.progress.delivered }
        ensures after { self.new ≡ concluded true self.old }
    {
        self.sender.finish_send();
        self.progress.delivered()
    }

    // Whether the loan in this slot may be sent: it is completely written, and nothing is being sent.
    fn is_ready(&self, slot: usize) -> bool
        ensures ready { ready_loan slot self.now ≡ (if result then Some (place_in slot self.now.sender.uses) else None) }
        ensures loan { result ≡ true → has_loan slot self.now.sender.uses ≡ true }
        ensures alone { result ≡ true → self.now.sender.uses.sending ≡ None }
        ensures written { result ≡ true → is_written_loan (loan_at slot self.now.sender.uses) ≡ true }
    {
        !self.sender.is_sending() && self.sender.is_written(slot)
    }

    // Begins the send of the written loan in this slot: its message gets the next sequence number.
    fn begin(&mut self, slot: usize)
        requires left { is_used_up self.old.last_sequence ≡ false }
        requires alone { self.old.sender.uses.sending ≡ None }
        requires written { is_written_loan (loan_at slot self.old.sender.uses) ≡ true }
        ensures begun { self.new ≡ begun_at (place_in slot self.old.sender.uses) self.old }
        ensures under_way { is_some self.new.sender.uses.sending ≡ true }
        ensures first { self.new.progress ≡ start }
        ensures kind { self.new.sender.uses.overflows ≡ self.old.sender.uses.overflows }
    {
        self.last_sequence = next_sequence(self.last_sequence);
        self.sender.begin_send(slot, self.last_sequence);
        self.progress = Progress::start();
    }

    // Drops the loan in this slot.
    fn drop_loan(&mut self, slot: usize)
        requires { has_loan slot self.old.sender.uses ≡ true }
        ensures { self.new ≡ dropped_at (place_in slot self.old.sender.uses) self.old }
    {
        self.sender.drop_loan(slot);
    }

    /// Follows the list of subscribers, and then sends the written loan in this slot to each live connection, in the order of
    /// the list. The message is no loan any longer, and the newest of the history. It has the next sequence number if messages
    /// are numbered. With safe overflow a full mailbox drops its oldest message. Without it the send skips a full mailbox from
    /// which no subscriber reads; at another one the handlers decide, and the send may block. The call answers None, and nothing
    /// happens, if no written loan is in the slot or another send is blocked.
    ///
    /// The call fails with `ConnectionBrokenSinceSenderNoLongerExists` if the publisher is closed, with `InternalError` if its
    /// last sequence number is 2^64 - 1, and with `ConnectionError` if following the list fails; then the loan is dropped, and
    /// nothing is sent. Following never fails if all connections exist already and their places are within the capacity
    /// (`HasRoom`). The call fails with `UnableToDeliver` if a handler decided so; what was delivered stays delivered, and the
    /// sequence number is used.
    ///
    /// Ported from `iceoryx2::port::publisher::Publisher::send`.
    pub fn send<B: Decides + Degrades>(
        &mut self,
        alloc: Global,
        slot: usize,
        listed: &[Option<Member<SubscriberEntry>>],
        changes: u64,
        handlers: &B,
    ) -> Option<Result<Sent, SendError>>
        ensures sends { Sends (B.degrades handlers.now cause.FailedToEstablishConnection) (B.decides handlers.now) listed.now changes
            (ready_loan slot self.old) self.old result self.new }
        ensures all { self.old.sender.uses.overflows ≡ true → ReachesAll result self.new }
        ensures enough { HasRoom listed.now self.old → (failure : ConnectionFailure)
            → result ≢ Some (Err (sending.ConnectionError failure)) }
    {
        if !self.is_ready(slot) {
            return None;
        }
        if !self.stands {
            self.drop_loan(slot);
            return Some(Err(SendError::ConnectionBrokenSinceSenderNoLongerExists));
        }
        if is_used_up(self.last_sequence) {
            self.drop_loan(slot);
            return Some(Err(SendError::InternalError));
        }
        if let Err(failure) = self.update(alloc, listed, changes, handlers) {
            self.drop_loan(slot);
            return Some(Err(SendError::ConnectionError(failure)));
        }
        self.begin(slot);
        Some(self.deliver(handlers))
    }
}

//! One publisher with its messages.
ghost use Rattle.std.specs.Prelude.{◌≡◌, ℕ, ◌+◌, ◌<◌, ◌≤◌, length, get_or, set, map, is_some, option_copied, slice_get, nat_lt};
ghost use Rattle.std.specs.Prelude.{if◌then◌else◌, IfNone, IfSome};
ghost use Rattle.std.specs.Prelude.{IsSome, IfOk, OnErr, ◌-◌, ◌^◌, ◌++◌, ◌∷◌, [], true, false, None, Some, replicate};
ghost use Rattle.iox_domain_slots.specs.declared.stage.Stage.TheVariants as stage;
ghost use Rattle.iox_domain_slots.specs.Uses.{Uses, nobody, placed, connected, is_there, worst_case, accepts, offered, taken, given_back};
ghost use Rattle.iox_domain_slots.specs.Uses.{ended, emptied, newest, welcomed, dropped, begun, finished, connection_at, with_connection};
ghost use Rattle.iox_domain_slots.specs.Uses.{in_use, segment_opened};
ghost use Rattle.iox_domain_slots.specs.Counting.{times};
ghost use Rattle.std.specs.Borrow.{sem};
ghost use Rattle.iox_domain_ports.specs.Payloads.{first_slots};
ghost use Rattle.iox_domain_ports.specs.Messages.{Message, Loan, write_value, write_all, write_user_header, written_of, sent_as};
ghost use Rattle.iox_domain_ports.specs.MessagesSending.{SenderState, LoanMade, slots_of, with_uses, change_loan, has_loan, has_place};
ghost use Rattle.iox_domain_ports.specs.MessagesSending.{has_value, has_length, is_written_loan, loan_at, place_in, opened_for};
ghost use Rattle.iox_domain_ports.specs.MessagesSending.{StandsAlone, has_borrowed, borrowed_place};

use crate::messages::marks::Marks;
use crate::messages::payloads::Payloads;
use crate::messages::rows::Rows;
use crate::messages::sender_config::SenderConfig;
use crate::messages::slot_header::SlotHeader;
use iox_domain_slots::link::Link;
use iox_domain_slots::{SlotUses, Slots};
use std::alloc::{AllocError, Global};
use std::marker::Model;

/// One publisher: its loans, its history, the message that it sends, and what its connections hold, by their contents.
///
/// Ported from `iceoryx2::port::details::sender::Sender`.
#[derive(Drop)]
pub struct Sender<T, U> {
    uses: SlotUses,
    values: Payloads<T>,
    written: Marks,
    headers: Vec<SlotHeader<U>>,
    blank: SlotHeader<U>,
}

impl<T, U> Model for Sender<T, U> {
    ghost use Rattle.iox_domain_ports.specs.MessagesSending.{SenderState, IsSender, seen_sender};

    ghost Value = { SenderState T U };

    ghost view = { λ s. seen_sender (record { values = s.values; written = s.written; headers = s.headers.items; blank = s.blank })
        s.uses };

    ghost invariant = { λ s. IsSender (record { values = s.values; written = s.written; headers = s.headers.items; blank = s.blank })
        s.uses };
}

impl<T: Copy, U: Copy> Sender<T, U> {
    ghost use Rattle.iox_domain_ports.specs.SenderLends.{LendsValue, LendsUserHeader};

    /// A publisher with one segment of slots, of which none is in use. `blank` fills the slots, and a new loan has this user
    /// header. The call fails only if an allocation fails.
    pub fn new(
        alloc: Global,
        config: SenderConfig,
        blank: T,
        user_header: U,
    ) -> Result<Sender<T, U>, AllocError>
        requires loans { config.most_loans < 2 ^ 32 }
        requires history { config.history < 2 ^ 32 }
        requires waiting { config.most_waiting < 2 ^ 32 }
        requires borrowed { config.most_borrowed < 2 ^ 32 }
        requires segments { 0 < config.most_segments }
        ensures { IfOk result (λ made. made ≡ record {
          room = config.room;
          segments = 1;
          most_segments = config.most_segments;
          user_header = user_header;
          uses = record {
            first = 0;
            size = config.slots;
            most_loans = config.most_loans;
            kept = config.history;
            most_waiting = config.most_waiting;
            most_borrowed = config.most_borrowed;
            overflows = config.overflows;
            sending = None;
            loans = [];
            history = [];
            connections = [];
          };
        }) }
    {
        let values = first_values(alloc, config, blank)?;
        let written = first_marks(alloc, config)?;
        let blank = SlotHeader {
            elements: 0,
            user_header,
            sequence: None,
        };
        let headers = vec![in alloc; blank; config.slots]?;
        let uses = SlotUses::new(
            alloc,
            config.overflows,
            config.slots,
            config.most_loans,
            config.history,
            config.most_waiting,
            config.most_borrowed,
        )?;
        Ok(Sender {
            uses,
            values,
            written,
            headers,
            blank,
        })
    }

    /// Makes a loan of `values` values, of which none is written, and answers its slot; None if each slot of the current segment is
    /// in use. With at least as many slots in a segment as the worst case needs, and no send in progress, a slot is always found.
    pub fn loan(&mut self, values: usize, elements: u64) -> Option<usize>
        requires room { values ≤ self.old.room }
        requires loans { length self.old.uses.loans < self.old.uses.most_loans }
        ensures step { LoanMade self.old values elements result self.new }
        ensures enough { self.old.uses.sending ≡ None → worst_case self.old.uses ≤ self.old.uses.size → IsSome result }
    {
        let slot = self.uses.loan()?;
        self.values.set_length(slot, values);
        self.written.set_length(slot, values);
        self.written.fill(slot, false);
        self.headers[slot] = SlotHeader {
            elements,
            user_header: self.blank.user_header,
            sequence: None,
        };
        Some(slot)
    }

    /// Writes a value at this place of the loan in this slot.
    pub fn write(&mut self, slot: usize, place: usize, value: T)
        requires { has_place slot place self.old.uses ≡ true }
        ensures { self.new ≡ with_uses (change_loan slot (write_value place value) self.old.uses) self.old }
    {
        self.values.write(slot, place, value);
        self.written.write(slot, place, true);
    }

    /// Writes all values of the loan in this slot at once.
    pub fn write_from_slice(&mut self, slot: usize, values: &[T])
        requires { has_length slot (length values.now) self.old.uses ≡ true }
        ensures { self.new ≡ with_uses (change_loan slot (write_all values.now) self.old.uses) self.old }
    {
        self.values.copy(slot, values);
        self.written.fill(slot, true);
    }

    /// Writes the user header of the loan in this slot.
    pub fn write_user_header(&mut self, slot: usize, user_header: U)
        requires { has_loan slot self.old.uses ≡ true }
        ensures { self.new ≡ with_uses (change_loan slot (write_user_header user_header) self.old.uses) self.old }
    {
        self.headers[slot].user_header = user_header;
    }

    /// Whether a loan is in this slot and each of its values is written, which sending it requires.
    pub fn is_written(&self, slot: usize) -> bool
        ensures { result ≡ is_written_loan (loan_at slot self.now.uses) }
    {
        self.has_loan(slot) && self.written.are_all(slot)
    }

    /// Whether a loan is in this slot, which writing its user header requires.
    pub fn has_loan(&self, slot: usize) -> bool
        ensures { result ≡ has_loan slot self.now.uses }
    {
        self.uses.slots().has_loan(slot)
    }

    /// Whether a loan is in this slot and has this place, which writing there requires.
    pub fn has_place(&self, slot: usize, place: usize) -> bool
        ensures { result ≡ has_place slot place self.now.uses }
    {
        if !self.has_loan(slot) {
            return false;
        }
        place < self.values.values(slot).len()
    }

    /// Whether a loan of `count` values is in this slot, which writing all of them at once requires.
    pub fn has_length(&self, slot: usize, count: usize) -> bool
        ensures { result ≡ has_length slot count self.now.uses }
    {
        if !self.has_loan(slot) {
            return false;
        }
        count == self.values.values(slot).len()
    }

    /// The value at this place of the loan in this slot, if it is written.
    pub fn value(&self, slot: usize, place: usize) -> Option<&T>
        requires { has_place slot place self.now.uses ≡ true }
        ensures { (at : ℕ) (loan : Loan T U) → slice_get self.now.uses.loans at ≡ Some loan → loan.slot ≡ slot
            → option_copied result ≡ get_or loan.values place None }
    {
        if !self.written.is_marked(slot, place) {
            return None;
        }
        Some(&self.values.values(slot)[place])
    }

    /// Whether a loan is in this slot and its value at this place is written, which changing it there requires.
    pub fn has_value(&self, slot: usize, place: usize) -> bool
        ensures { result ≡ has_value slot place self.now.uses }
    {
        self.has_loan(slot) && self.written.is_marked(slot, place)
    }

    /// A mutable reference to the written value at this place of the loan in this slot.
    pub fn value_mut(&mut self, slot: usize, place: usize) -> &mut T
        requires { has_value slot place self.old.uses ≡ true }
        ensures* writes_back { sem 𝓛 (LendsValue T.row U.row self.entry slot place result) }
        ensures value { (at : ℕ) (loan : Loan T U) → slice_get self.old.uses.loans at ≡ Some loan → loan.slot ≡ slot
            → get_or loan.values place None ≡ Some result.now }
    {
        self.values.value_mut(slot, place)
    }

    /// How many elements the loan in this slot has.
    pub fn loan_elements(&self, slot: usize) -> u64
        requires { has_loan slot self.now.uses ≡ true }
        ensures { (at : ℕ) (loan : Loan T U) → slice_get self.now.uses.loans at ≡ Some loan → loan.slot ≡ slot → result ≡ loan.elements }
    {
        self.headers[slot].elements
    }

    /// The user header of the loan in this slot.
    pub fn loan_user_header(&self, slot: usize) -> &U
        requires { has_loan slot self.now.uses ≡ true }
        ensures { (at : ℕ) (loan : Loan T U) → slice_get self.now.uses.loans at ≡ Some loan → loan.slot ≡ slot
            → result.now ≡ loan.user_header }
    {
        &self.headers[slot].user_header
    }

    /// A mutable reference to the user header of the loan in this slot.
    pub fn user_header_mut(&mut self, slot: usize) -> &mut U
        requires { has_loan slot self.old.uses ≡ true }
        ensures* writes_back { sem 𝓛 (LendsUserHeader T.row U.row self.entry slot result) }
        ensures value { (at : ℕ) (loan : Loan T U) → slice_get self.old.uses.loans at ≡ Some loan → loan.slot ≡ slot
            → result.now ≡ loan.user_header }
    {
        let header = &mut self.headers[slot];
        &mut header.user_header
    }

    /// The values of the written loan in this slot.
    pub fn loan_values(&self, slot: usize) -> &[T]
        requires { is_written_loan (loan_at slot self.now.uses) ≡ true }
        ensures { (loan : Loan T U) → loan_at slot self.now.uses ≡ Some loan → result.now ≡ written_of loan.values }
    {
        self.values.values(slot)
    }

    /// Begins the send of the written loan in this slot, and gives its message this sequence number. The message is no loan any
    /// longer, stays in use until the send is finished, and is the newest of the history.
    pub fn begin_send(&mut self, slot: usize, sequence: Option<u64>)
        requires alone { self.old.uses.sending ≡ None }
        requires written { is_written_loan (loan_at slot self.old.uses) ≡ true }
        ensures { (loan : Loan T U) → loan_at slot self.old.uses ≡ Some loan
            → self.new ≡ with_uses (begun (place_in slot self.old.uses) (sent_as sequence loan) self.old.uses) self.old }
    {
        self.headers[slot].sequence = sequence;
        self.uses.begin_send(slot);
    }

    /// Begins to send this message in this slot of the current segment, whether the message is in use there or nothing is. The
    /// message is in use until the send is finished; this call puts it neither into the history nor into a connection.
    pub fn begin_again(
        &mut self,
        slot: usize,
        sequence: Option<u64>,
        elements: u64,
        user_header: U,
        values: &[T],
    )
        requires alone { self.old.uses.sending ≡ None }
        requires first { self.old.uses.first ≤ slot }
        requires within { slot < self.old.uses.first + self.old.uses.size }
        requires room { length values.now ≤ self.old.room }
        requires only { StandsAlone
            (record { slot = slot; sequence = sequence; elements = elements; user_header = user_header; values = values.now })
            self.old.uses }
        ensures { self.new ≡ with_uses (record self.old.uses {
          sending = Some
              (record { slot = slot; sequence = sequence; elements = elements; user_header = user_header; values = values.now });
        })
            self.old }
    {
        self.values.set_length(slot, values.len());
        self.values.copy(slot, values);
        self.written.set_length(slot, values.len());
        self.written.fill(slot, true);
        self.headers[slot] = SlotHeader {
            elements,
            user_header,
            sequence,
        };
        self.uses.begin_again(slot);
    }

    /// Makes the message that is being sent, if one is, the newest of the history. A history of `kept` messages drops its
    /// oldest.
    pub fn remember(&mut self)
        ensures sent { (message : Message T U) → self.old.uses.sending ≡ Some message →
            self.new ≡ with_uses (record self.old.uses { history = newest self.old.uses.kept (self.old.uses.history ++ message ∷ []) })
            self.old }
        ensures none { self.old.uses.sending ≡ None → self.new ≡ self.old }
    {
        self.uses.remember();
    }

    /// Whether the slot exists, which reading its message requires.
    pub fn has_slot(&self, slot: usize) -> bool
        ensures { result ≡ nat_lt slot (self.now.uses.first + self.now.uses.size) }
    {
        slot < self.headers.len()
    }

    /// The values of the message in this slot.
    pub fn payload(&self, slot: usize) -> &[T]
        requires { slot < self.now.uses.first + self.now.uses.size }
        ensures borrowed { (index at : ℕ) (message : Message T U)
            → slice_get (connection_at index self.now.uses).borrowed at ≡ Some message → message.slot ≡ slot → result.now ≡ message.values }
        ensures waiting { (index at : ℕ) (message : Message T U)
            → slice_get (connection_at index self.now.uses).waiting at ≡ Some message → message.slot ≡ slot → result.now ≡ message.values }
        ensures remembered { (at : ℕ) (message : Message T U) → slice_get self.now.uses.history at ≡ Some message → message.slot ≡ slot
            → result.now ≡ message.values }
    {
        self.values.values(slot)
    }

    /// How many elements the message in this slot has.
    pub fn elements(&self, slot: usize) -> u64
        requires { slot < self.now.uses.first + self.now.uses.size }
        ensures borrowed { (index at : ℕ) (message : Message T U)
            → slice_get (connection_at index self.now.uses).borrowed at ≡ Some message → message.slot ≡ slot → result ≡ message.elements }
        ensures waiting { (index at : ℕ) (message : Message T U)
            → slice_get (connection_at index self.now.uses).waiting at ≡ Some message → message.slot ≡ slot → result ≡ message.elements }
        ensures remembered { (at : ℕ) (message : Message T U) → slice_get self.now.uses.history at ≡ Some message → message.slot ≡ slot
            → result ≡ message.elements }
    {
        self.headers[slot].elements
    }

    /// The sequence number of the message in this slot.
    pub fn sequence(&self, slot: usize) -> Option<u64>
        requires { slot < self.now.uses.first + self.now.uses.size }
        ensures borrowed { (index at : ℕ) (message : Message T U)
            → slice_get (connection_at index self.now.uses).borrowed at ≡ Some message → message.slot ≡ slot → result ≡ message.sequence }
        ensures waiting { (index at : ℕ) (message : Message T U)
            → slice_get (connection_at index self.now.uses).waiting at ≡ Some message → message.slot ≡ slot → result ≡ message.sequence }
        ensures remembered { (at : ℕ) (message : Message T U) → slice_get self.now.uses.history at ≡ Some message → message.slot ≡ slot
            → result ≡ message.sequence }
    {
        self.headers[slot].sequence
    }

    /// The user header of the message in this slot.
    pub fn user_header(&self, slot: usize) -> &U
        requires { slot < self.now.uses.first + self.now.uses.size }
        ensures borrowed { (index at : ℕ) (message : Message T U)
            → slice_get (connection_at index self.now.uses).borrowed at ≡ Some message → message.slot ≡ slot
            → result.now ≡ message.user_header }
        ensures waiting { (index at : ℕ) (message : Message T U)
            → slice_get (connection_at index self.now.uses).waiting at ≡ Some message → message.slot ≡ slot
            → result.now ≡ message.user_header }
        ensures remembered { (at : ℕ) (message : Message T U) → slice_get self.now.uses.history at ≡ Some message → message.slot ≡ slot
            → result.now ≡ message.user_header }
    {
        &self.headers[slot].user_header
    }

    /// Opens a segment of as many slots as before, each with capacity for `room` values. Only its slots are loaned from now on, and
    /// none of them is in use. What is in use stays as it is. The call fails only if an allocation fails; then nothing has changed.
    pub fn open_segment(&mut self, alloc: Global, room: usize, blank: T) -> Result<(), AllocError>
        requires { self.old.segments < self.old.most_segments }
        ensures opened { IfOk result (λ _. self.new ≡ opened_for room self.old) }
        ensures free { IfOk result (λ _. (slot : ℕ) → self.new.uses.first ≤ slot → times slot (in_use (slots_of self.new)) ≡ 0) }
        ensures refused { OnErr result (self.new ≡ self.old) }
    {
        let size = self.values.size();
        let values = Rows::new(alloc, size, room, blank)?;
        let written = Rows::new(alloc, size, room, false)?;
        open_slots(alloc, size, &mut self.uses, &mut self.headers, self.blank)?;
        self.values.push(values);
        self.written.push(written);
        Ok(())
    }

    /// How many more segments may be opened.
    pub fn segments_left(&self) -> usize
        ensures { result ≡ self.now.most_segments - self.now.segments }
    {
        self.values.segments_left()
    }

    /// Drops the loan in this slot.
    pub fn drop_loan(&mut self, slot: usize)
        requires { has_loan slot self.old.uses ≡ true }
        ensures { self.new ≡ with_uses (dropped (place_in slot self.old.uses) self.old.uses) self.old }
    {
        self.uses.drop_loan(slot);
    }

    /// Finishes the send: its message stays in use only where the history or a connection has it.
    pub fn finish_send(&mut self)
        ensures { self.new ≡ with_uses (finished self.old.uses) self.old }
    {
        self.uses.finish_send();
    }

    /// Puts the message that is being sent into the mailbox of a connection, and answers whether the mailbox accepted it.
    pub fn offer(&mut self, index: usize) -> bool
        requires sending { is_some self.old.uses.sending ≡ true }
        requires live { (connection_at index self.old.uses).stage ≡ stage.Live }
        ensures answer { result ≡ accepts self.old.uses.overflows (connection_at index self.old.uses) }
        ensures new { (message : Message T U) → self.old.uses.sending ≡ Some message →
            self.new ≡ with_uses (with_connection index (offered self.old.uses.overflows message (connection_at index self.old.uses))
            self.old.uses) self.old }
    {
        self.uses.offer(index)
    }

    /// Borrows the oldest waiting message of the connection, and answers its slot.
    pub fn take(&mut self, index: usize) -> usize
        requires data { 0 < length (connection_at index self.old.uses).waiting }
        requires room { length (connection_at index self.old.uses).borrowed < self.old.uses.most_borrowed }
        ensures slot { slice_get (map (λ message. message.slot) (connection_at index self.old.uses).waiting) 0 ≡ Some result }
        ensures new { self.new ≡ with_uses (with_connection index (taken (connection_at index self.old.uses)) self.old.uses) self.old }
    {
        self.uses.take(index)
    }

    /// Releases the oldest message in this slot that is borrowed from the connection.
    pub fn give_back(&mut self, index: usize, slot: usize)
        requires { has_borrowed slot (connection_at index self.old.uses) ≡ true }
        ensures { self.new ≡ with_uses (with_connection index
            (given_back (borrowed_place slot (connection_at index self.old.uses)) (connection_at index self.old.uses)) self.old.uses)
            self.old }
    {
        self.uses.give_back(index, slot);
    }

    /// Ends the connection: what waits is lost, and what is borrowed stays in use until it is released.
    pub fn end(&mut self, index: usize)
        requires { (connection_at index self.old.uses).stage ≡ stage.Live }
        ensures { self.new ≡ with_uses (with_connection index (ended (connection_at index self.old.uses)) self.old.uses) self.old }
    {
        self.uses.end(index);
    }

    /// Drops all messages that wait in the connection, which stays as it is otherwise.
    pub fn lose_waiting(&mut self, index: usize)
        requires { is_there (connection_at index self.old.uses) ≡ true }
        ensures { self.new ≡ with_uses (with_connection index (emptied (connection_at index self.old.uses)) self.old.uses) self.old }
    {
        self.uses.lose_waiting(index);
    }

    /// Makes a connection in which at most `limit` messages may wait, and answers its index, the lowest at which none existed.
    /// The call fails only if an allocation fails or if there are 2^29 connections; then nothing has changed.
    pub fn connect(&mut self, alloc: Global, limit: usize) -> Result<usize, AllocError>
        requires { limit ≤ self.old.uses.most_waiting }
        ensures vacant { IfOk result (λ index. connection_at index self.old.uses ≡ nobody) }
        ensures within { IfOk result (λ index. index ≤ length self.old.uses.connections) }
        ensures lowest { IfOk result (λ index. (lower : ℕ) → lower < index
            → is_there (connection_at lower self.old.uses) ≡ true) }
        ensures new { IfOk result (λ index. self.new
            ≡ with_uses (record self.old.uses { connections = placed index (connected limit) self.old.uses.connections }) self.old) }
        ensures refused { OnErr result (self.new ≡ self.old) }
    {
        self.uses.connect(alloc, limit)
    }

    /// The connection at this index, if one exists.
    pub fn link(&self, index: usize) -> Option<&Link>
        ensures none { IfNone result (connection_at index self.now.uses ≡ nobody) }
        ensures there { IfSome result (λ link. is_there (connection_at index self.now.uses) ≡ true) }
        ensures stage { IfSome result (λ link. (connection_at index self.now.uses).stage
            ≡ (if link.now.ended then stage.Ended else stage.Live)) }
        ensures limit { IfSome result (λ link. link.now.limit ≡ (connection_at index self.now.uses).limit) }
        ensures waiting { IfSome result (λ link. length link.now.waiting ≡ length (connection_at index self.now.uses).waiting) }
        ensures borrowed { IfSome result (λ link. length link.now.borrowed ≡ length (connection_at index self.now.uses).borrowed) }
    {
        self.uses.link(index)
    }

    /// Its slots: how many there are, how many loans exist, and how many messages the history has.
    pub fn slots(&self) -> &Slots
        ensures first { result.now.first ≡ self.now.uses.first }
        ensures size { result.now.size ≡ self.now.uses.size }
        ensures most_loans { result.now.most_loans ≡ self.now.uses.most_loans }
        ensures kept { result.now.kept ≡ self.now.uses.kept }
        ensures loans { length result.now.loans ≡ length self.now.uses.loans }
        ensures history { length result.now.history ≡ length self.now.uses.history }
    {
        self.uses.slots()
    }

    /// The slot of the message that waits at place `at` of the connection; the oldest is at 0.
    pub fn waiting_slot(&self, index: usize, at: usize) -> usize
        requires there { is_there (connection_at index self.now.uses) ≡ true }
        requires waits { at < length (connection_at index self.now.uses).waiting }
        ensures slot { slice_get (map (λ message. message.slot) (connection_at index self.now.uses).waiting) at ≡ Some result }
        ensures inside { result < self.now.uses.first + self.now.uses.size }
    {
        self.uses.waiting_slot(index, at)
    }

    /// The slot of the message at this place of the history; the oldest is at 0.
    pub fn remembered(&self, place: usize) -> usize
        requires { place < length self.now.uses.history }
        ensures slot { slice_get (map (λ message. message.slot) self.now.uses.history) place ≡ Some result }
        ensures inside { result < self.now.uses.first + self.now.uses.size }
    {
        self.uses.slots().remembered(place)
    }

    /// Clears the history: its messages stay in use only where something else has them.
    pub fn forget_history(&mut self)
        ensures { self.new ≡ with_uses (record self.old.uses { history = [] }) self.old }
    {
        self.uses.forget_history();
    }

    /// Whether a message in this slot is borrowed from the connection.
    pub fn has_borrowed(&self, index: usize, slot: usize) -> bool
        requires { is_there (connection_at index self.now.uses) ≡ true }
        ensures answer { result ≡ has_borrowed slot (connection_at index self.now.uses) }
        ensures inside { result ≡ true → slot < self.now.uses.first + self.now.uses.size }
    {
        self.uses.has_borrowed(index, slot)
    }

    /// How many indices the connections have, also those at which none exists any longer: at most 2^29.
    pub fn indices(&self) -> usize
        ensures value { result ≡ length self.now.uses.connections }
        ensures few { result ≤ 2 ^ 29 }
    {
        self.uses.links().len()
    }

    /// The index after the last connection; 0 if none exists.
    pub fn top(&self) -> usize
        ensures within { result ≤ length self.now.uses.connections }
        ensures none { (index : ℕ) → result ≤ index → connection_at index self.now.uses ≡ nobody }
        ensures last { (index : ℕ) → index + 1 ≡ result → is_there (connection_at index self.now.uses) ≡ true }
    {
        self.uses.top()
    }

    /// The maximum number of values of a new loan.
    pub fn room(&self) -> usize
        ensures { result ≡ self.now.room }
    {
        self.values.room()
    }

    /// Whether a message is being sent.
    pub fn is_sending(&self) -> bool
        ensures { result ≡ is_some self.now.uses.sending }
    {
        self.uses.sending().is_some()
    }

    /// The highest limit of waiting messages that a connection may have.
    pub fn most_waiting(&self) -> usize
        ensures { result ≡ self.now.uses.most_waiting }
    {
        self.uses.links().most_waiting()
    }

    /// The maximum number of messages borrowed from one connection.
    pub fn most_borrowed(&self) -> usize
        ensures { result ≡ self.now.uses.most_borrowed }
    {
        self.uses.links().most_borrowed()
    }

    /// Gives a new connection the newest messages of the history, as many as may wait there, the oldest first.
    pub fn welcome(&mut self, index: usize)
        requires live { (connection_at index self.old.uses).stage ≡ stage.Live }
        requires empty { (connection_at index self.old.uses).waiting ≡ [] }
        ensures { self.new ≡ with_uses (with_connection index (welcomed self.old.uses.history (connection_at index self.old.uses))
            self.old.uses) self.old }
    {
        self.uses.welcome(index);
    }
}

// The slots of a first segment, which have no values yet.
fn first_values<T: Copy>(
    alloc: Global,
    config: SenderConfig,
    blank: T,
) -> Result<Payloads<T>, AllocError>
    requires { 0 < config.most_segments }
    ensures { IfOk result (λ made. made ≡ first_slots config.slots config.most_segments config.room) }
{
    let mut values = Payloads::new(alloc, config.slots, config.most_segments)?;
    values.push(Rows::new(alloc, config.slots, config.room, blank)?);
    Ok(values)
}

// The marks of a first segment, which has no values yet.
fn first_marks(alloc: Global, config: SenderConfig) -> Result<Marks, AllocError>
    requires { 0 < config.most_segments }
    ensures { IfOk result (λ made. made ≡ first_slots config.slots config.most_segments config.room) }
{
    let mut written = Marks::new(alloc, config.slots, config.most_segments)?;
    written.push(Rows::new(alloc, config.slots, config.room, false)?);
    Ok(written)
}

// Opens a segment of `count` slots, with as many blank headers. The call fails only if an allocation fails; then nothing has
// changed.
fn open_slots<U: Copy>(
    alloc: Global,
    count: usize,
    uses: &mut SlotUses,
    headers: &mut Vec<SlotHeader<U>>,
    blank: SlotHeader<U>,
) -> Result<(), AllocError>
    ensures opened { IfOk result (λ _. uses.new ≡ segment_opened uses.old) }
    ensures longer { IfOk result (λ _. headers.new.items ≡ headers.old.items ++ replicate count blank) }
    ensures refused { OnErr result (uses.new ≡ uses.old) }
    ensures stays { OnErr result (headers.new.items ≡ headers.old.items) }
{
    let before = headers.len();
    headers.reserve(count)?;
    uses.open_segment(alloc)?;
    // `reserve` allocated the memory.
    let _resized = headers.resize(before + count, blank);
    Ok(())
}

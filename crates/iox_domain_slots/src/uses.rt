//! Everything that the slots of one publisher are used for.
ghost use Rattle.std.specs.Prelude.{◌≡◌, ℕ, ◌+◌, ◌^◌, ◌<◌, ◌≤◌, ◌++◌, ◌∷◌, [], length, map, set, drop, take, remove};
ghost use Rattle.std.specs.Prelude.{is_some, option_copied, option_to_list, slice_get, IfOk, IsOk, IsSome, OnErr, Some, None, true};
ghost use Rattle.std.specs.Prelude.{false};
ghost use Rattle.iox_domain_slots.specs.declared.stage.Stage.TheVariants as stage;
ghost use Rattle.iox_domain_slots.specs.Uses.{Uses, nobody, placed, accepts, offered, taken, given_back, settled, ended, emptied, held};
ghost use Rattle.iox_domain_slots.specs.Uses.{in_use, newest, loaned, dropped, begun, finished, connection_at, with_connection};
ghost use Rattle.iox_domain_slots.specs.Uses.{connected, worst_case, welcomed, is_there, segment_opened};
ghost use Rattle.iox_domain_slots.specs.Counting.{times, LoanUse};
ghost use Rattle.iox_domain_slots.specs.Links.{seen};
ghost use Rattle.iox_domain_slots.specs.Loans.{place_in};
ghost use Rattle.iox_container.specs.Unique.{is_among};

use crate::link::Link;
use crate::links::Links;
use crate::slots::Slots;
use std::alloc::{AllocError, Global};
use std::marker::Model;

/// Who uses the slots of one publisher: the message that it sends, its loans, its history, and what its connections hold.
///
/// Contracts see who uses which slot; how often each slot is used is counted internally.
#[derive(Drop)]
pub struct SlotUses {
    slots: Slots,
    sending: Option<usize>,
    links: Links,
}

impl Model for SlotUses {
    ghost use Rattle.iox_domain_slots.specs.Uses.{Uses};
    ghost use Rattle.iox_domain_slots.specs.Links.{seen_uses, IsTally, IsSmall};
    ghost use Rattle.std.specs.Prelude.{ℕ};

    ghost Value = { Uses ℕ ℕ };

    ghost view = { λ u. seen_uses u.slots u.sending u.links };

    ghost invariant = { λ u. IsTally u.slots u.sending u.links × IsSmall u.slots };
}

impl SlotUses {
    /// Loans a slot of the current segment that isn't in use; None if each of them is in use. Returned slots are taken back first.
    /// With at least as many slots in a segment as the worst case needs, and no send in progress, a slot is always found.
    pub fn loan(&mut self) -> Option<usize>
        requires { length self.old.loans < self.old.most_loans }
        ensures step { LoanUse self.old result self.new }
        ensures enough { self.old.sending ≡ None → worst_case self.old ≤ self.old.size → IsSome result }
    {
        // By the contract of `len` the connections use no more slots than the worst case says.
        let _indices = self.links.len();
        self.links.take_back(&mut self.slots);
        self.slots.loan()
    }

    /// Takes back all returned slots. Callers see no change: a returned slot isn't in use.
    pub fn take_back(&mut self)
        ensures { self.new ≡ self.old }
    {
        let slots = &mut self.slots;
        self.links.take_back(slots);
    }

    /// Drops the loan in this slot.
    pub fn drop_loan(&mut self, slot: usize)
        requires { is_among slot self.old.loans ≡ true }
        ensures { self.new ≡ dropped (place_in slot self.old.loans) self.old }
    {
        self.slots.drop_loan(slot);
    }

    /// Begins the send of the loan in this slot. It is no loan any longer, stays in use until the send is finished, and is the
    /// newest of the history.
    pub fn begin_send(&mut self, slot: usize)
        requires loan { is_among slot self.old.loans ≡ true }
        requires alone { self.old.sending ≡ None }
        ensures { self.new ≡ begun (place_in slot self.old.loans) slot self.old }
    {
        self.slots.begin(slot);
        self.sending = Some(slot);
        // By the contract of `len` there are so few connections that all uses of a slot can be counted.
        let _indices = self.links.len();
        self.slots.remember(slot);
    }

    /// Finishes the send: its slot stays in use only where the history or a connection has it.
    pub fn finish_send(&mut self)
        ensures { self.new ≡ finished self.old }
    {
        let Some(slot) = self.sending else {
            return;
        };
        self.slots.let_go(slot);
        self.sending = None;
    }

    /// Begins to send a slot of the current segment again, whether the slot is in use or not. The slot is in use until the send
    /// is finished.
    pub fn begin_again(&mut self, slot: usize)
        requires alone { self.old.sending ≡ None }
        requires first { self.old.first ≤ slot }
        requires within { slot < self.old.first + self.old.size }
        ensures { self.new ≡ record self.old { sending = Some slot } }
    {
        // By the contract of `len` there are so few connections that all uses of a slot can be counted.
        let _indices = self.links.len();
        self.slots.claim(slot);
        self.sending = Some(slot);
    }

    /// Makes the message that is being sent, if one is, the newest of the history. A history of `kept` messages drops its
    /// oldest.
    pub fn remember(&mut self)
        ensures sent { (slot : ℕ) → self.old.sending ≡ Some slot
            → self.new ≡ record self.old { history = newest self.old.kept (self.old.history ++ slot ∷ []) } }
        ensures none { self.old.sending ≡ None → self.new ≡ self.old }
    {
        let Some(slot) = self.sending else {
            return;
        };
        // By the contract of `len` there are so few connections that all uses of a slot can be counted.
        let _indices = self.links.len();
        self.slots.remember(slot);
    }

    /// Puts the message that is being sent into the mailbox of a connection, and answers whether the mailbox accepted it. A
    /// full mailbox drops its oldest message if the publisher's mailboxes overflow; otherwise it refuses the new one.
    pub fn offer(&mut self, index: usize) -> bool
        requires sending { is_some self.old.sending ≡ true }
        requires live { (connection_at index self.old).stage ≡ stage.Live }
        ensures answer { result ≡ accepts self.old.overflows (connection_at index self.old) }
        ensures new { (slot : ℕ) → self.old.sending ≡ Some slot →
            self.new ≡ with_connection index (offered self.old.overflows slot (connection_at index self.old)) self.old }
    {
        let Some(slot) = self.sending else {
            return false;
        };
        self.links.offer(index, slot, &mut self.slots)
    }

    /// Borrows the oldest waiting message of the connection, and answers its slot.
    pub fn take(&mut self, index: usize) -> usize
        requires data { 0 < length (connection_at index self.old).waiting }
        requires room { length (connection_at index self.old).borrowed < self.old.most_borrowed }
        ensures slot { slice_get (connection_at index self.old).waiting 0 ≡ Some result }
        ensures new { self.new ≡ with_connection index (taken (connection_at index self.old)) self.old }
    {
        self.links.take(index)
    }

    /// Releases the oldest message with this slot that is borrowed from the connection, which no longer uses it. The publisher
    /// takes the slot back at its next loan, or at once if the connection ended.
    pub fn give_back(&mut self, index: usize, slot: usize)
        requires { is_among slot (connection_at index self.old).borrowed ≡ true }
        ensures { self.new ≡ with_connection index
            (given_back (place_in slot (connection_at index self.old).borrowed) (connection_at index self.old)) self.old }
    {
        self.links.give_back(index, slot, &mut self.slots);
    }

    /// Ends the connection: waiting messages are lost, and borrowed ones stay in use until they are released.
    pub fn end(&mut self, index: usize)
        requires { (connection_at index self.old).stage ≡ stage.Live }
        ensures { self.new ≡ with_connection index (ended (connection_at index self.old)) self.old }
    {
        self.links.end(index, &mut self.slots);
    }

    /// Drops all waiting messages of the connection, which stays as it is otherwise.
    pub fn lose_waiting(&mut self, index: usize)
        requires { is_there (connection_at index self.old) ≡ true }
        ensures { self.new ≡ with_connection index (emptied (connection_at index self.old)) self.old }
    {
        self.links.lose_waiting(index, &mut self.slots);
    }

    /// Makes a connection in which at most `limit` messages may wait, and answers its index, the lowest at which none existed.
    /// The call fails only if an allocation fails or if there are 2^29 connections; then nothing has changed.
    pub fn connect(&mut self, alloc: Global, limit: usize) -> Result<usize, AllocError>
        requires { limit ≤ self.old.most_waiting }
        ensures vacant { IfOk result (λ index. connection_at index self.old ≡ nobody) }
        ensures within { IfOk result (λ index. index ≤ length self.old.connections) }
        ensures lowest { IfOk result (λ index. (lower : ℕ) → lower < index → is_there (connection_at lower self.old) ≡ true) }
        ensures new { IfOk result (λ index. self.new
            ≡ record self.old { connections = placed index (connected limit) self.old.connections }) }
        ensures refused { OnErr result (self.new ≡ self.old) }
    {
        self.links.connect(alloc, limit)
    }

    /// Slots without a use in one segment of `size` slots, and capacity for `most_loans` loans and a history of `kept`
    /// messages. In each connection at most `most_waiting` messages wait and at most `most_borrowed` are borrowed. The call
    /// fails only if an allocation fails.
    pub fn new(
        alloc: Global,
        overflows: bool,
        size: usize,
        most_loans: usize,
        kept: usize,
        most_waiting: usize,
        most_borrowed: usize,
    ) -> Result<SlotUses, AllocError>
        requires loans { most_loans < 2 ^ 32 }
        requires history { kept < 2 ^ 32 }
        requires waiting { most_waiting < 2 ^ 32 }
        requires borrowed { most_borrowed < 2 ^ 32 }
        ensures { IfOk result (λ uses. uses ≡ record {
          first = 0;
          size = size;
          most_loans = most_loans;
          kept = kept;
          most_waiting = most_waiting;
          most_borrowed = most_borrowed;
          overflows = overflows;
          sending = None;
          loans = [];
          history = [];
          connections = [];
        }) }
    {
        Ok(SlotUses {
            slots: Slots::new(alloc, size, most_loans, kept)?,
            sending: None,
            links: Links::new(alloc, overflows, most_waiting, most_borrowed),
        })
    }

    /// Opens a new segment of as many slots as the current one has. It is the current one from now on: slots of the former
    /// segments are loaned no more, and stay in use as they were. The call fails only if an allocation fails; then nothing has
    /// changed.
    pub fn open_segment(&mut self, alloc: Global) -> Result<(), AllocError>
        ensures opened { IfOk result (λ _. self.new ≡ segment_opened self.old) }
        ensures refused { OnErr result (self.new ≡ self.old) }
    {
        self.slots.open_segment(alloc)
    }

    // Puts a slot of the history, or the one that is being sent, into the mailbox of a connection.
    fn put(&mut self, index: usize, slot: usize) -> bool
        requires used { 0 < times slot (option_to_list self.old.sending) + times slot self.old.history }
        requires live { (connection_at index self.old).stage ≡ stage.Live }
        ensures answer { result ≡ accepts self.old.overflows (connection_at index self.old) }
        ensures new { self.new ≡ with_connection index (offered self.old.overflows slot (connection_at index self.old)) self.old }
    {
        self.links.offer(index, slot, &mut self.slots)
    }

    /// Gives a new connection the newest messages of the history, as many as may wait there, the oldest first.
    pub fn welcome(&mut self, index: usize)
        requires live { (connection_at index self.old).stage ≡ stage.Live }
        requires empty { (connection_at index self.old).waiting ≡ [] }
        ensures { self.new ≡ with_connection index (welcomed self.old.history (connection_at index self.old)) self.old }
    {
        let end = self.slots().history();
        for place in end.saturating_sub(self.limit(index))..end {
            let slot = self.slots().remembered(place);
            let _has_room = self.put(index, slot);
        }
    }

    /// Clears the history: its messages stay in use only where something else has them.
    pub fn forget_history(&mut self)
        ensures { self.new ≡ record self.old { history = [] } }
    {
        for _ in 0..self.slots().history() {
            self.forget_oldest();
        }
    }

    // Removes the oldest message of the history.
    fn forget_oldest(&mut self)
        requires { 0 < length self.old.history }
        ensures { self.new ≡ record self.old { history = drop 1 self.old.history } }
    {
        self.slots.forget_oldest();
    }

    /// Its slots: how many there are, which of them are loaned, and the history.
    pub fn slots(&self) -> &Slots
        ensures first { result.now.first ≡ self.now.first }
        ensures size { result.now.size ≡ self.now.size }
        ensures most_loans { result.now.most_loans ≡ self.now.most_loans }
        ensures kept { result.now.kept ≡ self.now.kept }
        ensures loans { result.now.loans ≡ self.now.loans }
        ensures history { result.now.history ≡ self.now.history }
    {
        &self.slots
    }

    /// Its connections: how many indices they have, and how many messages may wait in each and be borrowed from it.
    pub fn links(&self) -> &Links
        ensures most_waiting { result.now.most_waiting ≡ self.now.most_waiting }
        ensures most_borrowed { result.now.most_borrowed ≡ self.now.most_borrowed }
        ensures indices { length result.now.links ≡ length self.now.connections }
    {
        &self.links
    }

    /// The index after the last connection; 0 if there is none.
    pub fn top(&self) -> usize
        ensures within { result ≤ length self.now.connections }
        ensures none { (index : ℕ) → result ≤ index → connection_at index self.now ≡ nobody }
        ensures last { (index : ℕ) → index + 1 ≡ result → is_there (connection_at index self.now) ≡ true }
    {
        self.links.top()
    }

    /// The connection at an index, if one exists.
    pub fn link(&self, index: usize) -> Option<&Link>
        ensures { seen (option_copied result) ≡ connection_at index self.now }
    {
        self.links.get(index)
    }

    // How many messages may wait at the connection.
    fn limit(&self, index: usize) -> usize
        requires { is_there (connection_at index self.now) ≡ true }
        ensures { result ≡ (connection_at index self.now).limit }
    {
        match self.link(index) {
            Some(link) => link.limit(),
            None => 0,
        }
    }

    /// The slot of the message that waits at place `at` of the connection; the oldest is at 0.
    pub fn waiting_slot(&self, index: usize, at: usize) -> usize
        requires there { is_there (connection_at index self.now) ≡ true }
        requires waits { at < length (connection_at index self.now).waiting }
        ensures { slice_get (connection_at index self.now).waiting at ≡ Some result }
    {
        match self.link(index) {
            Some(link) => link.waiting_slot(at),
            None => 0,
        }
    }

    /// Whether a message with this slot is borrowed from the connection.
    pub fn has_borrowed(&self, index: usize, slot: usize) -> bool
        requires { is_there (connection_at index self.now) ≡ true }
        ensures { result ≡ is_among slot (connection_at index self.now).borrowed }
    {
        match self.link(index) {
            Some(link) => link.has_borrowed(slot),
            None => false,
        }
    }

    /// The slot that is being sent, if one is.
    pub fn sending(&self) -> Option<usize>
        ensures { result ≡ self.now.sending }
    {
        self.sending
    }
}

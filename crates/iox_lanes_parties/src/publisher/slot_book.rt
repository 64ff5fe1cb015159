//! What the slots of a publisher are used for.
ghost use Rattle.std.specs.Prelude.{◌≡◌, ◌+◌, ◌-◌, ◌*◌, ◌<◌, ◌≤◌, ◌^◌, ◌++◌, ◌∷◌, [], None, true, false, length, take, get_or, remove};
ghost use Rattle.std.specs.Prelude.{replicate, IfOk, vec_len, vec_capacity};
ghost use Rattle.iox_lanes_parties.specs.PublisherKeeping.{put_at, number_in, new_book, loan_of};
ghost use Rattle.iox_lanes_parties.specs.PublisherKeeping.{changed, lent, remembered, dropped, marked, referred_at, unreferred_at};
ghost use Rattle.iox_lanes_parties.specs.PublisherKeeping.{newest_of, is_own, may_have, stands_in, may_remember, found_newest};
ghost use Rattle.iox_lanes_parties.specs.PublisherKeeping.{are_unused, may_resize, resized};

use crate::places::put;
use crate::publisher::use_counts::UseCounts;
use iox_lanes_base::calls::PublisherChange;
use std::alloc::{AllocError, Global};
use std::collections::VecDeque;
use std::marker::Model;

/// Whether a slot is a loan, and whether it is written.
#[derive(Clone, Copy)]
pub enum LoanMark {
    /// The slot isn't a loan.
    No,
    /// The slot is a loan that isn't written.
    Lent,
    /// The slot is a loan that is written.
    Written,
}

/// The answer of a loan.
#[derive(Clone, Copy, Debug, PartialEq, Eq)]
pub enum LoanAnswer {
    /// This slot is loaned.
    Slot(u64),
    /// The publisher has as many loans as its loan limit allows.
    ExceedsMaxLoans,
    /// Each slot is in use.
    OutOfMemory,
}

/// What the slots of a publisher are used for: its loans, its history, and the slots that it put into the rings of its connections and that
/// haven't come back.
///
/// All its memory is allocated when it is made. Slots are identified by their numbers in the service; those of the publisher begin at
/// `first`.
#[derive(Drop)]
pub struct SlotBook {
    first: u64,
    most_loans: u64,
    kept: usize,
    out: u64,
    loans: Vec<LoanMark>,
    history: VecDeque<u64>,
    // For each connection, and each slot, whether the connection has the slot.
    referred: Vec<bool>,
    // How many loans, places of the history and connections have each slot.
    uses: UseCounts,
    answer: Option<LoanAnswer>,
}

impl Model for SlotBook {
    ghost use Rattle.std.specs.Prelude.{◌≤◌, ◌<◌, ◌^◌, length};
    ghost use Rattle.std.specs.VecDeque.{deque_capacity};
    ghost use Rattle.iox_lanes_parties.specs.PublisherKeeping.{BookState};

    ghost Value = { BookState };

    ghost view = { λ b. record {
      first = b.first;
      most_loans = b.most_loans;
      kept = b.kept;
      out = b.out;
      loans = b.loans.items;
      history = b.history.items;
      referred = b.referred.items;
      uses = b.uses.counts;
      answer = b.answer;
    } };

    ghost invariant = { λ b. (length b.history.items ≤ b.kept) × (b.kept ≤ deque_capacity b.history) };
}

impl SlotBook {
    /// `slots` unused slots from `first` on, for this many connections, with at most `most_loans` loans and a history of at most `kept`
    /// messages. `AllocError` is returned only where an allocation fails.
    pub fn new(
        alloc: Global,
        first: u64,
        slots: usize,
        connections: usize,
        most_loans: u64,
        kept: usize,
    ) -> Result<SlotBook, AllocError>
        ensures { IfOk result (λ made. made ≡ new_book first slots connections most_loans kept) }
    {
        let Some(marks) = connections.checked_mul(slots) else {
            return Err(AllocError);
        };
        Ok(SlotBook {
            first,
            most_loans,
            kept,
            out: 0,
            loans: vec![in alloc; LoanMark::No; slots]?,
            history: VecDeque::with_capacity(alloc, kept)?,
            referred: vec![in alloc; false; marks]?,
            uses: UseCounts::new(alloc, slots)?,
            answer: None,
        })
    }

    /// The answer of the last loan.
    pub fn answer(&self) -> Option<LoanAnswer>
        ensures { result ≡ self.now.answer }
    {
        self.answer
    }

    /// The number of the first slot.
    pub fn first(&self) -> u64
        ensures { result ≡ self.now.first }
    {
        self.first
    }

    /// How many slots the publisher has.
    pub fn slots(&self) -> usize
        ensures { result ≡ length self.now.loans }
    {
        self.loans.len()
    }

    /// The slots of the history, the oldest first.
    pub fn history(&self) -> &VecDeque<u64>
        ensures { result.now.items ≡ self.now.history }
    {
        &self.history
    }

    /// How many uses each slot has: one as a loan, one in the history, one at each connection that has it.
    pub fn uses(&self) -> &[u64]
        ensures { result.now ≡ self.now.uses }
    {
        self.uses.as_slice()
    }

    /// Whether a slot of the service is a loan of this publisher, and whether it is written.
    pub fn loan(&self, slot: u64) -> LoanMark
        ensures { result ≡ loan_of slot self.now }
    {
        if slot < self.first {
            return LoanMark::No;
        }
        match self.loans.get((slot - self.first) as usize) {
            Some(mark) => *mark,
            None => LoanMark::No,
        }
    }

    // Whether a slot of the service is one of this publisher's.
    fn owns(&self, slot: u64) -> bool
        ensures { result ≡ is_own slot self.now }
    {
        slot >= self.first && slot - self.first < self.uses.len() as u64
    }

    /// Whether lanes may find this slot at the connection of this place: the slot is one of this publisher's, and the connection doesn't
    /// have it yet.
    pub fn may_have(&self, place: u64, slot: u64) -> bool
        ensures { result ≡ may_have place slot self.now }
    {
        self.owns(slot)
            && !is_marked(
                &self.referred,
                place,
                self.uses.len() as u64,
                slot.saturating_sub(self.first),
            )
    }

    /// Whether lanes may find that this slot is the newest of the history: the slot is one of this publisher's and not yet in the history,
    /// and the history has fewer slots than its maximum.
    pub fn may_remember(&self, slot: u64) -> bool
        ensures { result ≡ may_remember slot self.now }
    {
        self.owns(slot) && !stands_in(slot, &self.history) && self.history.len() < self.kept
    }

    /// Makes a slot that lanes found the newest one of the history.
    pub fn find_newest(&mut self, slot: u64)
        requires { may_remember slot self.old ≡ true }
        ensures { self.new ≡ found_newest slot self.old }
    {
        self.history.push_back_reserved(slot);
        self.uses.count_up(slot.saturating_sub(self.first));
    }

    /// Whether the publisher may be reduced to its first `slots` slots: it has at least this many, and none of its slots is used.
    pub fn may_resize(&self, slots: u64) -> bool
        ensures { result ≡ may_resize slots self.now }
    {
        slots <= self.uses.len() as u64 && are_unused(self.uses.as_slice())
    }

    /// Keeps only the first `slots` slots, for this many connections, and sets the loan limit.
    #[tactic(auto, using(std::proofs::lemmas::List::take_all))]
    pub fn resize(&mut self, connections: usize, slots: usize, most_loans: u64)
        ensures { self.new ≡ resized connections slots most_loans self.old }
    {
        self.most_loans = most_loans;
        self.loans.truncate(slots);
        self.uses.truncate(slots);
        if let Some(marks) = connections.checked_mul(slots) {
            self.referred.truncate(marks);
        }
    }

    /// Keeps what a step changes.
    #[inline(always)]
    pub fn change(&mut self, change: PublisherChange)
        ensures { self.new ≡ changed change self.old }
    {
        match change {
            PublisherChange::Nothing => {}
            PublisherChange::Lend => self.lend(),
            PublisherChange::Mark { slot } => self.mark(slot),
            PublisherChange::Remember { slot } => self.remember(slot),
            PublisherChange::Put { place, slot } => self.refer(place, slot),
            PublisherChange::TakenBack { place, slot } | PublisherChange::LeftOut { place, slot } =>
                { self.unrefer(place, slot) }
            PublisherChange::DropLoan { slot } => self.drop_loan(slot),
        }
    }

    fn lend(&mut self)
        ensures { self.new ≡ lent self.old }
    {
        if self.out >= self.most_loans {
            self.answer = Some(LoanAnswer::ExceedsMaxLoans);
            return;
        }
        let Some(index) = self.uses.first_free() else {
            self.answer = Some(LoanAnswer::OutOfMemory);
            return;
        };
        put(&mut self.loans, index, LoanMark::Lent);
        self.uses.count_up(index);
        self.out = self.out.saturating_add(1);
        self.answer = Some(LoanAnswer::Slot(self.first.saturating_add(index)));
    }

    fn mark(&mut self, slot: u64)
        ensures { self.new ≡ marked slot self.old }
    {
        put(
            &mut self.loans,
            slot.saturating_sub(self.first),
            LoanMark::Written,
        );
    }

    fn drop_loan(&mut self, slot: u64)
        ensures { self.new ≡ dropped slot self.old }
    {
        let index = slot.saturating_sub(self.first);
        put(&mut self.loans, index, LoanMark::No);
        self.uses.count_down(index);
        self.out = self.out.saturating_sub(1);
    }

    fn remember(&mut self, slot: u64)
        ensures { self.new ≡ remembered slot self.old }
    {
        let index = slot.saturating_sub(self.first);
        put(&mut self.loans, index, LoanMark::No);
        self.out = self.out.saturating_sub(1);
        if self.kept == 0 {
            self.uses.count_down(index);
            return;
        }
        if self.history.len() == self.kept
            && let Some(oldest) = self.history.pop_front()
        {
            self.uses.count_down(oldest.saturating_sub(self.first));
        }
        self.history.push_back_reserved(slot);
    }

    fn refer(&mut self, place: u64, slot: u64)
        ensures { self.new ≡ referred_at place slot self.old }
    {
        let index = slot.saturating_sub(self.first);
        mark_at(
            &mut self.referred,
            place,
            self.uses.len() as u64,
            index,
            true,
        );
        self.uses.count_up(index);
    }

    fn unrefer(&mut self, place: u64, slot: u64)
        ensures { self.new ≡ unreferred_at place slot self.old }
    {
        let index = slot.saturating_sub(self.first);
        mark_at(
            &mut self.referred,
            place,
            self.uses.len() as u64,
            index,
            false,
        );
        self.uses.count_down(index);
    }
}

// Whether the number is in the list.
fn stands_in(slot: u64, list: &VecDeque<u64>) -> bool
    ensures { result ≡ stands_in slot list.now.items }
{
    list.contains(&slot)
}

// Whether no slot has a use.
fn are_unused(uses: &[u64]) -> bool
    ensures { result ≡ are_unused uses.now }
{
    let mut rest = uses;
    while let Some((count, tail)) = rest.split_first() {
        if *count != 0 {
            return false;
        }
        rest = tail;
    }
    true
}

// Whether this place of a row is marked; false beyond the end of the list.
fn is_marked(list: &[bool], row: u64, width: u64, place: u64) -> bool
    ensures { result ≡ get_or list.now (row * width + place) false }
{
    let Some(start) = row.checked_mul(width) else {
        return false;
    };
    let Some(at) = start.checked_add(place) else {
        return false;
    };
    match list.get(at as usize) {
        Some(mark) => *mark,
        None => false,
    }
}

// Marks this place of a row, or clears it; does nothing beyond the end of the list.
fn mark_at(list: &mut Vec<bool>, row: u64, width: u64, place: u64, value: bool)
    ensures { list.new.items ≡ put_at list.old.items (row * width + place) value }
{
    let Some(start) = row.checked_mul(width) else {
        return;
    };
    let Some(at) = start.checked_add(place) else {
        return;
    };
    put(list, at, value);
}

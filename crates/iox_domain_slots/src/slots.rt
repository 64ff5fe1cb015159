//! The slots of one publisher: which are free, and how many uses the others have.
ghost use Rattle.std.specs.Prelude.{◌≡◌, ◌+◌, ◌-◌, ◌^◌, ◌<◌, ◌≤◌, ◌++◌, ◌∷◌, [], length, drop, get_or, remove, nat_lt, replicate, true};
ghost use Rattle.std.specs.Prelude.{IfOk, OnErr, None};
ghost use Rattle.iox_container.specs.Unique.{is_among};
ghost use Rattle.iox_domain_slots.specs.Uses.{newest};
ghost use Rattle.iox_domain_slots.specs.Counting.{SlotsState, times, uses_of, referred, let_go, IsCurrent, LoanSlot, Moves, Covers};
ghost use Rattle.iox_domain_slots.specs.Loans.{place_in};

use crate::loans::Loans;
use crate::places::{hold_all, settle};
use iox_container::queue::Queue;
use iox_container::{ReleaseMode, UniqueIndexSet};
use std::alloc::{AllocError, Global};
use std::marker::Model;

/// Which slots of a publisher are used, and how often: by its loans, its history and its connections.
///
/// Contracts see the number of uses of each slot, the loans and the history.
#[derive(Drop)]
pub struct Slots {
    // Of the current segment, the places whose slots have a use are held.
    places: UniqueIndexSet,
    // Whether all other places are held, too: from the first claim until the next loan, so that no claim searches the free ones.
    all_held: bool,
    references: Vec<u64>,
    loans: Loans,
    history: Queue<usize>,
    first: usize,
    most_loans: usize,
}

impl Model for Slots {
    ghost use Rattle.std.specs.Prelude.{◌≡◌, ◌+◌, ◌<◌, ◌≤◌, ◌||◌, ◌^◌, ℕ, length, false, nat_lt, get_or};
    ghost use Rattle.iox_container.specs.Unique.{is_held};
    ghost use Rattle.iox_domain_slots.specs.Counting.{SlotsState, times};

    ghost Value = { SlotsState };

    ghost view = { λ s. record {
      first = s.first;
      size = s.places.capacity;
      most_loans = s.most_loans;
      kept = s.history.capacity;
      references = s.references.items;
      loans = s.loans.items;
      history = s.history.items;
    } };

    ghost invariant = { λ s. (s.first + s.places.capacity ≡ length s.references.items)
        × (s.places.locked ≡ false)
        × ((index : ℕ) → index < s.places.capacity → is_held index s.places
        ≡ (s.all_held || nat_lt 0 (get_or s.references.items (s.first + index) 0)))
        × ((slot : ℕ) → times slot s.loans.items + times slot s.history.items ≤ get_or s.references.items slot 0)
        × (length s.loans.items ≤ s.most_loans) × (s.most_loans + 2 < 2 ^ 64)
        × (length s.history.items ≤ s.history.capacity) × (length s.references.items ≤ s.loans.made) };
}

impl Slots {
    /// Counts one more use of a slot that has one.
    pub fn refer(&mut self, slot: usize)
        requires used { 0 < uses_of slot self.old }
        requires room { uses_of slot self.old + 1 < 2 ^ 64 }
        ensures { self.new ≡ referred slot self.old }
    {
        self.references[slot] += 1;
    }

    /// Counts one more use of a slot of the current segment, which may have none yet.
    pub fn claim(&mut self, slot: usize)
        requires current { IsCurrent slot self.old }
        requires room { uses_of slot self.old + 1 < 2 ^ 64 }
        ensures after { self.new ≡ referred slot self.old }
        ensures there { slot < length self.old.references }
    {
        if self.all_held || self.references[slot] > 0 {
            self.references[slot] += 1;
            return;
        }
        hold_all(&mut self.places);
        self.all_held = true;
        self.references[slot] = 1;
    }

    /// Counts one use less of the slot, by something other than a loan or the history. A slot of the current segment without a
    /// use is free.
    pub fn let_go(&mut self, slot: usize)
        requires used { times slot self.old.loans + times slot self.old.history < uses_of slot self.old }
        ensures { self.new ≡ let_go slot self.old }
    {
        self.references[slot] -= 1;
        if self.references[slot] == 0 && slot >= self.first && !self.all_held {
            let _state = self
                .places
                .release_raw_index(slot - self.first, ReleaseMode::Default);
        }
    }

    /// Loans a free slot of the current segment; None if each of them has a use.
    pub fn loan(&mut self) -> Option<usize>
        requires { length self.old.loans < self.old.most_loans }
        ensures { LoanSlot self.old result self.new }
    {
        settle(
            &mut self.places,
            self.all_held,
            &self.references,
            self.first,
        );
        self.all_held = false;
        let Ok(index) = self.places.acquire_raw_index() else {
            return None;
        };
        let slot = self.first + index;
        self.references[slot] = 1;
        self.loans.push(slot);
        Some(slot)
    }

    /// Drops the loan in this slot.
    pub fn drop_loan(&mut self, slot: usize)
        requires { is_among slot self.old.loans ≡ true }
        ensures after { self.new ≡ record (let_go slot self.old) { loans = remove self.old.loans (place_in slot self.old.loans) } }
        ensures there { get_or self.old.loans (place_in slot self.old.loans) 0 ≡ slot }
        ensures within { place_in slot self.old.loans < length self.old.loans }
    {
        self.loans.remove(slot);
        self.let_go(slot);
    }

    /// Ends the loan in this slot. Its use stays counted, and is now the send's.
    pub fn begin(&mut self, slot: usize)
        requires { is_among slot self.old.loans ≡ true }
        ensures after { self.new ≡ record self.old { loans = remove self.old.loans (place_in slot self.old.loans) } }
        ensures there { get_or self.old.loans (place_in slot self.old.loans) 0 ≡ slot }
        ensures within { place_in slot self.old.loans < length self.old.loans }
    {
        self.loans.remove(slot);
    }

    /// Makes a slot that has a further use the newest of the history. A history of `kept` messages drops its oldest.
    pub fn remember(&mut self, slot: usize)
        requires used { times slot self.old.loans + times slot self.old.history < uses_of slot self.old }
        requires room { uses_of slot self.old + 1 < 2 ^ 64 }
        ensures history { self.new.history ≡ newest self.old.kept (self.old.history ++ slot ∷ []) }
        ensures moved { Moves self.old self.old.history (record self.new { history = self.old.history }) self.new.history }
    {
        if self.history.capacity() == 0 {
            return;
        }
        self.refer(slot);
        self.make_room();
        self.add_newest(slot);
    }

    // Drops the oldest message of the history if the history is full.
    fn make_room(&mut self)
        requires { 0 < self.old.kept }
        ensures room { length self.new.history < self.new.kept }
        ensures rest { self.new.history ≡ newest (self.old.kept - 1) self.old.history }
        ensures moved { Moves self.old self.old.history (record self.new { history = self.old.history }) self.new.history }
    {
        if self.history.is_full() {
            self.forget_oldest();
        }
    }

    /// Removes the oldest message of the history.
    pub fn forget_oldest(&mut self)
        requires { 0 < length self.old.history }
        ensures { self.new ≡ record (let_go (get_or self.old.history 0 0) self.old) { history = drop 1 self.old.history } }
    {
        if let Some(oldest) = self.history.pop() {
            self.let_go(oldest);
        }
    }

    // Makes a slot the newest of the history, to which one of its uses belongs from now on.
    fn add_newest(&mut self, slot: usize)
        requires used { times slot self.old.loans + times slot self.old.history < uses_of slot self.old }
        requires room { length self.old.history < self.old.kept }
        ensures { self.new ≡ record self.old { history = self.old.history ++ slot ∷ [] } }
    {
        let _has_room = self.history.push(slot);
    }

    /// Slots without a use in one segment of `size` slots, and capacity for `most_loans` loans and a history of `kept`
    /// messages. The call fails only if an allocation fails.
    pub fn new(
        alloc: Global,
        size: usize,
        most_loans: usize,
        kept: usize,
    ) -> Result<Slots, AllocError>
        requires loans { most_loans + 2 < 2 ^ 64 }
        requires history { kept + 1 < 2 ^ 64 }
        ensures { IfOk result
            (λ slots. slots ≡ record
            { first = 0; size = size; most_loans = most_loans; kept = kept; references = replicate size 0; loans = []; history = [] }) }
    {
        Ok(Slots {
            places: UniqueIndexSet::new(alloc, size)?,
            all_held: false,
            references: vec![in alloc; 0; size]?,
            loans: Loans::new(alloc, size)?,
            history: Queue::new(alloc, kept)?,
            first: 0,
            most_loans,
        })
    }

    /// Opens a new segment of as many slots as the current one has. It is the current one from now on, so slots of the former
    /// segments are loaned no more. The call fails only if an allocation fails; then nothing has changed.
    pub fn open_segment(&mut self, alloc: Global) -> Result<(), AllocError>
        ensures opened { IfOk result (λ _. self.new ≡ record self.old {
          first = self.old.first + self.old.size;
          references = self.old.references ++ replicate self.old.size 0;
        }) }
        ensures refused { OnErr result (self.new ≡ self.old) }
    {
        let size = self.places.capacity();
        let places = UniqueIndexSet::new(alloc, size)?;
        self.loans.grow(size)?;
        let before = self.references.len();
        self.references.reserve(size)?;
        self.references.resize(before + size, 0)?;
        self.first = before;
        self.places = places;
        self.all_held = false;
        Ok(())
    }

    /// How many loans exist.
    pub fn loans(&self) -> usize
        ensures { result ≡ length self.now.loans }
    {
        self.loans.len()
    }

    /// Whether a loan is in this slot.
    pub fn has_loan(&self, slot: usize) -> bool
        ensures { result ≡ is_among slot self.now.loans }
    {
        self.loans.has(slot)
    }

    /// How many messages the history has.
    pub fn history(&self) -> usize
        ensures { result ≡ length self.now.history }
    {
        self.history.len()
    }

    /// The slot at this place of the history; the oldest is at 0.
    pub fn remembered(&self, place: usize) -> usize
        requires { place < length self.now.history }
        ensures { result ≡ get_or self.now.history place 0 }
    {
        self.history.get(place)
    }

    /// The first slot of the current segment.
    pub fn first(&self) -> usize
        ensures { result ≡ self.now.first }
    {
        self.first
    }

    /// How many slots a segment has.
    pub fn size(&self) -> usize
        ensures { result ≡ self.now.size }
    {
        self.places.capacity()
    }

    /// The maximum number of loans at once.
    pub fn most_loans(&self) -> usize
        ensures { result ≡ self.now.most_loans }
    {
        self.most_loans
    }

    /// The maximum number of messages in the history.
    pub fn kept(&self) -> usize
        ensures { result ≡ self.now.kept }
    {
        self.history.capacity()
    }

    /// Whether one more loan is allowed, which `loan` requires.
    pub fn may_loan(&self) -> bool
        ensures { result ≡ nat_lt (length self.now.loans) self.now.most_loans }
    {
        self.loans.len() < self.most_loans
    }
}

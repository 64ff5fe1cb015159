//! A publisher loans a slot.
ghost use Rattle.std.specs.Prelude.{◌≡◌, ◌<◌, ◌≤◌, ℕ, length, nat_le, true, false, None, Some, Ok, Err, IsOk, OnErr};
ghost use Rattle.iox_domain_ports.specs.Lengths.{extent};
ghost use Rattle.iox_domain_ports.specs.LoanLaws.{IsAmple};
ghost use Rattle.iox_domain_ports.specs.Loaning.{is_too_long, first_refusal, LendsHere, LendsWhere, Lends, Loans};

use crate::lengths::{fits, segment_room};
use crate::publisher_port::PublisherPort;
use iox_domain_values::{AllocationStrategy, LoanError};
use std::alloc::Global;

impl<T: Copy, U: Copy> PublisherPort<T, U> {
    /// Loans a slot for `values` values, of which none is written, and answers the slot; the message's header says `elements`
    /// elements. The call answers None, and nothing happens, while a send of this publisher is blocked.
    ///
    /// The call fails with the first of these errors that applies: `ExceedsMaxLoanSize` if the strategy is static and the loan is
    /// longer than a slot; `ExceedsMaxLoans` if as many loans exist as the limit allows; `OutOfMemory` if each slot of the current
    /// segment is in use. Other strategies open a new segment for a longer loan, and for nothing else. Then `OutOfMemory` means that
    /// a slot of the segment would need capacity for more than 2^32 - 1 values, that as many segments exist as the limit allows, or
    /// that an allocation failed. The length of a loan is that of all values of its elements, or `values` if that is more. A loan
    /// that fits allocates nothing. With at least as many slots in a segment as the worst case needs, a loan that fits always finds a
    /// slot, and an error changes nothing; with fewer slots a new segment may stay although nothing is loaned. `blank` fills a new
    /// segment.
    ///
    /// Ported from `iceoryx2::port::publisher::Publisher::loan_slice_uninit`.
    pub fn loan(
        &mut self,
        alloc: Global,
        values: usize,
        elements: u64,
        allocation: AllocationStrategy,
        blank: T,
    ) -> Option<Result<usize, LoanError>>
        ensures loans { Loans allocation values elements self.old result self.new }
        ensures enough { IsAmple self.old → self.old.sender.uses.sending ≡ None
            → length self.old.sender.uses.loans < self.old.sender.uses.most_loans
            → extent self.old.unit values elements ≤ self.old.sender.room → (slot : ℕ) × (result ≡ Some (Ok slot)) }
        ensures unchanged { IsAmple self.old → (error : LoanError) → result ≡ Some (Err error) → self.new ≡ self.old }
    {
        if self.sender.is_sending() {
            return None;
        }
        Some(self.lend(alloc, values, elements, allocation, blank))
    }

    // Loans a slot while no send is blocked. A loan that fits is refused only where too many are out.
    #[tactic(auto, using(crate::proofs::Lent::lends_fitting, crate::proofs::Lent::refuses_fitting))]
    fn lend(
        &mut self,
        alloc: Global,
        values: usize,
        elements: u64,
        allocation: AllocationStrategy,
        blank: T,
    ) -> Result<usize, LoanError>
        ensures lends { Lends allocation values elements self.old result self.new }
        ensures enough { IsAmple self.old → self.old.sender.uses.sending ≡ None
            → length self.old.sender.uses.loans < self.old.sender.uses.most_loans
            → extent self.old.unit values elements ≤ self.old.sender.room → IsOk result }
        ensures unchanged { IsAmple self.old → self.old.sender.uses.sending ≡ None → OnErr result (self.new ≡ self.old) }
    {
        if !self.has_room(values, elements) {
            return self.lend_unless(alloc, values, elements, allocation, blank);
        }
        if self.sender.slots().may_loan() {
            self.lend_here(values, elements)
        } else {
            Err(LoanError::ExceedsMaxLoans)
        }
    }

    // Loans a slot of a new segment, unless the loan is refused; it is longer than a slot.
    fn lend_unless(
        &mut self,
        alloc: Global,
        values: usize,
        elements: u64,
        allocation: AllocationStrategy,
        blank: T,
    ) -> Result<usize, LoanError>
        requires { nat_le (extent self.old.unit values elements) self.old.sender.room ≡ false }
        ensures lends { Lends allocation values elements self.old result self.new }
        ensures unchanged { IsAmple self.old → self.old.sender.uses.sending ≡ None → OnErr result (self.new ≡ self.old) }
    {
        if let Some(refusal) = self.refusal(values, elements, allocation) {
            return Err(refusal);
        }
        self.lend_longer(alloc, values, elements, allocation, blank)
    }

    // The error of a loan that is refused whichever slots are in use, if it is.
    fn refusal(
        &self,
        values: usize,
        elements: u64,
        allocation: AllocationStrategy,
    ) -> Option<LoanError>
        ensures { result ≡ first_refusal allocation values elements self.now }
    {
        if self.is_too_long(values, elements, allocation) {
            return Some(LoanError::ExceedsMaxLoanSize);
        }
        if !self.sender.slots().may_loan() {
            return Some(LoanError::ExceedsMaxLoans);
        }
        None
    }

    // Whether the loan is longer than a slot, and its strategy opens no segment.
    fn is_too_long(&self, values: usize, elements: u64, allocation: AllocationStrategy) -> bool
        ensures { result ≡ is_too_long allocation values elements self.now }
    {
        match allocation {
            AllocationStrategy::BestFit | AllocationStrategy::PowerOfTwo => false,
            AllocationStrategy::Static => !self.has_room(values, elements),
        }
    }

    // Whether a loan fits into the slots of the current segment.
    fn has_room(&self, values: usize, elements: u64) -> bool
        ensures room { result ≡ nat_le (extent self.now.unit values elements) self.now.sender.room }
        ensures values { result ≡ true → values ≤ self.now.sender.room }
    {
        fits(self.unit, values, elements, self.sender.room())
    }

    // Loans a slot of the current segment.
    fn lend_here(&mut self, values: usize, elements: u64) -> Result<usize, LoanError>
        requires room { values ≤ self.old.sender.room }
        requires loans { length self.old.sender.uses.loans < self.old.sender.uses.most_loans }
        ensures lends { LendsHere values elements self.old result self.new }
        ensures enough { IsAmple self.old → self.old.sender.uses.sending ≡ None → IsOk result }
    {
        match self.sender.loan(values, elements) {
            Some(slot) => Ok(slot),
            None => Err(LoanError::OutOfMemory),
        }
    }

    // Loans a slot of a new segment.
    fn lend_longer(
        &mut self,
        alloc: Global,
        values: usize,
        elements: u64,
        allocation: AllocationStrategy,
        blank: T,
    ) -> Result<usize, LoanError>
        requires { length self.old.sender.uses.loans < self.old.sender.uses.most_loans }
        ensures lends { LendsWhere false allocation values elements self.old result self.new }
        ensures unchanged { IsAmple self.old → self.old.sender.uses.sending ≡ None → OnErr result (self.new ≡ self.old) }
    {
        let Some(room) = segment_room(allocation, self.unit, values, elements) else {
            return Err(LoanError::OutOfMemory);
        };
        if self.sender.segments_left() == 0 {
            return Err(LoanError::OutOfMemory);
        }
        if self.sender.open_segment(alloc, room, blank).is_err() {
            return Err(LoanError::OutOfMemory);
        }
        self.lend_here(values, elements)
    }
}

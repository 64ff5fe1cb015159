//! Loans that first make capacity for one more number.
ghost use Rattle.iox_domain.specs.Homes as homes;
ghost use Rattle.std.specs.Prelude.{◌≡◌, ◌<◌, ◌+◌, ◌^◌, length, OnOk, OnErr, None, Ok};
ghost use Rattle.iox_container.specs.NumberTable.{value_at};
ghost use Rattle.iox_hub_commands.specs.Calls.{ready};
ghost use Rattle.iox_hub_commands.specs.Growing.{GrowsFirst};
ghost use Rattle.iox_hub_commands.specs.Numbering.{LendsNumbered, LendsWrittenNumbered};
ghost use Rattle.iox_hub_commands.specs.Tables.{SameNumbers, IsFull, lender};

use crate::ports::made::Made;
use iox_container::by_number::Numbered;
use iox_domain::Home;
use iox_domain_values::LoanError;
use std::alloc::{AllocError, Global};

impl Made {
    /// Like `loan_uninit`, but first makes capacity for one more loan, if there is none. Fails only if an allocation fails for that; then
    /// nothing has changed. Whatever memory there is, the answer is None if the number has no publisher, or if the publisher's messages are
    /// single values and another number of elements than one is asked for.
    ///
    /// Example: `let loaned = made.loan_uninit_growing(alloc, &mut home, publisher, 4)?;`
    #[tactic(auto, using(crate::proofs::Skipping::skips_loan_uninit))]
    pub fn loan_uninit_growing<T: Copy, U: Copy, H: Home<T, U>>(
        &mut self,
        alloc: Global,
        home: &mut H,
        publisher: u64,
        elements: u64,
    ) -> Result<Option<Result<u64, LoanError>>, AllocError>
        requires number { self.old.loans.next + 1 < 2 ^ 64 }
        ensures grows { GrowsFirst (IsFull self.old.loans)
            (LendsNumbered (homes.ports_of H.domain_of) (homes.with_ports H.changed) elements
            (lender elements (value_at self.old.publishers publisher))) self.old home.old result self.new home.new }
        ensures skips { lender elements (value_at self.old.publishers publisher) ≡ None → result ≡ Ok None }
    {
        let Some(port) = self.lender(publisher, elements) else {
            return Ok(None);
        };
        room_for_one(&mut self.loans)?;
        Ok(self.loan_uninit_at(alloc, home, port, elements))
    }

    /// Like `loan`, but first makes capacity for one more loan, if there is none. Fails only if an allocation fails for that; then nothing
    /// has changed. The answer is None if that of `loan` is, whatever memory there is.
    ///
    /// Example: `let loaned = made.loan_growing(alloc, &mut home, publisher, 4, 0)?;`
    #[tactic(auto, using(crate::proofs::Skipping::skips_loan))]
    pub fn loan_growing<T: Copy, U: Copy, H: Home<T, U>>(
        &mut self,
        alloc: Global,
        home: &mut H,
        publisher: u64,
        elements: u64,
        value: T,
    ) -> Result<Option<Result<u64, LoanError>>, AllocError>
        requires number { self.old.loans.next + 1 < 2 ^ 64 }
        ensures grows { GrowsFirst (IsFull self.old.loans)
            (LendsWrittenNumbered (homes.ports_of H.domain_of) (homes.with_ports H.changed) elements value
            (ready (homes.ports_of H.domain_of) (lender elements (value_at self.old.publishers publisher)) home.old)) self.old home.old
            result self.new home.new }
        ensures skips { ready (homes.ports_of H.domain_of) (lender elements (value_at self.old.publishers publisher)) home.old ≡ None
            → result ≡ Ok None }
    {
        let Some(port) = self.ready_lender(home, publisher, elements) else {
            return Ok(None);
        };
        room_for_one(&mut self.loans)?;
        Ok(Some(self.loan_at(alloc, home, port, elements, value)))
    }
}

// Makes capacity for one more value, if there is none.
pub(crate) fn room_for_one<V>(numbers: &mut Numbered<V>) -> Result<(), AllocError>
    ensures same { SameNumbers numbers.old numbers.new }
    ensures room { OnOk result (length numbers.new.entries < numbers.new.room) }
    ensures full { OnErr result (IsFull numbers.old) }
    ensures unchanged { OnErr result (numbers.new ≡ numbers.old) }
{
    if numbers.len() < numbers.room() {
        return Ok(());
    }
    let room = numbers.room().checked_add(1).ok_or(AllocError)?;
    numbers.reserve(room)
}

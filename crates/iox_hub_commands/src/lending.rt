//! The commands that loan, and the one that sends values at once, over the tables of numbers and any home.
ghost use Rattle.iox_domain.specs.Homes as homes;
ghost use Rattle.std.specs.Prelude.{◌≡◌, ◌+◌, ◌<◌, ◌^◌, IsSome, None, Ok, OnErr};
ghost use Rattle.iox_command.specs.declared.reply.Reply.TheVariants as reply;
ghost use Rattle.iox_container.specs.NumberTable.{value_at};
ghost use Rattle.iox_hub_commands.specs.Calls.{ready};
ghost use Rattle.iox_hub_commands.specs.Lending.{LoanStep, LoanUninitStep, PutStep};
ghost use Rattle.iox_hub_commands.specs.Tables.{lender};

use crate::ports::Made;
use crate::replies::{loan_reply, sent_reply};
use iox_command::Reply;
use iox_domain::Home;
use std::alloc::{AllocError, Global};

/// Loans this many elements from a publisher, none of which is written. Skipped if `Made::loan_uninit` answers None, and refused as it
/// refuses it.
///
/// Fails only if the table of loans is full and memory runs out for one more number; then nothing has changed. Whatever memory there is,
/// the command is skipped if the number has no publisher, or if the publisher's messages are single values and another number of elements
/// than one is asked for.
/// Example: `let reply = loan_uninit(alloc, &mut made, &mut home, publisher, 4)?;`
pub fn loan_uninit<T: Copy, U: Copy, H: Home<T, U>>(
    alloc: Global,
    made: &mut Made,
    home: &mut H,
    publisher: u64,
    elements: u64,
) -> Result<Reply<T>, AllocError>
    requires { made.old.loans.next + 1 < 2 ^ 64 }
    ensures lends { LoanUninitStep (homes.ports_of H.domain_of) (homes.with_ports H.changed) publisher elements made.old home.old result
        made.new home.new }
    ensures skips { lender elements (value_at made.old.publishers publisher) ≡ None → result ≡ Ok reply.Skipped }
    ensures lacks { OnErr result (IsSome (lender elements (value_at made.old.publishers publisher))) }
{
    match made.loan_uninit_growing(alloc, home, publisher, elements) {
        Ok(lent) => Ok(loan_reply(lent)),
        Err(lacking) => Err(lacking),
    }
}

/// Loans this many elements from a publisher, each written with a default value. Skipped if `Made::loan` answers None, and refused as it
/// refuses it.
///
/// Fails only if the table of loans is full and memory runs out for one more number; then nothing has changed. The command is skipped if
/// `Made::loan` answers None, whatever memory there is.
/// Example: `let reply = loan(alloc, &mut made, &mut home, publisher, 4)?;`
pub fn loan<T: Copy + Default, U: Copy, H: Home<T, U>>(
    alloc: Global,
    made: &mut Made,
    home: &mut H,
    publisher: u64,
    elements: u64,
) -> Result<Reply<T>, AllocError>
    requires { made.old.loans.next + 1 < 2 ^ 64 }
    ensures lends { LoanStep (homes.ports_of H.domain_of) (homes.with_ports H.changed) T.is_default publisher elements made.old home.old
        result made.new home.new }
    ensures skips { ready (homes.ports_of H.domain_of) (lender elements (value_at made.old.publishers publisher)) home.old ≡ None
        → result ≡ Ok reply.Skipped }
    ensures lacks { OnErr result
        (IsSome (ready (homes.ports_of H.domain_of) (lender elements (value_at made.old.publishers publisher)) home.old)) }
{
    match made.loan_growing(alloc, home, publisher, elements, T::default()) {
        Ok(lent) => Ok(loan_reply(lent)),
        Err(lacking) => Err(lacking),
    }
}

/// Sends these values by a publisher. Skipped if `Made::put` answers None, and refused as it refuses it.
pub fn put<T: Copy, U: Copy, H: Home<T, U>>(
    alloc: Global,
    made: &Made,
    home: &mut H,
    publisher: u64,
    values: &[T],
) -> Reply<T>
    ensures { PutStep (homes.ports_of H.domain_of) (homes.with_ports H.changed)
        (homes.publisher_degrades (λ kept. H.ForPublishers.degrades kept) H.domain_of)
        (homes.publisher_decides (λ kept. H.ForPublishers.decides kept) H.domain_of) publisher values.now made.now home.old result
        home.new }
{
    sent_reply(made.put(alloc, home, publisher, values))
}

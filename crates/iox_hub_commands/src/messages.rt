//! The commands on loans, sends and samples, over the tables of numbers and any home.
ghost use Rattle.iox_domain.specs.Homes as homes;
ghost use Rattle.std.specs.Prelude.{◌≡◌, ◌<◌, length, IfOk, OnErr};
ghost use Rattle.iox_hub_commands.specs.Messages.{SetStep, FillStep, DropStep, SendStep, RetryStep, GiveUpStep, ReadStep, SequenceStep};
ghost use Rattle.iox_hub_commands.specs.Messages.{ReleaseStep};

use crate::ports::Made;
use crate::replies::{done_reply, given_up_reply, sent_reply, sequence_reply};
use iox_command::Reply;
use iox_domain::Home;
use std::alloc::{AllocError, Global};

/// Writes one value of a loan. Skipped if `Made::set` answers false.
/// Example: `let reply = set(&made, &mut home, loan, 0, 7);`
pub fn set<T: Copy, U: Copy, H: Home<T, U>>(
    made: &Made,
    home: &mut H,
    loan: u64,
    place: u64,
    value: T,
) -> Reply<T>
    ensures { SetStep (homes.ports_of H.domain_of) (homes.with_ports H.changed) loan place value made.now home.old result home.new }
{
    done_reply(made.set(home, loan, place as usize, value))
}

/// Writes all values of a loan. Skipped if `Made::fill` answers false.
/// Example: `let reply = fill(&made, &mut home, loan, &[7, 8]);`
pub fn fill<T: Copy, U: Copy, H: Home<T, U>>(
    made: &Made,
    home: &mut H,
    loan: u64,
    values: &[T],
) -> Reply<T>
    ensures { FillStep (homes.ports_of H.domain_of) (homes.with_ports H.changed) loan values.now made.now home.old result home.new }
{
    done_reply(made.fill(home, loan, values))
}

/// Drops a loan. Skipped if `Made::drop_loan` answers false.
/// Example: `let reply = drop_loan(&mut made, &mut home, loan);`
pub fn drop_loan<T: Copy, U: Copy, H: Home<T, U>>(
    made: &mut Made,
    home: &mut H,
    loan: u64,
) -> Reply<T>
    ensures { DropStep (homes.ports_of H.domain_of) (homes.with_ports H.changed) loan made.old home.old result made.new home.new }
{
    done_reply(made.drop_loan(home, loan))
}

/// Sends a loan. Skipped if `Made::send` answers None, and refused as it refuses it.
/// Example: `let reply = send(alloc, &mut made, &mut home, loan);`
pub fn send<T: Copy, U: Copy, H: Home<T, U>>(
    alloc: Global,
    made: &mut Made,
    home: &mut H,
    loan: u64,
) -> Reply<T>
    ensures { SendStep (homes.ports_of H.domain_of) (homes.with_ports H.changed)
        (homes.publisher_degrades (λ kept. H.ForPublishers.degrades kept) H.domain_of)
        (homes.publisher_decides (λ kept. H.ForPublishers.decides kept) H.domain_of) loan made.old home.old result made.new home.new }
{
    sent_reply(made.send(alloc, home, loan))
}

/// Tries a blocked send again, with this many nanoseconds elapsed. Skipped if `Made::retry` answers None, and refused as it refuses it.
/// Example: `let reply = retry(&made, &mut home, publisher, 1_000);`
pub fn retry<T: Copy, U: Copy, H: Home<T, U>>(
    made: &Made,
    home: &mut H,
    publisher: u64,
    nanoseconds: u64,
) -> Reply<T>
    ensures { RetryStep (homes.ports_of H.domain_of) (homes.with_ports H.changed)
        (homes.publisher_decides (λ kept. H.ForPublishers.decides kept) H.domain_of) publisher nanoseconds made.now home.old result
        home.new }
{
    sent_reply(made.retry(home, publisher, nanoseconds))
}

/// Gives up a blocked send. Skipped if `Made::give_up` answers None.
/// Example: `let reply = give_up(&made, &mut home, publisher);`
pub fn give_up<T: Copy, U: Copy, H: Home<T, U>>(
    made: &Made,
    home: &mut H,
    publisher: u64,
) -> Reply<T>
    ensures { GiveUpStep (homes.ports_of H.domain_of) (homes.with_ports H.changed) publisher made.now home.old result home.new }
{
    given_up_reply(made.give_up(home, publisher))
}

/// Releases a sample. Skipped if `Made::release` answers false.
/// Example: `let reply = release(&mut made, &mut home, sample);`
pub fn release<T: Copy, U: Copy, H: Home<T, U>>(
    made: &mut Made,
    home: &mut H,
    sample: u64,
) -> Reply<T>
    ensures { ReleaseStep (homes.ports_of H.domain_of) (homes.with_ports H.changed) sample made.old home.old result made.new home.new }
{
    done_reply(made.release(home, sample))
}

/// The values of a sample. Skipped if `Made::read` answers None. Fails only if the sample has values and memory runs out for them; then
/// nothing has changed.
/// Example: `let reply = read(alloc, &made, &home, sample)?;`
pub fn read<T: Copy, U: Copy, H: Home<T, U>>(
    alloc: Global,
    made: &Made,
    home: &H,
    sample: u64,
) -> Result<Reply<T>, AllocError>
    ensures { ReadStep (homes.ports_of H.domain_of) sample made.now home.now result }
{
    match made.read(home, sample) {
        Some(values) => Ok(Reply::Values(copied(alloc, values)?)),
        None => Ok(Reply::Skipped),
    }
}

/// The sequence number of a sample's message, or that it has none. Skipped if `Made::sequence` answers None.
/// Example: `let reply = sequence(&made, &home, sample);`
pub fn sequence<T: Copy, U: Copy, H: Home<T, U>>(made: &Made, home: &H, sample: u64) -> Reply<T>
    ensures { SequenceStep (homes.ports_of H.domain_of) sample made.now home.now result }
{
    sequence_reply(made.sequence(home, sample))
}

// A list of the same values. Fails only if there are values and memory runs out for them.
pub(crate) fn copied<T: Copy>(alloc: Global, values: &[T]) -> Result<Vec<T>, AllocError>
    ensures copy { IfOk result (λ copy. copy.items ≡ values.now) }
    ensures lacking { OnErr result (0 < length values.now) }
{
    let mut copy = Vec::new(alloc);
    copy.extend_from_slice(values)?;
    Ok(copy)
}

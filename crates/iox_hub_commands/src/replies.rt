//! The replies to the answers of calls: the one place where typed answers become replies.
ghost use Rattle.std.specs.Prelude.{◌≡◌};
ghost use Rattle.iox_hub_commands.specs.Replies as replied;

use iox_command::{HubError, Refusal, Reply};
use iox_domain_ports::Sent;
use iox_domain_values::{
    ConnectionFailure, LoanError, PublisherCreateError, SendError, SubscriberCreateError,
};
use iox_negotiate_base::errors::CloseError;

/// The reply to a command that opens or creates a service; None is skipped.
/// Example: `factory_reply(Some(Ok(1)))`
pub fn factory_reply<T>(answer: Option<Result<u64, Refusal>>) -> Reply<T>
    ensures { result ≡ replied.factory_reply answer }
{
    match answer {
        None => Reply::Skipped,
        Some(Ok(number)) => Reply::FactoryMade(number),
        Some(Err(why)) => Reply::Refused(why),
    }
}

/// The reply to actions of other nodes.
/// Example: `foreign_reply(Ok(()))`
pub fn foreign_reply<T>(answer: Result<(), HubError>) -> Reply<T>
    ensures { result ≡ replied.foreign_reply answer }
{
    match answer {
        Ok(()) => Reply::Done,
        Err(error) => Reply::Refused(Refusal::Hub(error)),
    }
}

/// The reply to a close; None is skipped.
/// Example: `closed_reply(Some(Ok(())))`
pub fn closed_reply<T>(answer: Option<Result<(), CloseError>>) -> Reply<T>
    ensures { result ≡ replied.closed_reply answer }
{
    match answer {
        None => Reply::Skipped,
        Some(Ok(())) => Reply::Done,
        Some(Err(error)) => Reply::Refused(Refusal::Close(error)),
    }
}

/// The reply to the creation of a publisher; None is skipped.
/// Example: `publisher_reply(Some(Ok(1)))`
pub fn publisher_reply<T>(answer: Option<Result<u64, PublisherCreateError>>) -> Reply<T>
    ensures { result ≡ replied.publisher_reply answer }
{
    match answer {
        None => Reply::Skipped,
        Some(Ok(number)) => Reply::PublisherMade(number),
        Some(Err(error)) => Reply::Refused(Refusal::Publisher(error)),
    }
}

/// The reply to the creation of a subscriber; None is skipped.
/// Example: `subscriber_reply(Some(Ok(1)))`
pub fn subscriber_reply<T>(answer: Option<Result<u64, SubscriberCreateError>>) -> Reply<T>
    ensures { result ≡ replied.subscriber_reply answer }
{
    match answer {
        None => Reply::Skipped,
        Some(Ok(number)) => Reply::SubscriberMade(number),
        Some(Err(error)) => Reply::Refused(Refusal::Subscriber(error)),
    }
}

/// The reply to a loan; None is skipped.
/// Example: `loan_reply(Some(Ok(1)))`
pub fn loan_reply<T>(answer: Option<Result<u64, LoanError>>) -> Reply<T>
    ensures { result ≡ replied.loan_reply answer }
{
    match answer {
        None => Reply::Skipped,
        Some(Ok(number)) => Reply::LoanMade(number),
        Some(Err(error)) => Reply::Refused(Refusal::Loan(error)),
    }
}

/// The reply to a send; None is skipped.
/// Example: `sent_reply(Some(Ok(Sent::Delivered(1))))`
pub fn sent_reply<T>(answer: Option<Result<Sent, SendError>>) -> Reply<T>
    ensures { result ≡ replied.sent_reply answer }
{
    match answer {
        None => Reply::Skipped,
        Some(Ok(Sent::Delivered(count))) => Reply::Delivered(count as u64),
        Some(Ok(Sent::Blocked)) => Reply::Blocked,
        Some(Err(error)) => Reply::Refused(Refusal::Send(error)),
    }
}

/// The reply to a send that was given up: how many mailboxes took the message before. With None the command is skipped.
/// Example: `given_up_reply(Some(1))`
pub fn given_up_reply<T>(answer: Option<usize>) -> Reply<T>
    ensures { result ≡ replied.given_up_reply answer }
{
    match answer {
        None => Reply::Skipped,
        Some(count) => Reply::Delivered(count as u64),
    }
}

/// The reply to an update; None is skipped.
/// Example: `updated_reply(Some(Ok(())))`
pub fn updated_reply<T>(answer: Option<Result<(), ConnectionFailure>>) -> Reply<T>
    ensures { result ≡ replied.updated_reply answer }
{
    match answer {
        None => Reply::Skipped,
        Some(Ok(())) => Reply::Done,
        Some(Err(error)) => Reply::Refused(Refusal::Connection(error)),
    }
}

/// The reply to a look for data; None is skipped.
/// Example: `has_reply(Some(Ok(true)))`
pub fn has_reply<T>(answer: Option<Result<bool, ConnectionFailure>>) -> Reply<T>
    ensures { result ≡ replied.has_reply answer }
{
    match answer {
        None => Reply::Skipped,
        Some(Ok(has)) => Reply::Has(has),
        Some(Err(error)) => Reply::Refused(Refusal::Connection(error)),
    }
}

/// The reply to a question for the sequence number of a sample's message; None is skipped.
/// Example: `sequence_reply(Some(Some(1)))`
pub fn sequence_reply<T>(answer: Option<Option<u64>>) -> Reply<T>
    ensures { result ≡ replied.sequence_reply answer }
{
    match answer {
        None => Reply::Skipped,
        Some(sequence) => Reply::Sequence(sequence),
    }
}

/// The reply to a command that is done or skipped.
/// Example: `done_reply(true)`
pub fn done_reply<T>(done: bool) -> Reply<T>
    ensures { result ≡ replied.done_reply done }
{
    if done { Reply::Done } else { Reply::Skipped }
}

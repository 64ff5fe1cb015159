//! The replies of a hub.
use crate::refusal::Refusal;

/// The reply to one command.
///
/// Not in `iceoryx2`.
#[derive(Debug, Drop)]
pub enum Reply<T> {
    /// The number of the created node.
    NodeMade(u64),
    /// The number of the factory of the service that was created or opened.
    FactoryMade(u64),
    /// The number of the created publisher.
    PublisherMade(u64),
    /// The number of the created subscriber.
    SubscriberMade(u64),
    /// The number of the loan.
    LoanMade(u64),
    /// The command is done.
    Done,
    /// How many mailboxes took the message.
    Delivered(u64),
    /// The send is blocked at a full mailbox.
    Blocked,
    /// The number of the sample, and its values.
    Received { sample: u64, values: Vec<T> },
    /// No message waits.
    NothingWaits,
    /// The values of a sample.
    Values(Vec<T>),
    /// The sequence number of a sample's message; None if its service doesn't number messages.
    Sequence(Option<u64>),
    /// Whether messages wait.
    Has(bool),
    /// The command names something that doesn't exist, or can't act now, and changes nothing.
    Skipped,
    /// The call failed with this error.
    Refused(Refusal),
}

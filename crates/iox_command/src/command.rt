//! The commands of a hub.
use crate::port::{PortNumber, PublisherOptions, SubscriberOptions};
use crate::service::ServiceOptions;
use crate::step::{ForeignStep, StepBefore};
use crate::steps::Steps;
use crate::values::Values;
use iox_describe_base::{AttributeSpecifier, AttributeVerifier, MessagingPattern, ServiceName};

/// One command. It names nodes, factories, ports, loans and samples by their numbers; each kind is counted from 1.
///
/// Not in `iceoryx2`.
#[derive(Drop)]
pub enum Command<'a, T> {
    /// Creates a node.
    Node,
    /// Creates a service in a node, with defaults for all options that aren't given.
    Create {
        node: u64,
        name: ServiceName,
        options: ServiceOptions,
        attributes: AttributeSpecifier,
        steps: Steps<StepBefore>,
    },
    /// Opens an existing service, if it meets the given options and requirements.
    Open {
        node: u64,
        name: ServiceName,
        options: ServiceOptions,
        requirements: AttributeVerifier,
        steps: Steps<StepBefore>,
    },
    /// Opens a service if it exists, and creates it otherwise.
    OpenOrCreate {
        node: u64,
        name: ServiceName,
        options: ServiceOptions,
        requirements: AttributeVerifier,
        steps: Steps<StepBefore>,
    },
    /// Does actions of other nodes.
    Foreign {
        pattern: MessagingPattern,
        name: ServiceName,
        steps: Steps<ForeignStep>,
    },
    /// Closes a factory.
    Close {
        factory: u64,
    },
    /// Creates a publisher of the factory's service.
    Publisher {
        factory: u64,
        options: PublisherOptions,
    },
    /// Creates a subscriber of the factory's service.
    Subscriber {
        factory: u64,
        options: SubscriberOptions,
    },
    /// Loans a slice of this length, filled with zeros.
    Loan {
        publisher: u64,
        length: u64,
    },
    /// Loans a slice of this length that isn't written.
    LoanUninit {
        publisher: u64,
        length: u64,
    },
    /// Writes one value into a written loan, at this place, counted from 0.
    Set {
        loan: u64,
        place: u64,
        value: T,
    },
    /// Writes all values of a loan.
    Fill {
        loan: u64,
        values: Values<'a, T>,
    },
    /// Drops a loan.
    Drop {
        loan: u64,
    },
    /// Sends a loan.
    Send {
        loan: u64,
    },
    /// Sends a message of these values.
    Put {
        publisher: u64,
        values: Values<'a, T>,
    },
    /// Tries a blocked send once more, this number of nanoseconds after its mailbox was first found full.
    Retry {
        publisher: u64,
        nanoseconds: u64,
    },
    /// Gives up a blocked send.
    GiveUp {
        publisher: u64,
    },
    /// Receives the next message, and holds it as a sample.
    Receive {
        subscriber: u64,
    },
    /// Reads a held sample.
    Read {
        sample: u64,
    },
    /// Asks for the sequence number of a sample's message.
    Sequence {
        sample: u64,
    },
    /// Releases a sample.
    Release {
        sample: u64,
    },
    /// Updates the connections of a port.
    Update {
        port: PortNumber,
    },
    /// Closes a port.
    Leave {
        port: PortNumber,
    },
    /// Asks whether messages wait for a subscriber.
    Has {
        subscriber: u64,
    },
}

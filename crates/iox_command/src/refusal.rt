//! Why a command failed: the error of the call that it makes.
ghost use Rattle.std.specs.Prelude.{◌≡◌};
ghost use Rattle.iox_command.specs.RefusalText.{hub_text, refusal_text};

use iox_domain_values::{
    ConnectionFailure, LoanError, PublisherCreateError, ReceiveError, SendError,
    SubscriberCreateError,
};
use iox_negotiate_base::errors::{
    CloseError, EventCreateError, EventOpenError, EventOpenOrCreateError,
    PublishSubscribeCreateError, PublishSubscribeOpenError, PublishSubscribeOpenOrCreateError,
    RequestResponseCreateError, RequestResponseOpenError, RequestResponseOpenOrCreateError,
};
use std::fmt;
use thiserror::Error;

/// Why no node could be created, or an action of another node couldn't be done. Not in `iceoryx2`.
#[derive(Clone, Copy, Debug, PartialEq, Eq, Hash, Error)]
#[error("{}", self.text())]
pub enum HubError {
    /// An allocation failed.
    OutOfMemory,
}

impl HubError {
    /// The text that the error displays as.
    pub fn text(&self) -> &'static str
        ensures { result.now ≡ hub_text self.now }
    {
        match self {
            HubError::OutOfMemory => "HubError::OutOfMemory",
        }
    }
}

/// Why a command failed: the error of the call that it makes. It displays as that error.
///
/// Not in `iceoryx2`.
#[derive(Clone, Copy, Debug, PartialEq, Eq, Error)]
pub enum Refusal {
    /// The error of creating a node, or of actions of other nodes.
    Hub(HubError),
    /// The error of `create`, for publish-subscribe.
    PublishSubscribeCreate(PublishSubscribeCreateError),
    /// The error of `open`, for publish-subscribe.
    PublishSubscribeOpen(PublishSubscribeOpenError),
    /// The error of `open_or_create`, for publish-subscribe.
    PublishSubscribeOpenOrCreate(PublishSubscribeOpenOrCreateError),
    /// The error of `create`, for events.
    EventCreate(EventCreateError),
    /// The error of `open`, for events.
    EventOpen(EventOpenError),
    /// The error of `open_or_create`, for events.
    EventOpenOrCreate(EventOpenOrCreateError),
    /// The error of `create`, for request-response.
    RequestResponseCreate(RequestResponseCreateError),
    /// The error of `open`, for request-response.
    RequestResponseOpen(RequestResponseOpenError),
    /// The error of `open_or_create`, for request-response.
    RequestResponseOpenOrCreate(RequestResponseOpenOrCreateError),
    /// The error of closing a factory.
    Close(CloseError),
    /// The error of creating a publisher.
    Publisher(PublisherCreateError),
    /// The error of creating a subscriber.
    Subscriber(SubscriberCreateError),
    /// The error of a loan.
    Loan(LoanError),
    /// The error of a send.
    Send(SendError),
    /// The error of a receive.
    Receive(ReceiveError),
    /// The error of an update, for a connection that failed.
    Connection(ConnectionFailure),
}

impl Refusal {
    /// The text of the error within.
    pub fn text(&self) -> &'static str
        ensures { result.now ≡ refusal_text self.now }
    {
        match self {
            Refusal::Hub(error) => error.text(),
            Refusal::PublishSubscribeCreate(error) => error.text(),
            Refusal::PublishSubscribeOpen(error) => error.text(),
            Refusal::PublishSubscribeOpenOrCreate(error) => error.text(),
            Refusal::EventCreate(error) => error.text(),
            Refusal::EventOpen(error) => error.text(),
            Refusal::EventOpenOrCreate(error) => error.text(),
            Refusal::RequestResponseCreate(error) => error.text(),
            Refusal::RequestResponseOpen(error) => error.text(),
            Refusal::RequestResponseOpenOrCreate(error) => error.text(),
            Refusal::Close(error) => error.text(),
            Refusal::Publisher(error) => error.text(),
            Refusal::Subscriber(error) => error.text(),
            Refusal::Loan(error) => error.text(),
            Refusal::Send(error) => error.text(),
            Refusal::Receive(error) => error.text(),
            Refusal::Connection(error) => error.text(),
        }
    }
}

impl fmt::Display for Refusal {
    ghost use Rattle.std.specs.Prelude.{Some};

    ghost output = { λ error. Some (refusal_text error) };

    fn fmt<W: fmt::Write>(&self, f: &mut fmt::Formatter<W>) -> fmt::Result {
        f.pad(self.text())
    }
}

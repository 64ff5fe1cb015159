//! Why a loan, a send or a receive fails.
ghost use Rattle.std.specs.Prelude.{◌≡◌};
ghost use Rattle.iox_domain_values.specs.ErrorTexts.{loan_text, send_text, receive_text};
ghost use Rattle.iox_domain_values.specs.declared.port_error.SendError.TheVariants as sending;
ghost use Rattle.iox_domain_values.specs.declared.port_error.ReceiveError.TheVariants as receiving;

use crate::connection_failure::{ConnectionFailure, ZeroCopyCreationError};
use thiserror::Error;

/// Why a loan couldn't be made.
///
/// Ported from `iceoryx2::port::LoanError`.
#[derive(Clone, Copy, Debug, PartialEq, Eq, Hash, Error)]
#[error("{}", self.text())]
pub enum LoanError {
    /// No slot is free, or a new segment couldn't be opened.
    OutOfMemory,
    /// The publisher has as many loans as its limit allows.
    ExceedsMaxLoans,
    /// The slice is longer than the publisher's slots.
    ExceedsMaxLoanSize,
    /// Something else failed. Never returned.
    InternalFailure,
}

impl LoanError {
    /// The text that `Display` prints.
    pub fn text(&self) -> &'static str
        ensures { result.now ≡ loan_text self.now }
    {
        match self {
            LoanError::OutOfMemory => "LoanError::OutOfMemory",
            LoanError::ExceedsMaxLoans => "LoanError::ExceedsMaxLoans",
            LoanError::ExceedsMaxLoanSize => "LoanError::ExceedsMaxLoanSize",
            LoanError::InternalFailure => "LoanError::InternalFailure",
        }
    }
}

/// Why a message couldn't be sent, or not to all subscribers.
///
/// Ported from `iceoryx2::port::SendError`.
#[derive(Clone, Copy, Debug, PartialEq, Eq, Hash, Error)]
#[error("{}", self.text())]
pub enum SendError {
    /// The publisher is closed.
    ConnectionBrokenSinceSenderNoLongerExists,
    /// A connection is corrupted. Never returned.
    ConnectionCorrupted,
    /// No slot could be loaned for the message.
    LoanError(LoanError),
    /// A subscriber couldn't be connected. Nothing is sent.
    ConnectionError(ConnectionFailure),
    /// The send skipped a full mailbox whose handler lets it fail. Mailboxes that took the message keep it.
    UnableToDeliver,
    /// The publisher's sequence numbers are used up: its last message has the number 2^64 - 1. The loan is dropped.
    InternalError,
}

impl SendError {
    /// The text that `Display` prints.
    pub fn text(&self) -> &'static str
        ensures { result.now ≡ send_text self.now }
    {
        match self {
            SendError::ConnectionBrokenSinceSenderNoLongerExists =>
                "SendError::ConnectionBrokenSinceSenderNoLongerExists",
            SendError::ConnectionCorrupted => "SendError::ConnectionCorrupted",
            SendError::LoanError(error) => send_text_of_loan(*error),
            SendError::ConnectionError(failure) => send_text_of_connection(*failure),
            SendError::UnableToDeliver => "SendError::UnableToDeliver",
            SendError::InternalError => "SendError::InternalError",
        }
    }
}

// The text of a send that couldn't loan a slot.
fn send_text_of_loan(error: LoanError) -> &'static str
    ensures { result.now ≡ send_text (sending.LoanError error) }
{
    match error {
        LoanError::OutOfMemory => "SendError::LoanError(OutOfMemory)",
        LoanError::ExceedsMaxLoans => "SendError::LoanError(ExceedsMaxLoans)",
        LoanError::ExceedsMaxLoanSize => "SendError::LoanError(ExceedsMaxLoanSize)",
        LoanError::InternalFailure => "SendError::LoanError(InternalFailure)",
    }
}

// The text of a send for which a connection failed.
fn send_text_of_connection(failure: ConnectionFailure) -> &'static str
    ensures { result.now ≡ send_text (sending.ConnectionError failure) }
{
    match failure {
        ConnectionFailure::FailedToEstablishConnection(ZeroCopyCreationError::OutOfMemory) =>
            "SendError::ConnectionError(FailedToEstablishConnection(OutOfMemory))",
        ConnectionFailure::FailedToEstablishConnection(
            ZeroCopyCreationError::ExpiredConnectionBufferFull,
        ) => "SendError::ConnectionError(FailedToEstablishConnection(ExpiredConnectionBufferFull))",
        ConnectionFailure::FailedToEstablishConnection(
            ZeroCopyCreationError::IncompatibleBufferSize,
        ) => "SendError::ConnectionError(FailedToEstablishConnection(IncompatibleBufferSize))",
        ConnectionFailure::UnableToMapSendersDataSegment =>
            "SendError::ConnectionError(UnableToMapSendersDataSegment)",
    }
}

impl From<LoanError> for SendError {
    ghost from_gives = { λ error made. made ≡ sending.LoanError error };

    fn from(error: LoanError) -> Self {
        SendError::LoanError(error)
    }
}

impl From<ConnectionFailure> for SendError {
    ghost from_gives = { λ failure made. made ≡ sending.ConnectionError failure };

    fn from(failure: ConnectionFailure) -> Self {
        SendError::ConnectionError(failure)
    }
}

/// Why no message could be received.
///
/// Ported from `iceoryx2::port::ReceiveError`.
#[derive(Clone, Copy, Debug, PartialEq, Eq, Hash, Error)]
#[error("{}", self.text())]
pub enum ReceiveError {
    /// Some connection has data, and of each such connection the subscriber holds as many samples as its limit allows.
    ExceedsMaxBorrows,
    /// A publisher couldn't be connected.
    ConnectionFailure(ConnectionFailure),
}

impl ReceiveError {
    /// The text that `Display` prints.
    pub fn text(&self) -> &'static str
        ensures { result.now ≡ receive_text self.now }
    {
        match self {
            ReceiveError::ExceedsMaxBorrows => "ReceiveError::ExceedsMaxBorrows",
            ReceiveError::ConnectionFailure(
                ConnectionFailure::FailedToEstablishConnection(ZeroCopyCreationError::OutOfMemory),
            ) => "ReceiveError::ConnectionFailure(FailedToEstablishConnection(OutOfMemory))",
            ReceiveError::ConnectionFailure(
                ConnectionFailure::FailedToEstablishConnection(
                    ZeroCopyCreationError::ExpiredConnectionBufferFull,
                ),
            ) =>
                "ReceiveError::ConnectionFailure(FailedToEstablishConnection(ExpiredConnectionBufferFull))",
            ReceiveError::ConnectionFailure(
                ConnectionFailure::FailedToEstablishConnection(
                    ZeroCopyCreationError::IncompatibleBufferSize,
                ),
            ) =>
                "ReceiveError::ConnectionFailure(FailedToEstablishConnection(IncompatibleBufferSize))",
            ReceiveError::ConnectionFailure(ConnectionFailure::UnableToMapSendersDataSegment) =>
                "ReceiveError::ConnectionFailure(UnableToMapSendersDataSegment)",
        }
    }
}

impl From<ConnectionFailure> for ReceiveError {
    ghost from_gives = { λ failure made. made ≡ receiving.ConnectionFailure failure };

    fn from(failure: ConnectionFailure) -> Self {
        ReceiveError::ConnectionFailure(failure)
    }
}

//! Why a call of a port in threads did nothing, or not all that it was asked.
use iox_lanes_base::calls::Delivery;
use thiserror::Error;

/// Why a publisher loaned no slot.
#[derive(Clone, Copy, Debug, PartialEq, Eq, Error)]
pub enum LoanError {
    /// The maximum number of loans is out.
    #[error("LoanError::ExceedsMaxLoans")]
    ExceedsMaxLoans,
    /// Each slot is in use.
    #[error("LoanError::OutOfMemory")]
    OutOfMemory,
    /// The port is inside a call, and stays there. This happens only where a write position came to 2^64 - 1.
    #[error("LoanError::InsideCall")]
    InsideCall,
}

/// Why a loan wasn't written.
#[derive(Clone, Copy, Debug, PartialEq, Eq, Error)]
pub enum WriteError {
    /// The port is inside a call, as for a loan.
    #[error("WriteError::InsideCall")]
    InsideCall,
    /// The loan isn't one of this port.
    #[error("WriteError::NotMine")]
    NotMine,
    /// The slots have values or user headers of another width: the port is one of another board that was opened with the same number.
    #[error("WriteError::OtherWidth")]
    OtherWidth,
}

/// Why a loan wasn't sent, or not to all connections.
#[derive(Clone, Copy, Debug, PartialEq, Eq, Error)]
pub enum SendError {
    /// The port is inside a call, as for a loan.
    #[error("SendError::InsideCall")]
    InsideCall,
    /// The loan isn't one of this port.
    #[error("SendError::NotMine")]
    NotMine,
    /// Nothing was written into the loan.
    #[error("SendError::NotWritten")]
    NotWritten,
    /// The publisher fails at a full mailbox, and a connection refused the message. The other connections took it.
    #[error("SendError::UnableToDeliver")]
    UnableToDeliver(Delivery),
}

/// Why a sample wasn't released.
#[derive(Clone, Copy, Debug, PartialEq, Eq, Error)]
pub enum ReleaseError {
    /// The sample isn't one of this port.
    #[error("ReleaseError::NotMine")]
    NotMine,
    /// The ring of samples that came back is full, so the sample is still borrowed. This happens only where a write position came to
    /// 2^64 - 1.
    #[error("ReleaseError::RingFull")]
    RingFull,
}

/// Why a subscriber took no message although one waits.
#[derive(Clone, Copy, Debug, PartialEq, Eq, Error)]
pub enum ReceiveError {
    /// From each connection with a waiting message the maximum number of samples is borrowed.
    #[error("ReceiveError::ExceedsMaxBorrows")]
    ExceedsMaxBorrows,
}

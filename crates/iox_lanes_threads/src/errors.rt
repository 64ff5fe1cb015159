//! Why lanes aren't opened for threads, and why their ports aren't ended.
use thiserror::Error;

/// Why lanes weren't opened for threads.
#[derive(Clone, Copy, Debug, PartialEq, Eq, Error)]
pub enum OpenError {
    /// A publisher or a subscriber is inside a call.
    #[error("OpenError::PartyInCall")]
    PartyInCall,
    /// A loan or a sample is out.
    #[error("OpenError::SamplesOut")]
    SamplesOut,
    /// The lanes made more than 2^63 steps; no theorem on lanes covers more. No program gets there.
    #[error("OpenError::TooManySteps")]
    TooManySteps,
    /// An allocation failed.
    #[error("OpenError::OutOfMemory")]
    OutOfMemory,
}

/// Why ports weren't ended.
#[derive(Clone, Copy, Debug, PartialEq, Eq, Error)]
pub enum EndError {
    /// A port of the board is missing, or a port belongs to another board.
    #[error("EndError::NotAllPorts")]
    NotAllPorts,
}

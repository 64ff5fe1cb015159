//! Why lanes don't become a domain.
use thiserror::Error;

/// Why lanes didn't become a domain.
///
/// Not in `iceoryx2`.
#[derive(Clone, Copy, Debug, PartialEq, Eq, Error)]
pub enum IntoDomainError {
    /// A publisher or a subscriber is inside a call.
    #[error("IntoDomainError::PartyInCall")]
    PartyInCall,
    /// No publisher or subscriber is inside a call, but a loan or a sample is out.
    #[error("IntoDomainError::SamplesOut")]
    SamplesOut,
}

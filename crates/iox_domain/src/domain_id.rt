//! The id of a domain.

/// The id of a domain.
#[derive(Clone, Copy, Debug, PartialEq, Eq)]
pub struct DomainId {
    /// The number of its hub; 0 if the domain belongs to none.
    pub hub: u64,
    /// The number of its service.
    pub service: u64,
}

//! The id of a port.
use iox_domain::DomainId;

/// The id of a port: its domain, and its number there.
#[derive(Clone, Copy, Debug, PartialEq, Eq)]
pub struct PortId {
    /// The domain.
    pub domain: DomainId,
    /// The number of the port in that domain.
    pub number: u64,
}

//! The owner and the identity of a port.

/// The owner of a port.
#[derive(Clone, Copy, Debug, PartialEq, Eq)]
pub struct PortOwner {
    /// The number of the owner, which in a hub is the factory that created the port. The ports, loans and samples of one owner are
    /// counted together.
    pub number: u64,
    /// The node in which the port was created.
    pub node_id: u64,
}

/// The identity of a port: its service, its number, its owner and its place.
#[derive(Clone, Copy, Debug, PartialEq, Eq)]
pub struct PortIdentity {
    /// The number of its service.
    pub service: u64,
    /// Its own number.
    pub number: u64,
    /// Its owner.
    pub owner: PortOwner,
    /// Its place in the list of the ports of its kind.
    pub place: usize,
}

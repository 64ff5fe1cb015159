//! The actions of other nodes.

use iox_describe::Description;

/// An action of a foreign node under a hash. If the action isn't possible, nothing changes.
#[derive(Drop)]
pub enum ForeignStep {
    /// If there is no entry under the hash, the node locks it.
    Lock { node: u64 },
    /// If the node has the lock, it releases the lock.
    GiveUp { node: u64 },
    /// If the node has the lock, and the description is within the limits and is of the service under this hash (by its pattern and its
    /// name, and as it states itself), the description is published and the node is registered.
    Publish { node: u64, description: Description },
    /// As `Publish`, with a line of version 1. The action isn't possible if the service numbers its messages, which such a line can't
    /// state.
    PublishV1 { node: u64, description: Description },
    /// If the service exists, and the node isn't registered and may be, it is registered.
    Register { node: u64 },
    /// If the node is registered, it leaves.
    Leave { node: u64 },
    /// If the node was the last to leave, it removes the description and the segment.
    Remove { node: u64 },
}

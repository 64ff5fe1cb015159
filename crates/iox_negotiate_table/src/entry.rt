//! The entry under a hash.

use crate::node::Node;
use iox_negotiate_base::StoredDescription;

/// The entry under a hash: a lock or a description.
#[derive(Drop)]
pub enum Entry {
    /// The node is about to create the service with this number.
    Locked {
        node: Node,
        number: u64,
    },
    /// The description of the service with this number.
    Described {
        number: u64,
        bytes: StoredDescription,
    },
}

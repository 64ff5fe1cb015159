//! Actions of other nodes between the storage operations of a command.
use crate::service::ServiceOptions;

/// One action of another node, with the number of that node. It acts on the pattern and the name of its command. An action that doesn't fit
/// changes nothing.
///
/// Not in `iceoryx2`.
#[derive(Clone, Copy)]
pub enum ForeignStep {
    /// If nothing is stored, the node locks.
    Lock(u64),
    /// If the node has the lock, it releases the lock.
    GiveUp(u64),
    /// If the node has the lock, and the adjusted settings are of the command's pattern and within the limits of a description,
    /// the node publishes a service with them, and registers in it.
    Publish(u64, ServiceOptions),
    /// Like `Publish`, but with the first version of descriptions, which has no setting for sequence numbers; so settings with
    /// sequence numbers don't fit.
    PublishV1(u64, ServiceOptions),
    /// If a service exists that has a place for one more node, and the node isn't registered in it, the node registers.
    Register(u64),
    /// If the node is registered, it leaves.
    Leave(u64),
    /// If the node was the last to leave, it removes the service.
    Remove(u64),
}

/// An action of another node that is done before this storage operation of a command. Operations are counted from 1.
///
/// Not in `iceoryx2`.
#[derive(Clone, Copy)]
pub struct StepBefore {
    /// The number of the storage operation.
    pub access: u64,
    /// The action that is done before it.
    pub step: ForeignStep,
}

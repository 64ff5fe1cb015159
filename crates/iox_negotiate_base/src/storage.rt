//! The storage of services, which nodes read and write to agree on a service.
ghost use Rattle.std.specs.Prelude.{◌≡◌, ℕ};
ghost use Rattle.iox_negotiate_base.specs.Access.{Access, Look, Lock, MakeSegment, Publish, Unlock, OpenSegment, Leave};
ghost use Rattle.iox_negotiate_base.specs.Access.{RemoveDescription, RemoveSegment};

use crate::answer::{
    LeaveAnswer, LockAnswer, LookAnswer, MakeSegmentAnswer, OpenSegmentAnswer, PublishAnswer,
    RemoveAnswer, StoredDescription,
};
use iox_describe::ServiceHash;

/// A storage of services. A description and its lock are stored under the hash of the service; a segment, in which nodes are registered, is
/// stored under the hash and the number of the service.
///
/// A storage may return any result for any storage operation. What an implementation guarantees of its results is its `gives`.
///
/// Ported from `iceoryx2::service::{static_storage, dynamic_config}`, as one interface.
pub trait Storage {
    // the id that distinguishes storages
    ghost id: { Self → ℕ };

    // what a storage operation with this result may have made of the storage
    ghost gives: { Self → Access → Self → Type 0 };

    /// The id that distinguishes storages.
    fn id(&self) -> u64
        ensures { result ≡ id self.now };

    /// Looks up the description under a hash.
    fn look(&mut self, hash: &ServiceHash) -> LookAnswer
        ensures { gives self.old (Look hash.now result) self.new };

    /// Locks a hash for a node that is about to create the service.
    fn lock(&mut self, hash: &ServiceHash, node: u64) -> LockAnswer
        ensures { gives self.old (Lock hash.now node result) self.new };

    /// Makes the segment of a service for at most `max_nodes` nodes, and registers the node in it.
    fn make_segment(
        &mut self,
        hash: &ServiceHash,
        number: u64,
        node: u64,
        max_nodes: u64,
    ) -> MakeSegmentAnswer
        ensures { gives self.old (MakeSegment hash.now number node max_nodes result) self.new };

    /// Publishes the description of a service, which ends its lock.
    fn publish(
        &mut self,
        hash: &ServiceHash,
        number: u64,
        bytes: StoredDescription,
    ) -> PublishAnswer
        ensures { gives self.old (Publish hash.now number bytes result) self.new };

    /// Releases a lock.
    fn unlock(&mut self, hash: &ServiceHash, number: u64)
        ensures { gives self.old (Unlock hash.now number) self.new };

    /// Registers a node in the segment of a service.
    fn open_segment(&mut self, hash: &ServiceHash, number: u64, node: u64) -> OpenSegmentAnswer
        ensures { gives self.old (OpenSegment hash.now number node result) self.new };

    /// Removes one factory of a node from a segment.
    fn leave(&mut self, hash: &ServiceHash, number: u64, node: u64) -> LeaveAnswer
        ensures { gives self.old (Leave hash.now number node result) self.new };

    /// Removes the description of a service.
    fn remove_description(&mut self, hash: &ServiceHash, number: u64) -> RemoveAnswer
        ensures { gives self.old (RemoveDescription hash.now number result) self.new };

    /// Removes the segment of a service.
    fn remove_segment(&mut self, hash: &ServiceHash, number: u64) -> RemoveAnswer
        ensures { gives self.old (RemoveSegment hash.now number result) self.new };
}

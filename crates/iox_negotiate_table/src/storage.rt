//! The table as a storage.

use crate::entry::Entry;
use crate::node::Node;
use crate::registry::Registry;
use crate::segment::Segment;
use crate::table::Table;
use iox_describe::ServiceHash;
use iox_negotiate_base::{
    LeaveAnswer, LockAnswer, LookAnswer, MakeSegmentAnswer, OpenSegmentAnswer, PublishAnswer,
    RemoveAnswer, Storage, StoredDescription,
};

impl Storage for Table {
    ghost use Rattle.iox_negotiate_table.specs.Sights.{Sight};

    ghost id = { λ table. table.id };

    ghost gives = { Sight };

    fn id(&self) -> u64 {
        self.id
    }

    fn look(&mut self, hash: &ServiceHash) -> LookAnswer {
        let Some(entry) = self.entries.get(&hash.digest) else {
            return LookAnswer::Absent;
        };
        let Entry::Described { number, bytes } = entry else {
            return LookAnswer::Locked;
        };
        match bytes.try_clone(self.alloc) {
            Ok(bytes) => LookAnswer::Found {
                number: *number,
                bytes,
            },
            Err(_) => LookAnswer::OutOfMemory,
        }
    }

    fn lock(&mut self, hash: &ServiceHash, node: u64) -> LockAnswer {
        self.lock_for(hash, Node::Own(node))
    }

    fn make_segment(
        &mut self,
        hash: &ServiceHash,
        number: u64,
        node: u64,
        max_nodes: u64,
    ) -> MakeSegmentAnswer {
        if !self.may_make(hash, number, node, max_nodes) {
            return MakeSegmentAnswer::Fault;
        }
        let Ok(registry) = Registry::of_node(self.alloc, node, max_nodes) else {
            return MakeSegmentAnswer::OutOfMemory;
        };
        match self.insert_segment(hash, number, Segment::Open(registry)) {
            Ok(()) => MakeSegmentAnswer::Made,
            Err(_) => MakeSegmentAnswer::OutOfMemory,
        }
    }

    fn publish(
        &mut self,
        hash: &ServiceHash,
        number: u64,
        bytes: StoredDescription,
    ) -> PublishAnswer {
        if !self.may_publish(hash, number) {
            return PublishAnswer::Fault;
        }
        self.set_description(hash, number, bytes);
        PublishAnswer::Published
    }

    fn unlock(&mut self, hash: &ServiceHash, number: u64) {
        if self.may_unlock(hash, number) {
            let _ = self.entries.remove(&hash.digest);
        }
    }

    fn open_segment(&mut self, hash: &ServiceHash, number: u64, node: u64) -> OpenSegmentAnswer {
        if !self.is_published(hash, number) {
            if self.is_left(hash, number) {
                return OpenSegmentAnswer::Marked;
            }
            return OpenSegmentAnswer::Absent;
        }
        self.open_published(hash, number, node)
    }

    fn leave(&mut self, hash: &ServiceHash, number: u64, node: u64) -> LeaveAnswer {
        if !self.is_published(hash, number) {
            return LeaveAnswer::Stays;
        }
        self.leave_published(hash, number, node)
    }

    fn remove_description(&mut self, hash: &ServiceHash, number: u64) -> RemoveAnswer {
        if !self.is_published(hash, number) || !self.is_left(hash, number) {
            return RemoveAnswer::Fault;
        }
        let _ = self.entries.remove(&hash.digest);
        RemoveAnswer::Removed
    }

    fn remove_segment(&mut self, hash: &ServiceHash, number: u64) -> RemoveAnswer {
        if self.is_published(hash, number) {
            return RemoveAnswer::Fault;
        }
        match self.segments.remove(&(hash.digest, number)) {
            Some(_) => RemoveAnswer::Removed,
            None => RemoveAnswer::Fault,
        }
    }
}

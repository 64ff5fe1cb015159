//! The table of services.
ghost use Rattle.std.specs.Prelude.{◌≡◌, ◌-◌, ◌^◌, is_some, option_copied, IsSome, OnOk, OnErr, nat_eq};
ghost use Rattle.iox_negotiate_table.specs.Contents.{entry_at, with_entry, with_new_segment, segment_at, may_make, may_publish};
ghost use Rattle.iox_negotiate_table.specs.Contents.{may_unlock, is_published, is_own_lock, is_lock_of, is_left};
ghost use Rattle.iox_negotiate_table.specs.declared.entry.Entry.TheVariants.{Described};
ghost use Rattle.iox_negotiate_table.specs.Sights.{Locks, LocksFree, OpensPublished, LeavesPublished};

use crate::entry::Entry;
use crate::node::Node;
use crate::segment::Segment;
use iox_describe::ServiceHash;
use iox_negotiate_base::{LeaveAnswer, LockAnswer, OpenSegmentAnswer, StoredDescription};
use std::alloc::{AllocError, Global};
use std::collections::BTreeMap;
use std::marker::Model;

/// All services: descriptions and locks under their hashes, and segments under hash and number.
///
/// Ported from the services of `iceoryx2::service`, as one value.
pub struct Table {
    pub(crate) alloc: Global,
    pub(crate) id: u64,
    pub(crate) next: u64,
    pub(crate) entries: BTreeMap<[u8; 20], Entry>,
    pub(crate) segments: BTreeMap<([u8; 20], u64), Segment>,
}

/// Stated once here, so that crates above don't have to prove it again.
impl Drop for Table {
    fn drop(self) {
        let Table {
            alloc: _,
            id: _,
            next: _,
            entries: _,
            segments: _,
        } = self;
    }
}

impl Model for Table {
    ghost use Rattle.iox_negotiate_table.specs.Contents.{Contents};

    ghost Value = { Contents };

    ghost view = { λ t. record { id = t.id; next = t.next; entries = t.entries.entries; segments = t.segments.entries } };
}

impl Table {
    ghost use Rattle.iox_negotiate_table.specs.Contents.{empty_table};

    /// An empty table with this id. It doesn't allocate; the first lock gets the number 1.
    pub fn new(alloc: Global, id: u64) -> Self
        ensures { result ≡ empty_table id }
    {
        Table {
            alloc,
            id,
            next: 1,
            entries: BTreeMap::new(alloc),
            segments: BTreeMap::new(alloc),
        }
    }

    /// The lock or the description under a hash, if there is one.
    ///
    /// Example: `let is_free = table.entry(&hash).is_none();`
    pub fn entry(&self, hash: &ServiceHash) -> Option<&Entry>
        ensures { option_copied result ≡ entry_at hash.now self.now }
    {
        self.entries.get(&hash.digest)
    }

    // Whether an own node may make the segment.
    pub(crate) fn may_make(
        &self,
        hash: &ServiceHash,
        number: u64,
        node: u64,
        max_nodes: u64,
    ) -> bool
        ensures { result ≡ may_make hash.now number node max_nodes self.now }
    {
        self.has_lock_of(hash, number, node) && !self.has_segment(hash, number) && max_nodes > 0
    }

    // Whether an own node has the lock with this number.
    fn has_own_lock(&self, hash: &ServiceHash, number: u64) -> bool
        ensures { result ≡ is_own_lock number (entry_at hash.now self.now) }
    {
        match self.entries.get(&hash.digest) {
            Some(
                Entry::Locked {
                    node: Node::Own(_),
                    number: at,
                },
            ) => *at == number,
            _ => false,
        }
    }

    // Whether this own node has the lock with this number.
    fn has_lock_of(&self, hash: &ServiceHash, number: u64, node: u64) -> bool
        ensures { result ≡ is_lock_of node number (entry_at hash.now self.now) }
    {
        match self.entries.get(&hash.digest) {
            Some(
                Entry::Locked {
                    node: Node::Own(by),
                    number: at,
                },
            ) => *by == node && *at == number,
            _ => false,
        }
    }

    // Whether the segment exists.
    pub(crate) fn has_segment(&self, hash: &ServiceHash, number: u64) -> bool
        ensures { result ≡ is_some (segment_at hash.now number self.now) }
    {
        self.segments.contains_key(&(hash.digest, number))
    }

    // Whether an own node may publish the description.
    pub(crate) fn may_publish(&self, hash: &ServiceHash, number: u64) -> bool
        ensures { result ≡ may_publish hash.now number self.now }
    {
        self.has_own_lock(hash, number) && self.has_segment(hash, number)
    }

    // Whether the lock of an own node may be released.
    pub(crate) fn may_unlock(&self, hash: &ServiceHash, number: u64) -> bool
        ensures { result ≡ may_unlock hash.now number self.now }
    {
        self.has_own_lock(hash, number) && !self.has_segment(hash, number)
    }

    // Whether the description of this service exists.
    pub(crate) fn is_published(&self, hash: &ServiceHash, number: u64) -> bool
        ensures { result ≡ is_published hash.now number self.now }
    {
        match self.entries.get(&hash.digest) {
            Some(Entry::Described { number: at, .. }) => *at == number,
            _ => false,
        }
    }

    // Whether the segment exists and its last node left.
    pub(crate) fn is_left(&self, hash: &ServiceHash, number: u64) -> bool
        ensures { result ≡ is_left (segment_at hash.now number self.now) }
    {
        match self.segments.get(&(hash.digest, number)) {
            Some(segment) => segment.is_emptied(),
            None => false,
        }
    }

    // Locks a hash for a node.
    pub(crate) fn lock_for(&mut self, hash: &ServiceHash, node: Node) -> LockAnswer
        ensures { Locks hash.now node self.old result self.new }
    {
        match self.entries.get(&hash.digest) {
            Some(Entry::Locked { .. }) => LockAnswer::IsLocked,
            Some(Entry::Described { .. }) => LockAnswer::Exists,
            None => self.lock_free(hash, node),
        }
    }

    // Locks a hash that has no entry.
    fn lock_free(&mut self, hash: &ServiceHash, node: Node) -> LockAnswer
        ensures { LocksFree (nat_eq self.old.next (2 ^ 64 - 1)) hash.now node self.old result self.new }
    {
        if self.next == u64::MAX {
            return LockAnswer::Fault;
        }
        let number = self.next;
        match self
            .entries
            .insert(hash.digest, Entry::Locked { node, number })
        {
            Ok(_) => {
                self.next += 1;
                LockAnswer::Taken(number)
            }
            Err(_) => LockAnswer::OutOfMemory,
        }
    }

    // Adds the segment of a service that has none.
    pub(crate) fn insert_segment(
        &mut self,
        hash: &ServiceHash,
        number: u64,
        segment: Segment,
    ) -> Result<(), AllocError>
        ensures ok { OnOk result (self.new ≡ with_new_segment hash.now number segment self.old) }
        ensures err { OnErr result (self.new ≡ self.old) }
    {
        self.segments.insert((hash.digest, number), segment)?;
        Ok(())
    }

    // Replaces the lock by the description.
    pub(crate) fn set_description(
        &mut self,
        hash: &ServiceHash,
        number: u64,
        bytes: StoredDescription,
    )
        requires { IsSome (entry_at hash.now self.old) }
        ensures { self.new ≡ with_entry hash.now (Described number bytes) self.old }
    {
        let Some(entry) = self.entries.get_mut(&hash.digest) else {
            return;
        };
        *entry = Entry::Described { number, bytes };
    }

    // Opens the segment of a service whose description exists.
    pub(crate) fn open_published(
        &mut self,
        hash: &ServiceHash,
        number: u64,
        node: u64,
    ) -> OpenSegmentAnswer
        ensures { OpensPublished (segment_at hash.now number self.old) hash.now number node self.old result self.new }
    {
        let Some(segment) = self.segments.get_mut(&(hash.digest, number)) else {
            return OpenSegmentAnswer::Absent;
        };
        segment.open(node)
    }

    // Removes a factory of a node from the segment of a service whose description exists.
    pub(crate) fn leave_published(
        &mut self,
        hash: &ServiceHash,
        number: u64,
        node: u64,
    ) -> LeaveAnswer
        ensures { LeavesPublished (segment_at hash.now number self.old) hash.now number node self.old result self.new }
    {
        let Some(segment) = self.segments.get_mut(&(hash.digest, number)) else {
            return LeaveAnswer::Stays;
        };
        segment.leave(node)
    }
}

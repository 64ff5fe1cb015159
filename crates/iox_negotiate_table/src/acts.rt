//! The actions of other nodes on a table.
ghost use Rattle.std.specs.Prelude.{Ok, ◌≡◌, ◌↔◌, ◌-◌, ◌^◌, ◌&&◌, IsTrue, OnOk, OnErr, IsSome, OnSome, nat_eq, not, is_some};
ghost use Rattle.iox_negotiate_table.specs.declared.node.Node.TheVariants.{Foreign};
ghost use Rattle.iox_negotiate_table.specs.Contents.{entry_at, segment_at, with_lock, without_entry};
ghost use Rattle.iox_negotiate_table.specs.Foreign.{Acts, DoneOrLacking, Done, foreign_lock, published_number, IsFor, PublishesForeign};
ghost use Rattle.iox_negotiate_table.specs.Foreign.{with_service, RegistersAt, RegistersForeign, left_at, after_leaving, is_left_by};
ghost use Rattle.iox_negotiate_table.specs.Foreign.{after_removal};
ghost use Rattle.iox_negotiate_base.specs.DescribeSettings.Versions.{HasAll};

use crate::entry::Entry;
use crate::node::Node;
use crate::registry::Registry;
use crate::segment::Segment;
use crate::step::ForeignStep;
use crate::table::Table;
use iox_describe::{Description, ServiceHash, Version, has_all, is_within_limits, service_hash};
use iox_negotiate_base::{LockAnswer, StoredDescription};
use std::alloc::AllocError;

impl Table {
    /// Makes a foreign node's action under a hash. If the action isn't possible, nothing changes. If an allocation fails, nothing
    /// changes, and the call returns the error.
    pub fn act(&mut self, hash: &ServiceHash, step: &ForeignStep) -> Result<(), AllocError>
        ensures { Acts hash.now step.now self.old result self.new }
    {
        match step {
            ForeignStep::Lock { node } => self.lock_foreign(hash, *node),
            ForeignStep::GiveUp { node } => {
                self.give_up(hash, *node);
                Ok(())
            }
            ForeignStep::Publish { node, description } => {
                self.publish_foreign(Version::Two, hash, *node, description)
            }
            ForeignStep::PublishV1 { node, description } => {
                self.publish_foreign(Version::One, hash, *node, description)
            }
            ForeignStep::Register { node } => self.register(hash, *node),
            ForeignStep::Leave { node } => {
                self.leave_foreign(hash, *node);
                Ok(())
            }
            ForeignStep::Remove { node } => {
                self.remove(hash, *node);
                Ok(())
            }
        }
    }

    fn lock_foreign(&mut self, hash: &ServiceHash, node: u64) -> Result<(), AllocError>
        ensures { DoneOrLacking (not (is_some (entry_at hash.now self.old))
            && not (nat_eq self.old.next (2 ^ 64 - 1))) (with_lock hash.now (Foreign node) self.old) self.old result self.new }
    {
        match self.lock_for(hash, Node::Foreign(node)) {
            LockAnswer::OutOfMemory => Err(AllocError),
            _ => Ok(()),
        }
    }

    // The number of the lock that this foreign node has, if it has one.
    fn foreign_lock(&self, hash: &ServiceHash, node: u64) -> Option<u64>
        ensures value { result ≡ foreign_lock node (entry_at hash.now self.now) }
        ensures stands { OnSome result (IsSome (entry_at hash.now self.now)) }
    {
        match self.entries.get(&hash.digest) {
            Some(
                Entry::Locked {
                    node: Node::Foreign(by),
                    number,
                },
            ) if *by == node => Some(*number),
            _ => None,
        }
    }

    fn give_up(&mut self, hash: &ServiceHash, node: u64)
        ensures { Done (is_some (foreign_lock node (entry_at hash.now self.old))) (without_entry hash.now self.old) self.old (Ok tt)
            self.new }
    {
        if self.foreign_lock(hash, node).is_some() {
            let _ = self.entries.remove(&hash.digest);
        }
    }

    fn publish_foreign(
        &mut self,
        version: Version,
        hash: &ServiceHash,
        node: u64,
        description: &Description,
    ) -> Result<(), AllocError>
        ensures { PublishesForeign version (foreign_lock node (entry_at hash.now self.old)) hash.now node description.now self.old result
            self.new }
    {
        let Some(number) = self.foreign_lock(hash, node) else {
            return Ok(());
        };
        if !is_for(version, hash, description) {
            return Ok(());
        }
        self.publish_at(version, hash, number, node, description)
    }

    // Replaces the lock of the foreign node by its service's description, and adds the segment.
    fn publish_at(
        &mut self,
        version: Version,
        hash: &ServiceHash,
        number: u64,
        node: u64,
        description: &Description,
    ) -> Result<(), AllocError>
        requires stands { IsSome (entry_at hash.now self.old) }
        requires whole { HasAll version description.now.settings }
        ensures ok { OnOk result (self.new ≡ with_service version hash.now number node description.now self.old) }
        ensures err { OnErr result (self.new ≡ self.old) }
    {
        let bytes = StoredDescription::encode(self.alloc, version, description)?;
        let registry = Registry::of_foreign(self.alloc, node, description.max_nodes())?;
        self.insert_segment(hash, number, Segment::Open(registry))?;
        self.set_description(hash, number, bytes);
        Ok(())
    }

    // The number of the service whose description exists, if one does.
    fn published_number(&self, hash: &ServiceHash) -> Option<u64>
        ensures { result ≡ published_number (entry_at hash.now self.now) }
    {
        match self.entries.get(&hash.digest) {
            Some(Entry::Described { number, .. }) => Some(*number),
            _ => None,
        }
    }

    fn register(&mut self, hash: &ServiceHash, node: u64) -> Result<(), AllocError>
        ensures { RegistersForeign (published_number (entry_at hash.now self.old)) hash.now node self.old result self.new }
    {
        match self.published_number(hash) {
            Some(number) => self.register_at(hash, number, node),
            None => Ok(()),
        }
    }

    fn register_at(&mut self, hash: &ServiceHash, number: u64, node: u64) -> Result<(), AllocError>
        ensures { RegistersAt (segment_at hash.now number self.old) hash.now number node self.old result self.new }
    {
        let Some(segment) = self.segments.get_mut(&(hash.digest, number)) else {
            return Ok(());
        };
        segment.register(node)
    }

    fn leave_foreign(&mut self, hash: &ServiceHash, node: u64)
        ensures { self.new ≡ after_leaving (published_number (entry_at hash.now self.old)) hash.now node self.old }
    {
        if let Some(number) = self.published_number(hash) {
            self.leave_at(hash, number, node);
        }
    }

    fn leave_at(&mut self, hash: &ServiceHash, number: u64, node: u64)
        ensures { self.new ≡ left_at (segment_at hash.now number self.old) hash.now number node self.old }
    {
        let Some(segment) = self.segments.get_mut(&(hash.digest, number)) else {
            return;
        };
        segment.take_out(node);
    }

    // Whether this foreign node was the last to leave the segment.
    fn is_left_by(&self, hash: &ServiceHash, number: u64, node: u64) -> bool
        ensures { result ≡ is_left_by node (segment_at hash.now number self.now) }
    {
        match self.segments.get(&(hash.digest, number)) {
            Some(segment) => segment.is_emptied_by(node),
            None => false,
        }
    }

    fn remove(&mut self, hash: &ServiceHash, node: u64)
        ensures { self.new ≡ after_removal (published_number (entry_at hash.now self.old)) hash.now node self.old }
    {
        let Some(number) = self.published_number(hash) else {
            return;
        };
        if !self.is_left_by(hash, number, node) {
            return;
        }
        let _ = self.entries.remove(&hash.digest);
        let _ = self.segments.remove(&(hash.digest, number));
    }
}

// Whether the description is within the limits, and is of the service with this hash. A description that was read may state the hash of a
// service other than its own.
fn is_for(version: Version, hash: &ServiceHash, description: &Description) -> bool
    ensures { IsTrue result ↔ IsFor version hash.now description.now }
{
    is_within_limits(description)
        && *description.service_hash() == *hash
        && service_hash(description.pattern(), description.name()) == *hash
        && has_all(version, description.settings())
}

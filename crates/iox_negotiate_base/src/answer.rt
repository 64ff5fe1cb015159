//! The results of storage operations.
ghost use Rattle.std.specs.Prelude.{◌≡◌, IfOk, MatchResult};
ghost use Rattle.iox_describe.specs.DescribeSettings.Versions.{HasAll};
ghost use Rattle.iox_describe.specs.Line.{line};
ghost use Rattle.iox_negotiate_base.specs.Describing.{Describes};

use crate::boxed::BoxedDescription;
use iox_describe::{Description, ServiceHash, Version, encode_as, is_within_limits};
use std::alloc::{AllocError, Global};
use std::marker::Model;

/// The bytes of a stored description. Contracts see the list of bytes.
///
/// If the bytes were encoded here, the description is kept beside them, so that nobody has to decode them.
#[derive(Drop)]
pub struct StoredDescription {
    bytes: Vec<u8>,
    // In memory of its own, since it is large and bytes that came from elsewhere have none.
    decoded: Option<BoxedDescription>,
}

impl Model for StoredDescription {
    ghost use Rattle.std.specs.Prelude.{ℕ, List, IfSome};
    ghost use Rattle.iox_negotiate_base.specs.Describing.{Describes};

    ghost Value = { List ℕ };

    ghost view = { λ d. d.bytes.items };

    ghost invariant = { λ d. IfSome d.decoded (λ kept. Describes kept.service_hash d.bytes.items kept) };
}

impl StoredDescription {
    /// A stored description with these bytes, which need not be valid.
    pub fn new(bytes: Vec<u8>) -> Self
        ensures { result ≡ bytes.items }
    {
        StoredDescription {
            bytes,
            decoded: None,
        }
    }

    /// The line of this version that encodes a description. It fails only where an allocation fails.
    ///
    /// Example: `let stored = StoredDescription::encode(alloc, Version::Two, &description)?;`
    pub fn encode(
        alloc: Global,
        version: Version,
        description: &Description,
    ) -> Result<Self, AllocError>
        requires { HasAll version description.now.settings }
        ensures { IfOk result (λ stored. stored ≡ line version description.now) }
    {
        let bytes = encode_as(alloc, version, description)?;
        let mut decoded = None;
        if is_within_limits(description) {
            decoded = Some(BoxedDescription::copy_of(alloc, description)?);
        }
        Ok(StoredDescription { bytes, decoded })
    }

    /// A copy in memory of its own. It fails only where an allocation fails.
    ///
    /// Example: `let copy = stored.try_clone(alloc)?;`
    pub fn try_clone(&self, alloc: Global) -> Result<Self, AllocError>
        ensures { IfOk result (λ copy. copy ≡ self.now) }
    {
        let bytes = Vec::from_slice(alloc, self.bytes.as_slice())?;
        let mut decoded = None;
        if let Some(description) = &self.decoded {
            decoded = Some(BoxedDescription::copy_of(alloc, description.get())?);
        }
        Ok(StoredDescription { bytes, decoded })
    }

    /// The bytes.
    pub fn as_bytes(&self) -> &[u8]
        ensures { result.now ≡ self.now }
    {
        self.bytes.as_slice()
    }

    // The description that is kept beside the bytes, if it is of the service with this hash; else the bytes, as they were.
    pub(crate) fn into_decoded_under(self, hash: &ServiceHash) -> Result<BoxedDescription, Self>
        ensures { MatchResult result (λ description. Describes hash.now self description) (λ same. same ≡ self) }
    {
        let StoredDescription { bytes, decoded } = self;
        match decoded {
            Some(kept) => {
                if *kept.get().service_hash() == *hash {
                    return Ok(kept);
                }
                Err(StoredDescription {
                    bytes,
                    decoded: Some(kept),
                })
            }
            None => Err(StoredDescription {
                bytes,
                decoded: None,
            }),
        }
    }
}

/// The result of looking up the description under a hash.
#[derive(Drop)]
pub enum LookAnswer {
    /// There is no description and no lock.
    Absent,
    /// A node has locked the hash and is about to create the service.
    Locked,
    /// There is a description: its bytes, and the number of its service.
    Found {
        number: u64,
        bytes: StoredDescription,
    },
    /// The caller may not read the description.
    Denied,
    /// The stored data can't be read.
    Broken,
    /// Memory ran out.
    OutOfMemory,
}

/// The result of locking a hash, after which only the caller may create its service.
#[derive(Clone, Copy, PartialEq, Eq)]
pub enum LockAnswer {
    /// The caller has the lock, and the service to be created has this number.
    Taken(u64),
    /// Another node has the lock.
    IsLocked,
    /// There is a description already.
    Exists,
    /// The caller may not lock the hash.
    Denied,
    /// The storage operation failed.
    Fault,
    /// Memory ran out.
    OutOfMemory,
}

/// The result of making the segment of a service, in which its nodes are registered.
#[derive(Clone, Copy, PartialEq, Eq)]
pub enum MakeSegmentAnswer {
    /// The segment exists now, and the caller is registered in it.
    Made,
    /// The storage operation failed.
    Fault,
    /// Memory ran out.
    OutOfMemory,
}

/// The result of publishing a description.
#[derive(Clone, Copy, PartialEq, Eq)]
pub enum PublishAnswer {
    /// The description exists now, and the lock has ended.
    Published,
    /// The storage operation failed.
    Fault,
    /// Memory ran out.
    OutOfMemory,
}

/// The result of opening the segment of a service.
#[derive(Clone, Copy, PartialEq, Eq)]
pub enum OpenSegmentAnswer {
    /// The caller is registered.
    Registered,
    /// There is no such segment.
    Absent,
    /// The last node left the segment, so the service is about to be removed.
    Marked,
    /// The maximum number of nodes is registered, and the caller isn't one of them.
    Full,
    /// The caller may not open the segment.
    Denied,
    /// The storage operation failed.
    Fault,
    /// Memory ran out.
    OutOfMemory,
}

/// The result of removing one factory of a node from a segment.
#[derive(Clone, Copy, PartialEq, Eq)]
pub enum LeaveAnswer {
    /// A node is still registered.
    Stays,
    /// The caller was the last node, and has to remove the service.
    Emptied,
}

/// The result of removing a description or a segment.
#[derive(Clone, Copy, PartialEq, Eq)]
pub enum RemoveAnswer {
    /// The description or the segment is removed.
    Removed,
    /// The storage operation failed.
    Fault,
}

//! What a lookup of a service shows.
ghost use Rattle.std.specs.Prelude.{◌≡◌};
ghost use Rattle.iox_negotiate_base.specs.Sight.{IsSight, IsRead};

use crate::answer::{LookAnswer, StoredDescription};
use crate::boxed::BoxedDescription;
use iox_describe::{DescriptionError, ServiceHash, decode};
use std::alloc::Global;

/// What a lookup shows of a service.
#[derive(Drop)]
pub enum Sight {
    /// The service doesn't exist.
    Absent,
    /// The service with this number and this description exists.
    Standing {
        number: u64,
        description: BoxedDescription,
    },
    /// The lookup doesn't show whether the service exists.
    Failed(SightFailure),
}

/// Why a lookup doesn't show whether the service exists.
#[derive(Clone, Copy)]
pub enum SightFailure {
    /// Another node has the lock, and is about to create the service.
    HangsInCreation,
    /// The node may not read the description.
    InsufficientPermissions,
    /// The stored data isn't a description of this service.
    ServiceInCorruptedState,
    /// Memory ran out.
    OutOfMemory,
}

/// What the result of a lookup of this hash shows.
pub fn shown(alloc: Global, hash: &ServiceHash, answer: LookAnswer) -> Sight
    ensures { IsSight hash.now answer result }
{
    match answer {
        LookAnswer::Absent => Sight::Absent,
        LookAnswer::Locked => Sight::Failed(SightFailure::HangsInCreation),
        LookAnswer::Found { number, bytes } => standing(alloc, hash, number, bytes),
        LookAnswer::Denied => Sight::Failed(SightFailure::InsufficientPermissions),
        LookAnswer::Broken => Sight::Failed(SightFailure::ServiceInCorruptedState),
        LookAnswer::OutOfMemory => Sight::Failed(SightFailure::OutOfMemory),
    }
}

// What these bytes show, which were found under this hash.
fn standing(alloc: Global, hash: &ServiceHash, number: u64, bytes: StoredDescription) -> Sight
    ensures { IsRead hash.now number bytes result }
{
    match bytes.into_decoded_under(hash) {
        Ok(description) => Sight::Standing {
            number,
            description,
        },
        Err(bytes) => decoded(alloc, hash, number, bytes.as_bytes()),
    }
}

// What these bytes show once they are decoded.
fn decoded(alloc: Global, hash: &ServiceHash, number: u64, bytes: &[u8]) -> Sight
    ensures { IsRead hash.now number bytes.now result }
{
    match decode(alloc, bytes) {
        Ok(description) => {
            if *description.service_hash() != *hash {
                return Sight::Failed(SightFailure::ServiceInCorruptedState);
            }
            match BoxedDescription::new(alloc, description) {
                Ok(description) => Sight::Standing {
                    number,
                    description,
                },
                Err(_) => Sight::Failed(SightFailure::OutOfMemory),
            }
        }
        Err(DescriptionError::Invalid | DescriptionError::NotInVersion1) => Sight::Failed(
            SightFailure::ServiceInCorruptedState,
        ),
        Err(DescriptionError::OutOfMemory) => Sight::Failed(SightFailure::OutOfMemory),
    }
}

//! Creates a service under a lock, or undoes the creation.
ghost use Rattle.std.specs.Prelude.{◌≡◌, IfOk};
ghost use Rattle.iox_describe.specs.Line.{line};
ghost use Rattle.iox_describe.specs.DescribeSettings.declared.description.Version.TheVariants.{Two};
ghost use Rattle.iox_negotiate_base.specs.Runs.{Does};
ghost use Rattle.iox_negotiate_base.specs.Creating.{Unlocks, Undoes, PublishGoes, Publishes, MakeGoes, Makes, LockGoes, Locks};
ghost use Rattle.iox_negotiate_base.specs.Failing.{refusal_seen, lock_gives, making_failure, publishing_failure, created};
ghost use Rattle.iox_negotiate_base.specs.declared.failure.CreateFailure.TheVariants.{OutOfMemory};

use crate::answer::{LockAnswer, MakeSegmentAnswer, PublishAnswer, StoredDescription};
use crate::boxed::BoxedDescription;
use crate::failure::CreateFailure;
use crate::request::{Opened, Request};
use crate::sight::{Sight, SightFailure};
use crate::storage::Storage;
use iox_describe::{ServiceHash, Version};
use std::alloc::{AllocError, Global};

/// The result of an attempt to create a service.
#[derive(Drop)]
pub enum Attempt {
    /// The service is created.
    Made(Opened),
    /// Another node has the lock.
    IsLocked,
    /// The service exists already.
    Exists,
    /// The attempt failed.
    Failed(CreateFailure),
}

/// Asks the storage for the lock of the service's hash. If this call gets the lock, it creates the service; if not, the attempt says why.
pub fn lock<R: Request, S: Storage>(alloc: Global, request: &R, storage: &mut S) -> Attempt
    ensures { Does S.gives storage.old (λ made. Locks (R.hash request.now) (R.node request.now) (R.created request.now) made result)
        storage.new }
{
    let answer = storage.lock(request.hash(), request.node());
    match lock_gives(answer) {
        Ok(number) => make_segment(alloc, request, number, storage),
        Err(came) => came,
    }
}

// Makes the segment, and publishes the description.
fn make_segment<R: Request, S: Storage>(
    alloc: Global,
    request: &R,
    number: u64,
    storage: &mut S,
) -> Attempt
    ensures { Does S.gives storage.old (λ made. Makes (R.hash request.now) (R.node request.now) number (R.created request.now) made
        result) storage.new }
{
    let answer = storage.make_segment(request.hash(), number, request.node(), request.max_nodes());
    if let Some(failure) = making_failure(answer) {
        return unlock(request.hash(), number, failure, storage);
    }
    publish(alloc, request, number, storage)
}

// Publishes the description, or undoes what was made.
fn publish<R: Request, S: Storage>(
    alloc: Global,
    request: &R,
    number: u64,
    storage: &mut S,
) -> Attempt
    ensures { Does S.gives storage.old (λ made. Publishes (R.hash request.now) number (R.created request.now) made result) storage.new }
{
    let Ok(written) = write(alloc, request) else {
        return undo(request.hash(), number, CreateFailure::OutOfMemory, storage);
    };
    let answer = storage.publish(request.hash(), number, written.1);
    if let Some(failure) = publishing_failure(answer) {
        return undo(request.hash(), number, failure, storage);
    }
    Attempt::Made(Opened {
        number,
        description: written.0,
        is_new: true,
    })
}

// The description of the service to be created, and its line.
fn write<R: Request>(
    alloc: Global,
    request: &R,
) -> Result<(BoxedDescription, StoredDescription), AllocError>
    ensures { IfOk result (λ written. (written.0 ≡ R.created request.now) × (written.1 ≡ line Two (R.created request.now))) }
{
    let description = request.describe(alloc)?;
    let bytes = StoredDescription::encode(alloc, Version::Two, description.get())?;
    Ok((description, bytes))
}

// Removes the segment and releases the lock.
fn undo<S: Storage>(
    hash: &ServiceHash,
    number: u64,
    failure: CreateFailure,
    storage: &mut S,
) -> Attempt
    ensures done { Does S.gives storage.old (λ made. Undoes hash.now number made) storage.new }
    ensures answer { result ≡ Attempt.Failed failure }
{
    let _answer = storage.remove_segment(hash, number);
    unlock(hash, number, failure, storage)
}

// Releases the lock.
fn unlock<S: Storage>(
    hash: &ServiceHash,
    number: u64,
    failure: CreateFailure,
    storage: &mut S,
) -> Attempt
    ensures done { Does S.gives storage.old (λ made. Unlocks hash.now number made) storage.new }
    ensures answer { result ≡ Attempt.Failed failure }
{
    storage.unlock(hash, number);
    Attempt::Failed(failure)
}

fn lock_gives(answer: LockAnswer) -> Result<u64, Attempt>
    ensures { result ≡ lock_gives answer }
{
    match answer {
        LockAnswer::Taken(number) => Ok(number),
        LockAnswer::IsLocked => Err(Attempt::IsLocked),
        LockAnswer::Exists => Err(Attempt::Exists),
        LockAnswer::Denied => Err(Attempt::Failed(CreateFailure::InsufficientPermissions)),
        LockAnswer::Fault => Err(Attempt::Failed(CreateFailure::InternalFailure)),
        LockAnswer::OutOfMemory => Err(Attempt::Failed(CreateFailure::OutOfMemory)),
    }
}

fn making_failure(answer: MakeSegmentAnswer) -> Option<CreateFailure>
    ensures { result ≡ making_failure answer }
{
    match answer {
        MakeSegmentAnswer::Made => None,
        MakeSegmentAnswer::Fault => Some(CreateFailure::InternalFailure),
        MakeSegmentAnswer::OutOfMemory => Some(CreateFailure::OutOfMemory),
    }
}

fn publishing_failure(answer: PublishAnswer) -> Option<CreateFailure>
    ensures { result ≡ publishing_failure answer }
{
    match answer {
        PublishAnswer::Published => None,
        PublishAnswer::Fault => Some(CreateFailure::InternalFailure),
        PublishAnswer::OutOfMemory => Some(CreateFailure::OutOfMemory),
    }
}

/// Why the service isn't created after this lookup; `None` if no service exists.
pub(crate) fn refusal_seen(seen: &Sight) -> Option<CreateFailure>
    ensures { result ≡ refusal_seen seen.now }
{
    match seen {
        Sight::Absent => None,
        Sight::Standing { .. } => Some(CreateFailure::AlreadyExists),
        Sight::Failed(SightFailure::HangsInCreation) => Some(CreateFailure::HangsInCreation),
        Sight::Failed(SightFailure::InsufficientPermissions) => {
            Some(CreateFailure::InsufficientPermissions)
        }
        Sight::Failed(SightFailure::ServiceInCorruptedState) => {
            Some(CreateFailure::ServiceInCorruptedState)
        }
        Sight::Failed(SightFailure::OutOfMemory) => Some(CreateFailure::OutOfMemory),
    }
}

/// The result of an attempt for a node that only creates.
pub(crate) fn created(attempt: Attempt) -> Result<Opened, CreateFailure>
    ensures { result ≡ created attempt }
{
    match attempt {
        Attempt::Made(service) => Ok(service),
        Attempt::IsLocked => Err(CreateFailure::IsBeingCreatedByAnotherInstance),
        Attempt::Exists => Err(CreateFailure::AlreadyExists),
        Attempt::Failed(failure) => Err(failure),
    }
}

//! Creating a service, opening it, or either: rounds of storage operations.
ghost use Rattle.std.specs.Prelude.{◌≡◌};
ghost use Rattle.iox_negotiate_base.specs.Runs.{Does};
ghost use Rattle.iox_negotiate_base.specs.Creating.{CreatesSeen, CreatesIf};
ghost use Rattle.iox_negotiate_base.specs.Opening.{OpenRound, Opens, EitherCreates, EitherSeen, EitherRound, OpensOrCreates};
ghost use Rattle.iox_negotiate_base.specs.Failing.{refusal_seen, created_or_again, opened_or_again};

use crate::creation::{Attempt, created, lock, refusal_seen};
use crate::failure::{CreateFailure, OpenFailure, OpenOrCreateFailure};
use crate::opening::{open_failure_of, open_seen, open_standing};
use crate::request::{Opened, Request};
use crate::sight::{Sight, shown};
use crate::storage::Storage;
use std::alloc::Global;

/// The maximum number of rounds of an opening.
pub const ROUNDS: u32 = 5;

/// Creates the service of the request.
///
/// Refused without a storage operation if its settings aren't possible. Refused with `AlreadyExists` if the service exists, with
/// `IsBeingCreatedByAnotherInstance` if another node has the lock, with `HangsInCreation` if another node had the lock at the lookup, with
/// `ServiceInCorruptedState` if the stored data can't be read, and with `InsufficientPermissions`, `InternalFailure` or `OutOfMemory` as
/// the storage reports. A refused call undoes what it made.
pub fn create<R: Request, S: Storage>(
    alloc: Global,
    request: &R,
    storage: &mut S,
) -> Result<Opened, CreateFailure>
    ensures { Does S.gives storage.old (λ made. CreatesIf (R.hash request.now) (R.node request.now) (R.created request.now)
        (R.refusal request.now) made result) storage.new }
{
    if let Some(failure) = request.refusal() {
        return Err(failure);
    }
    let answer = storage.look(request.hash());
    let seen = shown(alloc, request.hash(), answer);
    created(create_seen(alloc, request, &seen, storage))
}

// Creates the service, unless the lookup showed why it can't be created.
fn create_seen<R: Request, S: Storage>(
    alloc: Global,
    request: &R,
    seen: &Sight,
    storage: &mut S,
) -> Attempt
    ensures { Does S.gives storage.old (λ made. CreatesSeen (R.hash request.now) (R.node request.now) (R.created request.now)
        (refusal_seen seen.now) made result) storage.new }
{
    if let Some(failure) = refusal_seen(seen) {
        return Attempt::Failed(failure);
    }
    lock(alloc, request, storage)
}

/// Opens the service of the request, in at most five rounds.
///
/// Refused with the first clause that the service doesn't meet, or with `DoesNotExist`, `HangsInCreation`, `ServiceInCorruptedState`,
/// `IsMarkedForDestruction`, `ExceedsMaxNumberOfNodes`, `InsufficientPermissions`, `InternalFailure` or `OutOfMemory` as the storage
/// reports. If the segment is absent, the next round begins; after five rounds the result is `ServiceInCorruptedState`.
pub fn open<R: Request, S: Storage>(
    alloc: Global,
    request: &R,
    storage: &mut S,
) -> Result<Opened, OpenFailure<R::ClauseError>>
    ensures { Does S.gives storage.old (λ made. Opens (R.hash request.now) (R.node request.now) (R.verdict request.now) made result)
        storage.new }
{
    for round in 0..ROUNDS {
        if let Some(answer) = open_round(alloc, request, storage) {
            return answer;
        }
    }
    Err(OpenFailure::ServiceInCorruptedState)
}

fn open_round<R: Request, S: Storage>(
    alloc: Global,
    request: &R,
    storage: &mut S,
) -> Option<Result<Opened, OpenFailure<R::ClauseError>>>
    ensures { Does S.gives storage.old (λ made. OpenRound (R.hash request.now) (R.node request.now) (R.verdict request.now) made result)
        storage.new }
{
    let answer = storage.look(request.hash());
    let seen = shown(alloc, request.hash(), answer);
    open_seen(request, seen, storage)
}

/// Opens the service of the request, or creates it if it doesn't exist, in at most five rounds.
///
/// Refused as `open` refuses an existing service, and as `create` refuses to create one. If the segment is absent, another node has the
/// lock, or another node created the service in the meantime, the next round begins; after five rounds the result is `SystemInFlux`.
pub fn open_or_create<R: Request, S: Storage>(
    alloc: Global,
    request: &R,
    storage: &mut S,
) -> Result<Opened, OpenOrCreateFailure<R::ClauseError>>
    ensures { Does S.gives storage.old (λ made. OpensOrCreates (R.hash request.now) (R.node request.now) (R.verdict request.now)
        (R.created request.now) (R.refusal request.now) made result) storage.new }
{
    for round in 0..ROUNDS {
        if let Some(answer) = either_round(alloc, request, storage) {
            return answer;
        }
    }
    Err(OpenOrCreateFailure::SystemInFlux)
}

fn either_round<R: Request, S: Storage>(
    alloc: Global,
    request: &R,
    storage: &mut S,
) -> Option<Result<Opened, OpenOrCreateFailure<R::ClauseError>>>
    ensures { Does S.gives storage.old (λ made. EitherRound (R.hash request.now) (R.node request.now) (R.verdict request.now)
        (R.created request.now) (R.refusal request.now) made result) storage.new }
{
    let answer = storage.look(request.hash());
    let seen = shown(alloc, request.hash(), answer);
    either_seen(alloc, request, seen, storage)
}

fn either_seen<R: Request, S: Storage>(
    alloc: Global,
    request: &R,
    seen: Sight,
    storage: &mut S,
) -> Option<Result<Opened, OpenOrCreateFailure<R::ClauseError>>>
    ensures { Does S.gives storage.old (λ made. EitherSeen (R.hash request.now) (R.node request.now) (R.verdict request.now)
        (R.created request.now) (R.refusal request.now) seen made result) storage.new }
{
    match seen {
        Sight::Absent => either_creates(alloc, request, storage),
        Sight::Standing {
            number,
            description,
        } => opened_or_again(open_standing(request, number, description, storage)),
        Sight::Failed(failure) => Some(Err(OpenOrCreateFailure::Open(open_failure_of(failure)))),
    }
}

fn either_creates<R: Request, S: Storage>(
    alloc: Global,
    request: &R,
    storage: &mut S,
) -> Option<Result<Opened, OpenOrCreateFailure<R::ClauseError>>>
    ensures { Does S.gives storage.old (λ made. EitherCreates (R.hash request.now) (R.node request.now) (R.verdict request.now)
        (R.created request.now) (R.refusal request.now) (R.refusal request.now) made result) storage.new }
{
    if let Some(failure) = request.refusal() {
        return Some(Err(OpenOrCreateFailure::Create(failure)));
    }
    created_or_again(lock(alloc, request, storage))
}

fn created_or_again<V>(attempt: Attempt) -> Option<Result<Opened, OpenOrCreateFailure<V>>>
    ensures { result ≡ created_or_again attempt }
{
    match attempt {
        Attempt::Made(service) => Some(Ok(service)),
        Attempt::IsLocked | Attempt::Exists => None,
        Attempt::Failed(failure) => Some(Err(OpenOrCreateFailure::Create(failure))),
    }
}

fn opened_or_again<V>(
    answer: Option<Result<Opened, OpenFailure<V>>>,
) -> Option<Result<Opened, OpenOrCreateFailure<V>>>
    ensures { result ≡ opened_or_again answer }
{
    match answer {
        None => None,
        Some(Ok(service)) => Some(Ok(service)),
        Some(Err(failure)) => Some(Err(OpenOrCreateFailure::Open(failure))),
    }
}

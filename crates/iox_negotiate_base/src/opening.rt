//! Checks a description, and registers the node in its service.
ghost use Rattle.std.specs.Prelude.{◌≡◌};
ghost use Rattle.iox_negotiate_base.specs.Runs.{Does};
ghost use Rattle.iox_negotiate_base.specs.Opening.{Registers, OpensJudged, OpensSeen};
ghost use Rattle.iox_negotiate_base.specs.Failing.{open_failure_of, entered};

use crate::answer::OpenSegmentAnswer;
use crate::boxed::BoxedDescription;
use crate::failure::OpenFailure;
use crate::request::{Opened, Request};
use crate::sight::{Sight, SightFailure};
use crate::storage::Storage;

/// Opens the service that a lookup showed. `None` if its segment is absent, which leads to the next round.
pub(crate) fn open_seen<R: Request, S: Storage>(
    request: &R,
    seen: Sight,
    storage: &mut S,
) -> Option<Result<Opened, OpenFailure<R::ClauseError>>>
    ensures { Does S.gives storage.old (λ made. OpensSeen (R.hash request.now) (R.node request.now) (R.verdict request.now) seen made
        result) storage.new }
{
    match seen {
        Sight::Absent => Some(Err(OpenFailure::DoesNotExist)),
        Sight::Standing {
            number,
            description,
        } => open_standing(request, number, description, storage),
        Sight::Failed(failure) => Some(Err(open_failure_of(failure))),
    }
}

/// Opens an existing service, if it meets the request. `None` if its segment is absent.
pub(crate) fn open_standing<R: Request, S: Storage>(
    request: &R,
    number: u64,
    description: BoxedDescription,
    storage: &mut S,
) -> Option<Result<Opened, OpenFailure<R::ClauseError>>>
    ensures { Does S.gives storage.old (λ made. OpensJudged (R.hash request.now) (R.node request.now) (R.verdict request.now) number
        description (R.verdict request.now description) made result) storage.new }
{
    if let Err(unmet) = request.verdict(description.get()) {
        return Some(Err(OpenFailure::Clause(unmet)));
    }
    register(request, number, description, storage)
}

// Registers the node in the segment of the service that was read.
fn register<R: Request, S: Storage>(
    request: &R,
    number: u64,
    description: BoxedDescription,
    storage: &mut S,
) -> Option<Result<Opened, OpenFailure<R::ClauseError>>>
    ensures { Does S.gives storage.old (λ made. Registers (R.hash request.now) (R.node request.now) (R.verdict request.now) number
        description made result) storage.new }
{
    let answer = storage.open_segment(request.hash(), number, request.node());
    entered(number, description, answer)
}

fn entered<V>(
    number: u64,
    description: BoxedDescription,
    answer: OpenSegmentAnswer,
) -> Option<Result<Opened, OpenFailure<V>>>
    ensures { result ≡ entered number description answer }
{
    match answer {
        OpenSegmentAnswer::Registered => Some(Ok(Opened {
            number,
            description,
            is_new: false,
        })),
        OpenSegmentAnswer::Absent => None,
        OpenSegmentAnswer::Marked => Some(Err(OpenFailure::IsMarkedForDestruction)),
        OpenSegmentAnswer::Full => Some(Err(OpenFailure::ExceedsMaxNumberOfNodes)),
        OpenSegmentAnswer::Denied => Some(Err(OpenFailure::InsufficientPermissions)),
        OpenSegmentAnswer::Fault => Some(Err(OpenFailure::InternalFailure)),
        OpenSegmentAnswer::OutOfMemory => Some(Err(OpenFailure::OutOfMemory)),
    }
}

/// Why the service isn't opened if the lookup failed.
pub(crate) fn open_failure_of<V>(failure: SightFailure) -> OpenFailure<V>
    ensures { result ≡ open_failure_of failure }
{
    match failure {
        SightFailure::HangsInCreation => OpenFailure::HangsInCreation,
        SightFailure::InsufficientPermissions => OpenFailure::InsufficientPermissions,
        SightFailure::ServiceInCorruptedState => OpenFailure::ServiceInCorruptedState,
        SightFailure::OutOfMemory => OpenFailure::OutOfMemory,
    }
}

//! The messaging patterns with their errors, so that one builder serves all of them.
ghost use Rattle.std.specs.Prelude.{◌≡◌};
ghost use Rattle.iox_negotiate_base.specs.declared.failure.CreateFailure.{CreateFailure};
ghost use Rattle.iox_negotiate_base.specs.declared.failure.OpenFailure.{OpenFailure};
ghost use Rattle.iox_negotiate_base.specs.declared.failure.OpenOrCreateFailure.{OpenOrCreateFailure};

use iox_describe::pattern::{Event, Pattern, PublishSubscribe, RequestResponse};
use iox_negotiate_base::errors::{
    EventCreateError, EventOpenError, EventOpenOrCreateError, PublishSubscribeCreateError,
    PublishSubscribeOpenError, PublishSubscribeOpenOrCreateError, RequestResponseCreateError,
    RequestResponseOpenError, RequestResponseOpenOrCreateError,
};
use iox_negotiate_base::{CreateFailure, OpenFailure, OpenOrCreateFailure};

/// A messaging pattern whose services are negotiated, with its own errors for the failures of the rounds.
pub trait Negotiated: Pattern {
    /// Why a service isn't opened.
    type OpenError: Copy + From<OpenFailure<Self::ClauseError>>;

    /// Why a service isn't created.
    type CreateError: Copy + From<CreateFailure>;

    /// Why a service is neither opened nor created.
    type OpenOrCreateError: Copy + From<OpenOrCreateFailure<Self::ClauseError>>;

    // the error of a failure to open
    ghost open_error: { OpenFailure Self.ClauseError → Self.OpenError };

    // the error of a failure to create
    ghost create_error: { CreateFailure → Self.CreateError };

    // the error of a failure to do either
    ghost open_or_create_error: { OpenOrCreateFailure Self.ClauseError → Self.OpenOrCreateError };

    // the error of opening is determined by the failure from which it is made
    ghost opens_from: { (failure : OpenFailure Self.ClauseError) (error : Self.OpenError) → Self.OpenError.from_gives failure error
        → error ≡ open_error failure };

    // the error of creating is determined by the failure from which it is made
    ghost creates_from: { (failure : CreateFailure) (error : Self.CreateError) → Self.CreateError.from_gives failure error
        → error ≡ create_error failure };

    // the error of either is determined by the failure from which it is made
    ghost opens_or_creates_from: { (failure : OpenOrCreateFailure Self.ClauseError) (error : Self.OpenOrCreateError)
        → Self.OpenOrCreateError.from_gives failure error → error ≡ open_or_create_error failure };

    /// The error of a failure to open.
    /// Example: `PublishSubscribe::open_error(OpenFailure::DoesNotExist)`
    final fn open_error(failure: OpenFailure<Self::ClauseError>) -> Self::OpenError
        ensures { result ≡ open_error failure }
    {
        Self::OpenError::from(failure)
    }

    /// The error of a failure to create.
    /// Example: `PublishSubscribe::create_error(CreateFailure::AlreadyExists)`
    final fn create_error(failure: CreateFailure) -> Self::CreateError
        ensures { result ≡ create_error failure }
    {
        Self::CreateError::from(failure)
    }

    /// The error of a failure to open or create.
    /// Example: `Event::open_or_create_error(OpenOrCreateFailure::SystemInFlux)`
    final fn open_or_create_error(
        failure: OpenOrCreateFailure<Self::ClauseError>,
    ) -> Self::OpenOrCreateError
        ensures { result ≡ open_or_create_error failure }
    {
        Self::OpenOrCreateError::from(failure)
    }
}

impl Negotiated for PublishSubscribe {
    ghost use Rattle.iox_negotiate_base.specs.PublishSubscribeErrors as error_of;

    type OpenError = PublishSubscribeOpenError;

    type CreateError = PublishSubscribeCreateError;

    type OpenOrCreateError = PublishSubscribeOpenOrCreateError;

    ghost open_error = { error_of.open_error };

    ghost create_error = { error_of.create_error };

    ghost open_or_create_error = { error_of.open_or_create_error };

    ghost opens_from = { λ failure error made. made };

    ghost creates_from = { λ failure error made. made };

    ghost opens_or_creates_from = { λ failure error made. made };
}

impl Negotiated for Event {
    ghost use Rattle.iox_negotiate_base.specs.EventErrors as error_of;

    type OpenError = EventOpenError;

    type CreateError = EventCreateError;

    type OpenOrCreateError = EventOpenOrCreateError;

    ghost open_error = { error_of.open_error };

    ghost create_error = { error_of.create_error };

    ghost open_or_create_error = { error_of.open_or_create_error };

    ghost opens_from = { λ failure error made. made };

    ghost creates_from = { λ failure error made. made };

    ghost opens_or_creates_from = { λ failure error made. made };
}

impl Negotiated for RequestResponse {
    ghost use Rattle.iox_negotiate_base.specs.RequestResponseErrors as error_of;

    type OpenError = RequestResponseOpenError;

    type CreateError = RequestResponseCreateError;

    type OpenOrCreateError = RequestResponseOpenOrCreateError;

    ghost open_error = { error_of.open_error };

    ghost create_error = { error_of.create_error };

    ghost open_or_create_error = { error_of.open_or_create_error };

    ghost opens_from = { λ failure error made. made };

    ghost creates_from = { λ failure error made. made };

    ghost opens_or_creates_from = { λ failure error made. made };
}

//! Why a request-response service is neither opened nor created.
ghost use Rattle.std.specs.Prelude.{◌≡◌, Some};
ghost use Rattle.iox_negotiate_base.specs.RequestResponseTexts.{open_text, create_text, open_or_create_text};
ghost use Rattle.iox_negotiate_base.specs.RequestResponseErrors.{clause_error, open_error, create_error, open_or_create_error};
ghost use Rattle.iox_negotiate_base.specs.declared.errors.request_response.RequestResponseOpenOrCreateError.TheVariants as either;

use crate::errors::tables::{
    create_displayed, named_alike, of_create_failure, of_either_failure, of_open_failure,
    open_displayed,
};
use crate::{CreateFailure, OpenFailure, OpenOrCreateFailure};
use iox_describe_verdict::requirement::request_response::ClauseError;
use std::fmt;
use thiserror::Error;

/// A table of the errors of clauses that a request-response service may not meet.
macro_rules! of_clauses {
    ($table:ident: $($given:tt)*) => {
        $table!($($given)*:
            IncompatibleMessagingPattern IncompatibleRequestType IncompatibleResponseType
            IncompatibleAttributes IncompatibleOverflowBehaviorForRequests
            IncompatibleOverflowBehaviorForResponses
            IncompatibleBehaviorForFireAndForgetRequests
            DoesNotSupportRequestedAmountOfClientRequestLoans
            DoesNotSupportRequestedAmountOfActiveRequestsPerClient
            DoesNotSupportRequestedResponseBufferSize DoesNotSupportRequestedAmountOfServers
            DoesNotSupportRequestedAmountOfClients
            DoesNotSupportRequestedAmountOfBorrowedResponsesPerPendingResponse
            DoesNotSupportRequestedAmountOfNodes)
    };
}

/// Why a request-response service isn't opened. The errors of unmet clauses come first, in the order in which the clauses are tested.
///
/// Ported from `iceoryx2::service::builder::request_response::RequestResponseOpenError`.
#[derive(Clone, Copy, Debug, PartialEq, Eq, Error)]
pub enum RequestResponseOpenError {
    /// The service has another messaging pattern.
    IncompatibleMessagingPattern,
    /// The required request types aren't compatible with those of the service.
    IncompatibleRequestType,
    /// The required response types aren't compatible with those of the service.
    IncompatibleResponseType,
    /// A required attribute or key is missing.
    IncompatibleAttributes,
    /// The switch `enable_safe_overflow_for_requests` differs.
    IncompatibleOverflowBehaviorForRequests,
    /// The switch `enable_safe_overflow_for_responses` differs.
    IncompatibleOverflowBehaviorForResponses,
    /// The switch `enable_fire_and_forget_requests` differs.
    IncompatibleBehaviorForFireAndForgetRequests,
    /// The service permits fewer loaned requests than required.
    DoesNotSupportRequestedAmountOfClientRequestLoans,
    /// The service permits fewer active requests than required.
    DoesNotSupportRequestedAmountOfActiveRequestsPerClient,
    /// The service's response buffers are smaller than required.
    DoesNotSupportRequestedResponseBufferSize,
    /// The service permits fewer servers than required.
    DoesNotSupportRequestedAmountOfServers,
    /// The service permits fewer clients than required.
    DoesNotSupportRequestedAmountOfClients,
    /// The service permits fewer borrowed responses than required.
    DoesNotSupportRequestedAmountOfBorrowedResponsesPerPendingResponse,
    /// The service permits fewer nodes than required.
    DoesNotSupportRequestedAmountOfNodes,
    /// The service doesn't exist.
    DoesNotExist,
    /// The node lacks the permission.
    InsufficientPermissions,
    /// The stored data isn't a description of this service, or its segment was absent in each of five rounds.
    ServiceInCorruptedState,
    /// A storage operation failed.
    InternalFailure,
    /// When the service was looked up, another node had its lock.
    HangsInCreation,
    /// The service has its maximum number of nodes, and this node isn't one of them.
    ExceedsMaxNumberOfNodes,
    /// The last node left the service, so it is about to be removed.
    IsMarkedForDestruction,
    /// Memory ran out.
    OutOfMemory,
}

impl RequestResponseOpenError {
    /// The text that `Display` prints.
    pub fn text(&self) -> &'static str
        ensures { result.now ≡ open_text self.now }
    {
        of_clauses!(open_displayed: self, [RequestResponseOpenError])
    }
}

impl fmt::Display for RequestResponseOpenError {
    ghost output = { λ error. Some (open_text error) };

    fn fmt<W: fmt::Write>(&self, f: &mut fmt::Formatter<W>) -> fmt::Result {
        f.pad(self.text())
    }
}

/// Why a request-response service isn't created.
///
/// Ported from `iceoryx2::service::builder::request_response::RequestResponseCreateError`.
#[derive(Clone, Copy, Debug, PartialEq, Eq, Error)]
pub enum RequestResponseCreateError {
    /// The service exists already.
    AlreadyExists,
    /// The node lacks the permission.
    InsufficientPermissions,
    /// A setting is beyond its limits, or a storage operation failed.
    InternalFailure,
    /// Another node is creating the service.
    IsBeingCreatedByAnotherInstance,
    /// When the service was looked up, another node had its lock.
    HangsInCreation,
    /// The stored data isn't a description of this service.
    ServiceInCorruptedState,
    /// Memory ran out.
    OutOfMemory,
}

impl RequestResponseCreateError {
    /// The text that `Display` prints.
    pub fn text(&self) -> &'static str
        ensures { result.now ≡ create_text self.now }
    {
        create_displayed!(self, [RequestResponseCreateError]:)
    }
}

impl fmt::Display for RequestResponseCreateError {
    ghost output = { λ error. Some (create_text error) };

    fn fmt<W: fmt::Write>(&self, f: &mut fmt::Formatter<W>) -> fmt::Result {
        f.pad(self.text())
    }
}

/// Why a request-response service is neither opened nor created.
///
/// Ported from `iceoryx2::service::builder::request_response::RequestResponseOpenOrCreateError`.
#[derive(Clone, Copy, Debug, PartialEq, Eq, Error)]
pub enum RequestResponseOpenOrCreateError {
    /// The service exists, and isn't opened.
    RequestResponseOpenError(RequestResponseOpenError),
    /// The service doesn't exist, and isn't created.
    RequestResponseCreateError(RequestResponseCreateError),
    /// In each of five rounds, other nodes were creating or removing the service.
    SystemInFlux,
}

impl RequestResponseOpenOrCreateError {
    /// The text that `Display` prints.
    pub fn text(&self) -> &'static str
        ensures { result.now ≡ open_or_create_text self.now }
    {
        match self {
            RequestResponseOpenOrCreateError::RequestResponseOpenError(error) =>
                of_clauses!(open_displayed: error, [RequestResponseOpenError in RequestResponseOpenOrCreateError]),
            RequestResponseOpenOrCreateError::RequestResponseCreateError(error) =>
                create_displayed!(error, [RequestResponseCreateError in RequestResponseOpenOrCreateError]:),
            RequestResponseOpenOrCreateError::SystemInFlux =>
                "RequestResponseOpenOrCreateError::SystemInFlux",
        }
    }
}

impl fmt::Display for RequestResponseOpenOrCreateError {
    ghost output = { λ error. Some (open_or_create_text error) };

    fn fmt<W: fmt::Write>(&self, f: &mut fmt::Formatter<W>) -> fmt::Result {
        f.pad(self.text())
    }
}

/// The error with the name of the unmet clause.
impl From<ClauseError> for RequestResponseOpenError {
    ghost from_gives = { λ unmet error. error ≡ clause_error unmet };

    fn from(unmet: ClauseError) -> Self {
        of_clauses!(named_alike: unmet, ClauseError to RequestResponseOpenError)
    }
}

/// The error with the same name, or the error of the unmet clause.
impl From<OpenFailure<ClauseError>> for RequestResponseOpenError {
    ghost from_gives = { λ failure error. error ≡ open_error failure };

    fn from(failure: OpenFailure<ClauseError>) -> Self {
        of_open_failure!(failure, RequestResponseOpenError)
    }
}

/// The error with the same name. A request-response service has no history, so the failure about the history doesn't occur; it becomes
/// `InternalFailure`.
impl From<CreateFailure> for RequestResponseCreateError {
    ghost from_gives = { λ failure error. error ≡ create_error failure };

    fn from(failure: CreateFailure) -> Self {
        of_create_failure!(failure, RequestResponseCreateError, InternalFailure)
    }
}

/// Why an existing service isn't opened.
impl From<RequestResponseOpenError> for RequestResponseOpenOrCreateError {
    ghost from_gives = { λ error outer. outer ≡ either.RequestResponseOpenError error };

    fn from(error: RequestResponseOpenError) -> Self {
        RequestResponseOpenOrCreateError::RequestResponseOpenError(error)
    }
}

/// Why a service isn't created.
impl From<RequestResponseCreateError> for RequestResponseOpenOrCreateError {
    ghost from_gives = { λ error outer. outer ≡ either.RequestResponseCreateError error };

    fn from(error: RequestResponseCreateError) -> Self {
        RequestResponseOpenOrCreateError::RequestResponseCreateError(error)
    }
}

/// The error with the same name, around the inner error.
impl From<OpenOrCreateFailure<ClauseError>> for RequestResponseOpenOrCreateError {
    ghost from_gives = { λ failure error. error ≡ open_or_create_error failure };

    fn from(failure: OpenOrCreateFailure<ClauseError>) -> Self {
        of_either_failure!(failure, RequestResponseOpenOrCreateError of RequestResponseOpenError, RequestResponseCreateError)
    }
}

//! Why a publish-subscribe service is neither opened nor created.
ghost use Rattle.std.specs.Prelude.{◌≡◌, Some};
ghost use Rattle.iox_negotiate_base.specs.PublishSubscribeTexts.{open_text, create_text, open_or_create_text};
ghost use Rattle.iox_negotiate_base.specs.PublishSubscribeErrors.{clause_error, open_error, create_error, open_or_create_error};
ghost use Rattle.iox_negotiate_base.specs.declared.errors.publish_subscribe.PublishSubscribeOpenOrCreateError.TheVariants as either;

use crate::errors::tables::{
    create_displayed, named_alike, of_create_failure, of_either_failure, of_open_failure,
    open_displayed,
};
use crate::{CreateFailure, OpenFailure, OpenOrCreateFailure};
use iox_describe_verdict::requirement::publish_subscribe::ClauseError;
use std::fmt;
use thiserror::Error;

/// A table of the errors of clauses that a publish-subscribe service may not meet.
macro_rules! of_clauses {
    ($table:ident: $($given:tt)*) => {
        $table!($($given)*:
            IncompatibleMessagingPattern IncompatibleTypes IncompatibleAttributes
            IncompatibleOverflowBehavior IncompatibleSequenceNumbers
            DoesNotSupportRequestedAmountOfPublishers DoesNotSupportRequestedAmountOfSubscribers
            DoesNotSupportRequestedMinBufferSize DoesNotSupportRequestedMinHistorySize
            DoesNotSupportRequestedMinSubscriberBorrowedSamples
            DoesNotSupportRequestedAmountOfNodes)
    };
}

/// Why a publish-subscribe service isn't opened. The errors of unmet clauses come first, in the order in which the clauses are tested.
///
/// Ported from `iceoryx2::service::builder::publish_subscribe::PublishSubscribeOpenError`.
#[derive(Clone, Copy, Debug, PartialEq, Eq, Error)]
pub enum PublishSubscribeOpenError {
    /// The service has another messaging pattern.
    IncompatibleMessagingPattern,
    /// The required types aren't compatible with those of the service.
    IncompatibleTypes,
    /// A required attribute or key is missing.
    IncompatibleAttributes,
    /// The switch `enable_safe_overflow` differs.
    IncompatibleOverflowBehavior,
    /// The switch `sequence_numbers` differs.
    IncompatibleSequenceNumbers,
    /// The service permits fewer publishers than required.
    DoesNotSupportRequestedAmountOfPublishers,
    /// The service permits fewer subscribers than required.
    DoesNotSupportRequestedAmountOfSubscribers,
    /// The service's buffers are smaller than required.
    DoesNotSupportRequestedMinBufferSize,
    /// The service's history is shorter than required.
    DoesNotSupportRequestedMinHistorySize,
    /// The service permits fewer borrowed samples than required.
    DoesNotSupportRequestedMinSubscriberBorrowedSamples,
    /// The service permits fewer nodes than required.
    DoesNotSupportRequestedAmountOfNodes,
    /// The service doesn't exist.
    DoesNotExist,
    /// The node lacks the permission.
    InsufficientPermissions,
    /// The stored data isn't a description of this service, or its segment was absent in each of five rounds.
    ServiceInCorruptedState,
    /// A storage operation failed.
    InternalFailure,
    /// When the service was looked up, another node had its lock.
    HangsInCreation,
    /// The service has its maximum number of nodes, and this node isn't one of them.
    ExceedsMaxNumberOfNodes,
    /// The last node left the service, so it is about to be removed.
    IsMarkedForDestruction,
    /// Memory ran out.
    OutOfMemory,
}

impl PublishSubscribeOpenError {
    /// The text that `Display` prints.
    pub fn text(&self) -> &'static str
        ensures { result.now ≡ open_text self.now }
    {
        of_clauses!(open_displayed: self, [PublishSubscribeOpenError])
    }
}

impl fmt::Display for PublishSubscribeOpenError {
    ghost output = { λ error. Some (open_text error) };

    fn fmt<W: fmt::Write>(&self, f: &mut fmt::Formatter<W>) -> fmt::Result {
        f.pad(self.text())
    }
}

/// Why a publish-subscribe service isn't created.
///
/// Ported from `iceoryx2::service::builder::publish_subscribe::PublishSubscribeCreateError`.
#[derive(Clone, Copy, Debug, PartialEq, Eq, Error)]
pub enum PublishSubscribeCreateError {
    /// The service exists already.
    AlreadyExists,
    /// The node lacks the permission.
    InsufficientPermissions,
    /// A setting is beyond its limits, or a storage operation failed.
    InternalFailure,
    /// Another node is creating the service.
    IsBeingCreatedByAnotherInstance,
    /// When the service was looked up, another node had its lock.
    HangsInCreation,
    /// The stored data isn't a description of this service.
    ServiceInCorruptedState,
    /// The history doesn't fit into a buffer that blocks the publisher when it is full.
    SubscriberBufferMustBeLargerThanHistorySize,
    /// Memory ran out.
    OutOfMemory,
}

impl PublishSubscribeCreateError {
    /// The text that `Display` prints.
    pub fn text(&self) -> &'static str
        ensures { result.now ≡ create_text self.now }
    {
        create_displayed!(self, [PublishSubscribeCreateError]: SubscriberBufferMustBeLargerThanHistorySize)
    }
}

impl fmt::Display for PublishSubscribeCreateError {
    ghost output = { λ error. Some (create_text error) };

    fn fmt<W: fmt::Write>(&self, f: &mut fmt::Formatter<W>) -> fmt::Result {
        f.pad(self.text())
    }
}

/// Why a publish-subscribe service is neither opened nor created.
///
/// Ported from `iceoryx2::service::builder::publish_subscribe::PublishSubscribeOpenOrCreateError`.
#[derive(Clone, Copy, Debug, PartialEq, Eq, Error)]
pub enum PublishSubscribeOpenOrCreateError {
    /// The service exists, and isn't opened.
    PublishSubscribeOpenError(PublishSubscribeOpenError),
    /// The service doesn't exist, and isn't created.
    PublishSubscribeCreateError(PublishSubscribeCreateError),
    /// In each of five rounds, other nodes were creating or removing the service.
    SystemInFlux,
}

impl PublishSubscribeOpenOrCreateError {
    /// The text that `Display` prints.
    pub fn text(&self) -> &'static str
        ensures { result.now ≡ open_or_create_text self.now }
    {
        match self {
            PublishSubscribeOpenOrCreateError::PublishSubscribeOpenError(error) =>
                of_clauses!(open_displayed: error, [PublishSubscribeOpenError in PublishSubscribeOpenOrCreateError]),
            PublishSubscribeOpenOrCreateError::PublishSubscribeCreateError(error) =>
                create_displayed!(error, [PublishSubscribeCreateError in PublishSubscribeOpenOrCreateError]:
                    SubscriberBufferMustBeLargerThanHistorySize),
            PublishSubscribeOpenOrCreateError::SystemInFlux =>
                "PublishSubscribeOpenOrCreateError::SystemInFlux",
        }
    }
}

impl fmt::Display for PublishSubscribeOpenOrCreateError {
    ghost output = { λ error. Some (open_or_create_text error) };

    fn fmt<W: fmt::Write>(&self, f: &mut fmt::Formatter<W>) -> fmt::Result {
        f.pad(self.text())
    }
}

/// The error with the name of the unmet clause.
impl From<ClauseError> for PublishSubscribeOpenError {
    ghost from_gives = { λ unmet error. error ≡ clause_error unmet };

    fn from(unmet: ClauseError) -> Self {
        of_clauses!(named_alike: unmet, ClauseError to PublishSubscribeOpenError)
    }
}

/// The error with the same name, or the error of the unmet clause.
impl From<OpenFailure<ClauseError>> for PublishSubscribeOpenError {
    ghost from_gives = { λ failure error. error ≡ open_error failure };

    fn from(failure: OpenFailure<ClauseError>) -> Self {
        of_open_failure!(failure, PublishSubscribeOpenError)
    }
}

/// The error with the same name.
impl From<CreateFailure> for PublishSubscribeCreateError {
    ghost from_gives = { λ failure error. error ≡ create_error failure };

    fn from(failure: CreateFailure) -> Self {
        of_create_failure!(
            failure,
            PublishSubscribeCreateError,
            SubscriberBufferMustBeLargerThanHistorySize
        )
    }
}

/// Why an existing service isn't opened.
impl From<PublishSubscribeOpenError> for PublishSubscribeOpenOrCreateError {
    ghost from_gives = { λ error outer. outer ≡ either.PublishSubscribeOpenError error };

    fn from(error: PublishSubscribeOpenError) -> Self {
        PublishSubscribeOpenOrCreateError::PublishSubscribeOpenError(error)
    }
}

/// Why a service isn't created.
impl From<PublishSubscribeCreateError> for PublishSubscribeOpenOrCreateError {
    ghost from_gives = { λ error outer. outer ≡ either.PublishSubscribeCreateError error };

    fn from(error: PublishSubscribeCreateError) -> Self {
        PublishSubscribeOpenOrCreateError::PublishSubscribeCreateError(error)
    }
}

/// The error with the same name, around the inner error.
impl From<OpenOrCreateFailure<ClauseError>> for PublishSubscribeOpenOrCreateError {
    ghost from_gives = { λ failure error. error ≡ open_or_create_error failure };

    fn from(failure: OpenOrCreateFailure<ClauseError>) -> Self {
        of_either_failure!(failure, PublishSubscribeOpenOrCreateError of PublishSubscribeOpenError, PublishSubscribeCreateError)
    }
}

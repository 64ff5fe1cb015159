//! Why an event service is neither opened nor created.
ghost use Rattle.std.specs.Prelude.{◌≡◌, Some};
ghost use Rattle.iox_negotiate_base.specs.EventTexts.{open_text, create_text, open_or_create_text};
ghost use Rattle.iox_negotiate_base.specs.EventErrors.{clause_error, open_error, create_error, open_or_create_error};
ghost use Rattle.iox_negotiate_base.specs.declared.errors.event.EventOpenOrCreateError.TheVariants as either;

use crate::errors::tables::{
    create_displayed, named_alike, of_create_failure, of_either_failure, of_open_failure,
    open_displayed,
};
use crate::{CreateFailure, OpenFailure, OpenOrCreateFailure};
use iox_describe_verdict::requirement::event::ClauseError;
use std::fmt;
use thiserror::Error;

/// A table of the errors of clauses that an event service may not meet.
macro_rules! of_clauses {
    ($table:ident: $($given:tt)*) => {
        $table!($($given)*:
            IncompatibleMessagingPattern IncompatibleAttributes IncompatibleDeadline
            DoesNotSupportRequestedAmountOfNotifiers DoesNotSupportRequestedAmountOfListeners
            DoesNotSupportRequestedMaxEventId IncompatibleNotifierCreatedEvent
            IncompatibleNotifierDroppedEvent IncompatibleNotifierDeadEvent
            DoesNotSupportRequestedAmountOfNodes)
    };
}

/// Why an event service isn't opened. The errors of unmet clauses come first, in the order in which the clauses are tested.
///
/// Ported from `iceoryx2::service::builder::event::EventOpenError`.
#[derive(Clone, Copy, Debug, PartialEq, Eq, Error)]
pub enum EventOpenError {
    /// The service has another messaging pattern.
    IncompatibleMessagingPattern,
    /// A required attribute or key is missing.
    IncompatibleAttributes,
    /// The option `deadline` differs.
    IncompatibleDeadline,
    /// The service permits fewer notifiers than required.
    DoesNotSupportRequestedAmountOfNotifiers,
    /// The service permits fewer listeners than required.
    DoesNotSupportRequestedAmountOfListeners,
    /// The service's largest event id is below the required one.
    DoesNotSupportRequestedMaxEventId,
    /// The option `notifier_created_event` differs.
    IncompatibleNotifierCreatedEvent,
    /// The option `notifier_dropped_event` differs.
    IncompatibleNotifierDroppedEvent,
    /// The option `notifier_dead_event` differs.
    IncompatibleNotifierDeadEvent,
    /// The service permits fewer nodes than required.
    DoesNotSupportRequestedAmountOfNodes,
    /// The service doesn't exist.
    DoesNotExist,
    /// The node lacks the permission.
    InsufficientPermissions,
    /// The stored data isn't a description of this service, or its segment was absent in each of five rounds.
    ServiceInCorruptedState,
    /// A storage operation failed.
    InternalFailure,
    /// When the service was looked up, another node had its lock.
    HangsInCreation,
    /// The service has its maximum number of nodes, and this node isn't one of them.
    ExceedsMaxNumberOfNodes,
    /// The last node left the service, so it is about to be removed.
    IsMarkedForDestruction,
    /// Memory ran out.
    OutOfMemory,
}

impl EventOpenError {
    /// The text that `Display` prints.
    pub fn text(&self) -> &'static str
        ensures { result.now ≡ open_text self.now }
    {
        of_clauses!(open_displayed: self, [EventOpenError])
    }
}

impl fmt::Display for EventOpenError {
    ghost output = { λ error. Some (open_text error) };

    fn fmt<W: fmt::Write>(&self, f: &mut fmt::Formatter<W>) -> fmt::Result {
        f.pad(self.text())
    }
}

/// Why an event service isn't created.
///
/// Ported from `iceoryx2::service::builder::event::EventCreateError`.
#[derive(Clone, Copy, Debug, PartialEq, Eq, Error)]
pub enum EventCreateError {
    /// The service exists already.
    AlreadyExists,
    /// The node lacks the permission.
    InsufficientPermissions,
    /// A setting is beyond its limits, or a storage operation failed.
    InternalFailure,
    /// Another node is creating the service.
    IsBeingCreatedByAnotherInstance,
    /// When the service was looked up, another node had its lock.
    HangsInCreation,
    /// The stored data isn't a description of this service.
    ServiceInCorruptedState,
    /// Memory ran out.
    OutOfMemory,
}

impl EventCreateError {
    /// The text that `Display` prints.
    pub fn text(&self) -> &'static str
        ensures { result.now ≡ create_text self.now }
    {
        create_displayed!(self, [EventCreateError]:)
    }
}

impl fmt::Display for EventCreateError {
    ghost output = { λ error. Some (create_text error) };

    fn fmt<W: fmt::Write>(&self, f: &mut fmt::Formatter<W>) -> fmt::Result {
        f.pad(self.text())
    }
}

/// Why an event service is neither opened nor created.
///
/// Ported from `iceoryx2::service::builder::event::EventOpenOrCreateError`.
#[derive(Clone, Copy, Debug, PartialEq, Eq, Error)]
pub enum EventOpenOrCreateError {
    /// The service exists, and isn't opened.
    EventOpenError(EventOpenError),
    /// The service doesn't exist, and isn't created.
    EventCreateError(EventCreateError),
    /// In each of five rounds, other nodes were creating or removing the service.
    SystemInFlux,
}

impl EventOpenOrCreateError {
    /// The text that `Display` prints.
    pub fn text(&self) -> &'static str
        ensures { result.now ≡ open_or_create_text self.now }
    {
        match self {
            EventOpenOrCreateError::EventOpenError(error) =>
                of_clauses!(open_displayed: error, [EventOpenError in EventOpenOrCreateError]),
            EventOpenOrCreateError::EventCreateError(error) =>
                create_displayed!(error, [EventCreateError in EventOpenOrCreateError]:),
            EventOpenOrCreateError::SystemInFlux => "EventOpenOrCreateError::SystemInFlux",
        }
    }
}

impl fmt::Display for EventOpenOrCreateError {
    ghost output = { λ error. Some (open_or_create_text error) };

    fn fmt<W: fmt::Write>(&self, f: &mut fmt::Formatter<W>) -> fmt::Result {
        f.pad(self.text())
    }
}

/// The error with the name of the unmet clause.
impl From<ClauseError> for EventOpenError {
    ghost from_gives = { λ unmet error. error ≡ clause_error unmet };

    fn from(unmet: ClauseError) -> Self {
        of_clauses!(named_alike: unmet, ClauseError to EventOpenError)
    }
}

/// The error with the same name, or the error of the unmet clause.
impl From<OpenFailure<ClauseError>> for EventOpenError {
    ghost from_gives = { λ failure error. error ≡ open_error failure };

    fn from(failure: OpenFailure<ClauseError>) -> Self {
        of_open_failure!(failure, EventOpenError)
    }
}

/// The error with the same name. An event service has no history, so the failure about the history doesn't occur; it becomes
/// `InternalFailure`.
impl From<CreateFailure> for EventCreateError {
    ghost from_gives = { λ failure error. error ≡ create_error failure };

    fn from(failure: CreateFailure) -> Self {
        of_create_failure!(failure, EventCreateError, InternalFailure)
    }
}

/// Why an existing service isn't opened.
impl From<EventOpenError> for EventOpenOrCreateError {
    ghost from_gives = { λ error outer. outer ≡ either.EventOpenError error };

    fn from(error: EventOpenError) -> Self {
        EventOpenOrCreateError::EventOpenError(error)
    }
}

/// Why a service isn't created.
impl From<EventCreateError> for EventOpenOrCreateError {
    ghost from_gives = { λ error outer. outer ≡ either.EventCreateError error };

    fn from(error: EventCreateError) -> Self {
        EventOpenOrCreateError::EventCreateError(error)
    }
}

/// The error with the same name, around the inner error.
impl From<OpenOrCreateFailure<ClauseError>> for EventOpenOrCreateError {
    ghost from_gives = { λ failure error. error ≡ open_or_create_error failure };

    fn from(failure: OpenOrCreateFailure<ClauseError>) -> Self {
        of_either_failure!(failure, EventOpenOrCreateError of EventOpenError, EventCreateError)
    }
}

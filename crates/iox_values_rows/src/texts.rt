//! What errors display as: the name of their type and that of their variant, with the inner variant in parentheses.
use crate::answers::hold;
use iox_container::semantic_strings::SemanticStringError;
use iox_container::string::StringModificationError;
use iox_container::{FlatMapError, VectorModificationError};
use iox_conversation::ServeError;
use iox_describe::requirement::{event, publish_subscribe, request_response};
use iox_describe::{AttributeError, DescriptionError, LimitError};
use iox_index::{
    ContainerAddFailure, ContainerRemoveError, OwnerIdNewError, UniqueIndexSetAcquireFailure,
};
use std::alloc::{AllocError, Global};
use std::fmt::{Debug, Display};

/// Whether `Display` shows each error as the name of its type, followed by what a derived `Debug` shows of the variant.
fn are_told<E: Debug + Display>(
    alloc: Global,
    name: &str,
    errors: &[E],
) -> Result<bool, AllocError> {
    for error in errors {
        let told = format!(in alloc; "{error} {name}{error:?}")?;
        let (displayed, debugged) = told.split_once(" ").unwrap_or(("", " "));
        if displayed != debugged {
            return Ok(false);
        }
    }
    Ok(true)
}

const OF_STRINGS: [StringModificationError; 2] = [
    StringModificationError::InsertWouldExceedCapacity,
    StringModificationError::InvalidCharacter,
];

const OF_VECTORS: [VectorModificationError; 3] = [
    VectorModificationError::InsertWouldExceedCapacity,
    VectorModificationError::OutOfBounds,
    VectorModificationError::OutOfMemory,
];

const OF_SEMANTIC_STRINGS: [SemanticStringError; 2] = [
    SemanticStringError::InvalidContent,
    SemanticStringError::ExceedsMaximumLength,
];

const OF_FLAT_MAPS: [FlatMapError; 2] = [FlatMapError::KeyAlreadyExists, FlatMapError::IsFull];

const OF_SETS: [UniqueIndexSetAcquireFailure; 2] = [
    UniqueIndexSetAcquireFailure::OutOfIndices,
    UniqueIndexSetAcquireFailure::IsLocked,
];

const OF_ADDING: [ContainerAddFailure; 2] = [
    ContainerAddFailure::OutOfSpace,
    ContainerAddFailure::IsLocked,
];

const OF_REMOVING: [ContainerRemoveError; 1] = [
    ContainerRemoveError::ContainerHandleNotOwnedByContainer,
];

const OF_OWNERS: [OwnerIdNewError; 1] = [OwnerIdNewError::ValueReserved];

const OF_PUBLISH_SUBSCRIBE: [publish_subscribe::ClauseError; 11] = [
    publish_subscribe::ClauseError::IncompatibleMessagingPattern,
    publish_subscribe::ClauseError::IncompatibleTypes,
    publish_subscribe::ClauseError::IncompatibleAttributes,
    publish_subscribe::ClauseError::IncompatibleOverflowBehavior,
    publish_subscribe::ClauseError::IncompatibleSequenceNumbers,
    publish_subscribe::ClauseError::DoesNotSupportRequestedAmountOfPublishers,
    publish_subscribe::ClauseError::DoesNotSupportRequestedAmountOfSubscribers,
    publish_subscribe::ClauseError::DoesNotSupportRequestedMinBufferSize,
    publish_subscribe::ClauseError::DoesNotSupportRequestedMinHistorySize,
    publish_subscribe::ClauseError::DoesNotSupportRequestedMinSubscriberBorrowedSamples,
    publish_subscribe::ClauseError::DoesNotSupportRequestedAmountOfNodes,
];

const OF_EVENTS: [event::ClauseError; 10] = [
    event::ClauseError::IncompatibleMessagingPattern,
    event::ClauseError::IncompatibleAttributes,
    event::ClauseError::IncompatibleDeadline,
    event::ClauseError::DoesNotSupportRequestedAmountOfNotifiers,
    event::ClauseError::DoesNotSupportRequestedAmountOfListeners,
    event::ClauseError::DoesNotSupportRequestedMaxEventId,
    event::ClauseError::IncompatibleNotifierCreatedEvent,
    event::ClauseError::IncompatibleNotifierDroppedEvent,
    event::ClauseError::IncompatibleNotifierDeadEvent,
    event::ClauseError::DoesNotSupportRequestedAmountOfNodes,
];

const OF_REQUEST_RESPONSE: [request_response::ClauseError; 14] = [
    request_response::ClauseError::IncompatibleMessagingPattern,
    request_response::ClauseError::IncompatibleRequestType,
    request_response::ClauseError::IncompatibleResponseType,
    request_response::ClauseError::IncompatibleAttributes,
    request_response::ClauseError::IncompatibleOverflowBehaviorForRequests,
    request_response::ClauseError::IncompatibleOverflowBehaviorForResponses,
    request_response::ClauseError::IncompatibleBehaviorForFireAndForgetRequests,
    request_response::ClauseError::DoesNotSupportRequestedAmountOfClientRequestLoans,
    request_response::ClauseError::DoesNotSupportRequestedAmountOfActiveRequestsPerClient,
    request_response::ClauseError::DoesNotSupportRequestedResponseBufferSize,
    request_response::ClauseError::DoesNotSupportRequestedAmountOfServers,
    request_response::ClauseError::DoesNotSupportRequestedAmountOfClients,
    request_response::ClauseError::DoesNotSupportRequestedAmountOfBorrowedResponsesPerPendingResponse,
    request_response::ClauseError::DoesNotSupportRequestedAmountOfNodes,
];

/// Whether `Display` shows the error as these words.
fn is_displayed<E: Display>(alloc: Global, error: &E, words: &str) -> Result<bool, AllocError> {
    Ok(format!(in alloc; "{error}")?.as_str() == words)
}

const OUTSIDE: AttributeError = AttributeError::LimitError(LimitError::OutsideLimits);

const OF_DESCRIPTIONS: [DescriptionError; 3] = [
    DescriptionError::Invalid,
    DescriptionError::NotInVersion1,
    DescriptionError::OutOfMemory,
];

#[test]
fn each_error_displays_as_its_name(rt: HostRuntime) {
    let alloc: Global = rt.alloc();
    let answers = [
        are_told(alloc, "StringModificationError::", &OF_STRINGS),
        are_told(alloc, "VectorModificationError::", &OF_VECTORS),
        are_told(alloc, "SemanticStringError::", &OF_SEMANTIC_STRINGS),
        are_told(alloc, "FlatMapError::", &OF_FLAT_MAPS),
        are_told(alloc, "UniqueIndexSetAcquireFailure::", &OF_SETS),
        are_told(alloc, "ContainerAddFailure::", &OF_ADDING),
        are_told(alloc, "ContainerRemoveError::", &OF_REMOVING),
        are_told(alloc, "OwnerIdNewError::", &OF_OWNERS),
        are_told(alloc, "ClauseError::", &OF_PUBLISH_SUBSCRIBE),
        are_told(alloc, "ClauseError::", &OF_EVENTS),
        are_told(alloc, "ClauseError::", &OF_REQUEST_RESPONSE),
        are_told(alloc, "DescriptionError::", &OF_DESCRIPTIONS),
        are_told(alloc, "LimitError::", &[LimitError::OutsideLimits]),
        are_told(alloc, "AttributeError::", &[AttributeError::OutOfMemory]),
        is_displayed(alloc, &OUTSIDE, "AttributeError::LimitError(OutsideLimits)"),
        is_displayed(alloc, &ServeError::ReadFault, "read fault"),
        is_displayed(alloc, &ServeError::WriteFault, "write fault"),
        is_displayed(alloc, &ServeError::OutOfMemory, "out of memory"),
    ];
    hold(&rt, &answers);
}

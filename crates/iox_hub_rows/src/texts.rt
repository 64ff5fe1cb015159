//! How errors display and hash, and what handles show.
use iox_command::HubError;
use iox_delivery::PortId;
use iox_domain::DomainId;
use iox_domain_values::{
    ConnectionFailure, DomainError, LoanError, PublisherCreateError, ReceiveError, SendError,
    SubscriberCreateError, ZeroCopyCreationError,
};
use iox_hub_base::TakeError;
use iox_line::LineError;
use std::alloc::{AllocError, Global};
use std::fmt::{Debug, Display};
use std::hash::{DefaultHasher, Hash, Hasher};
use std::process::Abort;

// The first error that displays otherwise.
fn first_other<E: Display>(alloc: Global, rows: &[(E, &str)]) -> Result<Option<usize>, AllocError> {
    for (place, row) in rows.iter().enumerate() {
        if format!(in alloc; "{}", row.0)?.as_str() != row.1 {
            return Ok(Some(place));
        }
    }
    Ok(None)
}

// Each must have none.
fn all_display(
    rt: &impl Abort,
    others: &[Result<Option<usize>, AllocError>],
) -> Result<(), AllocError> {
    for (place, other) in others.iter().enumerate() {
        let row = (*other)?;
        assert!(rt; row.is_none(), "table {place}, row {row:?}");
    }
    Ok(())
}

const NO_MEMORY: ConnectionFailure = ConnectionFailure::FailedToEstablishConnection(
    ZeroCopyCreationError::OutOfMemory,
);

const NO_ROOM: ConnectionFailure = ConnectionFailure::FailedToEstablishConnection(
    ZeroCopyCreationError::ExpiredConnectionBufferFull,
);

const INCOMPATIBLE: ConnectionFailure = ConnectionFailure::FailedToEstablishConnection(
    ZeroCopyCreationError::IncompatibleBufferSize,
);

const UNMAPPED: ConnectionFailure = ConnectionFailure::UnableToMapSendersDataSegment;

// Each failure of a connection, alone and inside those that it is made into.
const FAILURES: [(ConnectionFailure, &str); 4] = [
    (
        NO_MEMORY,
        "ConnectionFailure::FailedToEstablishConnection(OutOfMemory)",
    ),
    (
        NO_ROOM,
        "ConnectionFailure::FailedToEstablishConnection(ExpiredConnectionBufferFull)",
    ),
    (
        INCOMPATIBLE,
        "ConnectionFailure::FailedToEstablishConnection(IncompatibleBufferSize)",
    ),
    (UNMAPPED, "ConnectionFailure::UnableToMapSendersDataSegment"),
];

// Each refused loan is a failed send, too.
const SENDS: [(SendError, &str); 12] = [
    (
        SendError::ConnectionBrokenSinceSenderNoLongerExists,
        "SendError::ConnectionBrokenSinceSenderNoLongerExists",
    ),
    (
        SendError::ConnectionCorrupted,
        "SendError::ConnectionCorrupted",
    ),
    (
        SendError::ConnectionError(NO_MEMORY),
        "SendError::ConnectionError(FailedToEstablishConnection(OutOfMemory))",
    ),
    (
        SendError::ConnectionError(NO_ROOM),
        "SendError::ConnectionError(FailedToEstablishConnection(ExpiredConnectionBufferFull))",
    ),
    (
        SendError::ConnectionError(INCOMPATIBLE),
        "SendError::ConnectionError(FailedToEstablishConnection(IncompatibleBufferSize))",
    ),
    (
        SendError::ConnectionError(UNMAPPED),
        "SendError::ConnectionError(UnableToMapSendersDataSegment)",
    ),
    (
        SendError::LoanError(LoanError::OutOfMemory),
        "SendError::LoanError(OutOfMemory)",
    ),
    (
        SendError::LoanError(LoanError::ExceedsMaxLoans),
        "SendError::LoanError(ExceedsMaxLoans)",
    ),
    (
        SendError::LoanError(LoanError::ExceedsMaxLoanSize),
        "SendError::LoanError(ExceedsMaxLoanSize)",
    ),
    (
        SendError::LoanError(LoanError::InternalFailure),
        "SendError::LoanError(InternalFailure)",
    ),
    (SendError::UnableToDeliver, "SendError::UnableToDeliver"),
    (SendError::InternalError, "SendError::InternalError"),
];

const RECEIVES: [(ReceiveError, &str); 5] = [
    (
        ReceiveError::ConnectionFailure(NO_MEMORY),
        "ReceiveError::ConnectionFailure(FailedToEstablishConnection(OutOfMemory))",
    ),
    (
        ReceiveError::ConnectionFailure(NO_ROOM),
        "ReceiveError::ConnectionFailure(FailedToEstablishConnection(ExpiredConnectionBufferFull))",
    ),
    (
        ReceiveError::ConnectionFailure(INCOMPATIBLE),
        "ReceiveError::ConnectionFailure(FailedToEstablishConnection(IncompatibleBufferSize))",
    ),
    (
        ReceiveError::ConnectionFailure(UNMAPPED),
        "ReceiveError::ConnectionFailure(UnableToMapSendersDataSegment)",
    ),
    (
        ReceiveError::ExceedsMaxBorrows,
        "ReceiveError::ExceedsMaxBorrows",
    ),
];

const LOANS: [(LoanError, &str); 4] = [
    (LoanError::OutOfMemory, "LoanError::OutOfMemory"),
    (LoanError::ExceedsMaxLoans, "LoanError::ExceedsMaxLoans"),
    (
        LoanError::ExceedsMaxLoanSize,
        "LoanError::ExceedsMaxLoanSize",
    ),
    (LoanError::InternalFailure, "LoanError::InternalFailure"),
];

const CREATIONS: [(ZeroCopyCreationError, &str); 3] = [
    (
        ZeroCopyCreationError::OutOfMemory,
        "ZeroCopyCreationError::OutOfMemory",
    ),
    (
        ZeroCopyCreationError::ExpiredConnectionBufferFull,
        "ZeroCopyCreationError::ExpiredConnectionBufferFull",
    ),
    (
        ZeroCopyCreationError::IncompatibleBufferSize,
        "ZeroCopyCreationError::IncompatibleBufferSize",
    ),
];

const PUBLISHERS: [(PublisherCreateError, &str); 4] = [
    (
        PublisherCreateError::ExceedsMaxSupportedPublishers,
        "PublisherCreateError::ExceedsMaxSupportedPublishers",
    ),
    (
        PublisherCreateError::UnableToCreateDataSegment,
        "PublisherCreateError::UnableToCreateDataSegment",
    ),
    (
        PublisherCreateError::FailedToDeployThreadsafetyPolicy,
        "PublisherCreateError::FailedToDeployThreadsafetyPolicy",
    ),
    (
        PublisherCreateError::UnableToCreatePortTag,
        "PublisherCreateError::UnableToCreatePortTag",
    ),
];

const SUBSCRIBERS: [(SubscriberCreateError, &str); 5] = [
    (
        SubscriberCreateError::ExceedsMaxSupportedSubscribers,
        "SubscriberCreateError::ExceedsMaxSupportedSubscribers",
    ),
    (
        SubscriberCreateError::BufferSizeExceedsMaxSupportedBufferSizeOfService,
        "SubscriberCreateError::BufferSizeExceedsMaxSupportedBufferSizeOfService",
    ),
    (
        SubscriberCreateError::FailedToDeployThreadsafetyPolicy,
        "SubscriberCreateError::FailedToDeployThreadsafetyPolicy",
    ),
    (
        SubscriberCreateError::UnableToCreatePortTag,
        "SubscriberCreateError::UnableToCreatePortTag",
    ),
    (
        SubscriberCreateError::OutOfMemory,
        "SubscriberCreateError::OutOfMemory",
    ),
];

const DOMAINS: [(DomainError, &str); 1] = [(DomainError::OutOfMemory, "DomainError::OutOfMemory")];

const LINES: [(LineError, &str); 2] = [
    (LineError::Faulty, "faulty line"),
    (LineError::TooLong, "line too long"),
];

const HUBS: [(HubError, &str); 1] = [(HubError::OutOfMemory, "HubError::OutOfMemory")];

const TAKES: [(TakeError, &str); 1] = [(TakeError::DomainIsOut, "TakeError::DomainIsOut")];

#[test]
fn errors_display_as_type_and_variant(rt: HostRuntime) -> Result<(), AllocError> {
    let alloc: Global = rt.alloc();
    let others = [
        first_other(alloc, &FAILURES),
        first_other(alloc, &SENDS),
        first_other(alloc, &RECEIVES),
        first_other(alloc, &LOANS),
        first_other(alloc, &CREATIONS),
        first_other(alloc, &PUBLISHERS),
        first_other(alloc, &SUBSCRIBERS),
        first_other(alloc, &DOMAINS),
        first_other(alloc, &LINES),
        first_other(alloc, &HUBS),
        first_other(alloc, &TAKES),
    ];
    all_display(&rt, &others)
}

fn hash_of<E: Hash>(error: &E) -> u64 {
    let mut state = DefaultHasher::default();
    error.hash(&mut state);
    state.finish()
}

// How many errors hash as this one does.
fn number_alike<E: Hash>(rows: &[(E, &str)], error: &E) -> usize {
    let mut number: usize = 0;
    for row in rows {
        if hash_of(&row.0) == hash_of(error) {
            number = number.saturating_add(1);
        }
    }
    number
}

// Whether each hashes as itself alone.
fn hash_apart<E: Hash>(rows: &[(E, &str)]) -> bool {
    for row in rows {
        if number_alike(rows, &row.0) != 1 {
            return false;
        }
    }
    true
}

#[test]
fn errors_hash_as_themselves_alone(rt: HostRuntime) {
    assert!(&rt; hash_apart(&LOANS) && hash_apart(&FAILURES));
}

const HANDLE: PortId = PortId {
    domain: DomainId { hub: 0, service: 5 },
    number: 3,
};

/// Whether a handle is shown as stated.
pub(crate) fn is_shown<E: Debug>(
    alloc: Global,
    handle: &E,
    text: &str,
) -> Result<bool, AllocError> {
    Ok(format!(in alloc; "{handle:?}")?.as_str() == text)
}

#[test]
fn handles_show_their_numbers(rt: HostRuntime) -> Result<(), AllocError> {
    let text = "PortId { domain: DomainId { hub: 0, service: 5 }, number: 3 }";
    assert!(&rt; is_shown(rt.alloc(), &HANDLE, text)?);
    Ok(())
}

//! What a handler is given about a failed connection, and what it may answer.

/// What a handler answers if a connection failed.
///
/// Ported from `iceoryx2::port::DegradationAction`.
#[derive(Clone, Copy, Debug, PartialEq, Eq)]
pub enum DegradationAction {
    /// The call continues.
    Ignore,
    /// The call continues. No warning is printed here.
    Warn,
    /// The call returns the first such failure, after all places were tried.
    DegradeAndFail,
}

/// What failed.
///
/// Ported from `iceoryx2::port::DegradationCause`.
#[derive(Clone, Copy, Debug, PartialEq, Eq)]
pub enum DegradationCause {
    /// The connection couldn't be made.
    FailedToEstablishConnection,
    /// The connection is corrupted. Never given.
    ConnectionCorrupted,
}

/// What a handler is given about a failed connection.
///
/// Ported from `iceoryx2::port::DegradationInfo`, with numbers of 64 bits.
#[derive(Clone, Copy, Debug, PartialEq, Eq)]
pub struct DegradationInfo {
    /// The number of the service.
    pub service_id: u64,
    /// The number of the connection's publisher.
    pub sender_port_id: u64,
    /// The number of the connection's subscriber.
    pub receiver_port_id: u64,
}

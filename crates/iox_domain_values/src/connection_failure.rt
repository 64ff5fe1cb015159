//! Why a connection fails.
ghost use Rattle.std.specs.Prelude.{◌≡◌};
ghost use Rattle.iox_domain_values.specs.ErrorTexts.{zero_copy_creation_text, connection_text};
ghost use Rattle.iox_domain_values.specs.declared.connection_failure.ConnectionFailure.TheVariants as connection;

use thiserror::Error;

/// Why a connection couldn't be made.
///
/// Ported from `iceoryx2_cal::zero_copy_connection::ZeroCopyCreationError`; the first two variants aren't in `iceoryx2`.
#[derive(Clone, Copy, Debug, PartialEq, Eq, Hash, Error)]
#[error("{}", self.text())]
pub enum ZeroCopyCreationError {
    /// An allocation failed, or a capacity is used up.
    OutOfMemory,
    /// The subscriber keeps as many connections of closed publishers as its limit allows, and none of them can end.
    ExpiredConnectionBufferFull,
    /// The two ends need different sizes. Never returned.
    IncompatibleBufferSize,
}

impl ZeroCopyCreationError {
    /// The text that `Display` prints.
    pub fn text(&self) -> &'static str
        ensures { result.now ≡ zero_copy_creation_text self.now }
    {
        match self {
            ZeroCopyCreationError::OutOfMemory => "ZeroCopyCreationError::OutOfMemory",
            ZeroCopyCreationError::ExpiredConnectionBufferFull =>
                "ZeroCopyCreationError::ExpiredConnectionBufferFull",
            ZeroCopyCreationError::IncompatibleBufferSize =>
                "ZeroCopyCreationError::IncompatibleBufferSize",
        }
    }
}

/// Why a port couldn't be connected to another.
///
/// Ported from `iceoryx2::port::update_connections::ConnectionFailure`, whose second variant holds an error of shared
/// memory there.
#[derive(Clone, Copy, Debug, PartialEq, Eq, Hash, Error)]
#[error("{}", self.text())]
pub enum ConnectionFailure {
    /// The connection couldn't be made.
    FailedToEstablishConnection(ZeroCopyCreationError),
    /// The publisher's messages can't be reached. Never returned.
    UnableToMapSendersDataSegment,
}

impl ConnectionFailure {
    /// The text that `Display` prints.
    pub fn text(&self) -> &'static str
        ensures { result.now ≡ connection_text self.now }
    {
        match self {
            ConnectionFailure::FailedToEstablishConnection(ZeroCopyCreationError::OutOfMemory) =>
                "ConnectionFailure::FailedToEstablishConnection(OutOfMemory)",
            ConnectionFailure::FailedToEstablishConnection(
                ZeroCopyCreationError::ExpiredConnectionBufferFull,
            ) => "ConnectionFailure::FailedToEstablishConnection(ExpiredConnectionBufferFull)",
            ConnectionFailure::FailedToEstablishConnection(
                ZeroCopyCreationError::IncompatibleBufferSize,
            ) => "ConnectionFailure::FailedToEstablishConnection(IncompatibleBufferSize)",
            ConnectionFailure::UnableToMapSendersDataSegment =>
                "ConnectionFailure::UnableToMapSendersDataSegment",
        }
    }
}

impl From<ZeroCopyCreationError> for ConnectionFailure {
    ghost from_gives = { λ error made. made ≡ connection.FailedToEstablishConnection error };

    fn from(error: ZeroCopyCreationError) -> Self {
        ConnectionFailure::FailedToEstablishConnection(error)
    }
}

//! Why a port or a domain couldn't be created.
ghost use Rattle.std.specs.Prelude.{◌≡◌};
ghost use Rattle.iox_domain_values.specs.ErrorTexts.{publisher_create_text, subscriber_create_text, domain_text};

use thiserror::Error;

/// Why a publisher couldn't be created.
///
/// Ported from `iceoryx2::port::publisher::PublisherCreateError`.
#[derive(Clone, Copy, Debug, PartialEq, Eq, Hash, Error)]
#[error("{}", self.text())]
pub enum PublisherCreateError {
    /// The service has as many publishers as it allows.
    ExceedsMaxSupportedPublishers,
    /// The number of slots or the length of a slice exceeds its limit, or an allocation failed.
    UnableToCreateDataSegment,
    /// Never returned.
    FailedToDeployThreadsafetyPolicy,
    /// Never returned.
    UnableToCreatePortTag,
}

impl PublisherCreateError {
    /// The text that `Display` prints.
    pub fn text(&self) -> &'static str
        ensures { result.now ≡ publisher_create_text self.now }
    {
        match self {
            PublisherCreateError::ExceedsMaxSupportedPublishers =>
                "PublisherCreateError::ExceedsMaxSupportedPublishers",
            PublisherCreateError::UnableToCreateDataSegment =>
                "PublisherCreateError::UnableToCreateDataSegment",
            PublisherCreateError::FailedToDeployThreadsafetyPolicy =>
                "PublisherCreateError::FailedToDeployThreadsafetyPolicy",
            PublisherCreateError::UnableToCreatePortTag =>
                "PublisherCreateError::UnableToCreatePortTag",
        }
    }
}

/// Why a subscriber couldn't be created.
///
/// Ported from `iceoryx2::port::subscriber::SubscriberCreateError`; the last variant isn't in `iceoryx2`.
#[derive(Clone, Copy, Debug, PartialEq, Eq, Hash, Error)]
#[error("{}", self.text())]
pub enum SubscriberCreateError {
    /// The service has as many subscribers as it allows.
    ExceedsMaxSupportedSubscribers,
    /// A larger buffer is asked for than the service allows.
    BufferSizeExceedsMaxSupportedBufferSizeOfService,
    /// Never returned.
    FailedToDeployThreadsafetyPolicy,
    /// Never returned.
    UnableToCreatePortTag,
    /// An allocation failed.
    OutOfMemory,
}

impl SubscriberCreateError {
    /// The text that `Display` prints.
    pub fn text(&self) -> &'static str
        ensures { result.now ≡ subscriber_create_text self.now }
    {
        match self {
            SubscriberCreateError::ExceedsMaxSupportedSubscribers =>
                "SubscriberCreateError::ExceedsMaxSupportedSubscribers",
            SubscriberCreateError::BufferSizeExceedsMaxSupportedBufferSizeOfService =>
                "SubscriberCreateError::BufferSizeExceedsMaxSupportedBufferSizeOfService",
            SubscriberCreateError::FailedToDeployThreadsafetyPolicy =>
                "SubscriberCreateError::FailedToDeployThreadsafetyPolicy",
            SubscriberCreateError::UnableToCreatePortTag =>
                "SubscriberCreateError::UnableToCreatePortTag",
            SubscriberCreateError::OutOfMemory => "SubscriberCreateError::OutOfMemory",
        }
    }
}

/// Why a domain couldn't be created. Not in `iceoryx2`.
#[derive(Clone, Copy, Debug, PartialEq, Eq, Hash, Error)]
#[error("{}", self.text())]
pub enum DomainError {
    /// An allocation failed.
    OutOfMemory,
}

impl DomainError {
    /// The text that `Display` prints.
    pub fn text(&self) -> &'static str
        ensures { result.now ≡ domain_text self.now }
    {
        match self {
            DomainError::OutOfMemory => "DomainError::OutOfMemory",
        }
    }
}

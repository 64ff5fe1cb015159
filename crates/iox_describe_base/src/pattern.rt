//! The messaging patterns of services.

/// The messaging pattern of a service.
///
/// Ported from `iceoryx2::service::messaging_pattern::MessagingPattern`.
#[derive(Clone, Copy, Debug, PartialEq, Eq, Hash)]
pub enum MessagingPattern {
    /// Clients send requests, and servers answer them.
    RequestResponse,
    /// Publishers send messages to subscribers.
    PublishSubscribe,
    /// Notifiers wake listeners.
    Event,
}

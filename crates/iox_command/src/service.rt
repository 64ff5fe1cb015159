//! The options of a service that a command creates or opens, by its pattern.
ghost use Rattle.std.specs.Prelude.{◌≡◌};
ghost use Rattle.iox_command.specs.Patterns.{pattern_of};

use iox_describe_base::MessagingPattern;

/// A number, or no value.
///
/// Not in `iceoryx2`.
#[derive(Clone, Copy)]
pub enum NumberOrOff {
    /// This number.
    Number(u64),
    /// No value.
    Off,
}

/// The options of a publish-subscribe service. An option that is None has its default.
///
/// Ported from the setters of `iceoryx2::service::builder::publish_subscribe::Builder`.
#[derive(Clone, Copy)]
pub struct PublishSubscribeOptions {
    /// The maximum number of subscribers.
    pub max_subscribers: Option<u64>,
    /// The maximum number of publishers.
    pub max_publishers: Option<u64>,
    /// The maximum number of nodes that have the service open.
    pub max_nodes: Option<u64>,
    /// The maximum number of messages of one publisher that wait for a subscriber.
    pub subscriber_max_buffer_size: Option<u64>,
    /// The maximum number of samples of one publisher that a subscriber holds.
    pub subscriber_max_borrowed_samples: Option<u64>,
    /// How many of its last messages a publisher keeps for later subscribers.
    pub history_size: Option<u64>,
    /// Whether a full buffer drops its oldest message.
    pub enable_safe_overflow: Option<bool>,
    /// Whether messages have sequence numbers.
    pub sequence_numbers: Option<bool>,
}

/// The options of an event service. An option that is None has its default.
///
/// Ported from the setters of `iceoryx2::service::builder::event::Builder`.
#[derive(Clone, Copy)]
pub struct EventOptions {
    /// The maximum number of notifiers.
    pub max_notifiers: Option<u64>,
    /// The maximum number of listeners.
    pub max_listeners: Option<u64>,
    /// The maximum number of nodes that have the service open.
    pub max_nodes: Option<u64>,
    /// The greatest event id.
    pub event_id_max_value: Option<u64>,
    /// The maximum time between two notifications, in nanoseconds.
    pub deadline: Option<NumberOrOff>,
    /// The event id that a new notifier sends.
    pub notifier_created_event: Option<NumberOrOff>,
    /// The event id that a closed notifier sends.
    pub notifier_dropped_event: Option<NumberOrOff>,
    /// The event id that is sent for a dead notifier.
    pub notifier_dead_event: Option<NumberOrOff>,
}

/// The options of a request-response service. An option that is None has its default.
///
/// Ported from the setters of `iceoryx2::service::builder::request_response::Builder`.
#[derive(Clone, Copy)]
pub struct RequestResponseOptions {
    /// The maximum number of servers.
    pub max_servers: Option<u64>,
    /// The maximum number of clients.
    pub max_clients: Option<u64>,
    /// The maximum number of nodes that have the service open.
    pub max_nodes: Option<u64>,
    /// The maximum number of responses that wait for a client.
    pub max_response_buffer_size: Option<u64>,
    /// The maximum number of responses to one request that a client holds.
    pub max_borrowed_responses_per_pending_response: Option<u64>,
    /// The maximum number of active requests of a client.
    pub max_active_requests_per_client: Option<u64>,
    /// The maximum number of loaned requests of a client.
    pub max_loaned_requests: Option<u64>,
    /// Whether a full buffer of requests drops its oldest one.
    pub enable_safe_overflow_for_requests: Option<bool>,
    /// Whether a full buffer of responses drops its oldest one.
    pub enable_safe_overflow_for_responses: Option<bool>,
    /// Whether a client may send requests and drop their responses.
    pub enable_fire_and_forget_requests: Option<bool>,
}

/// The options of a service, by its pattern.
///
/// Not in `iceoryx2`.
#[derive(Clone, Copy)]
pub enum ServiceOptions {
    /// The options of a publish-subscribe service.
    PublishSubscribe(PublishSubscribeOptions),
    /// The options of an event service.
    Event(EventOptions),
    /// The options of a request-response service.
    RequestResponse(RequestResponseOptions),
}

impl ServiceOptions {
    /// The pattern of the service.
    pub fn pattern(&self) -> MessagingPattern
        ensures { result ≡ pattern_of self.now }
    {
        match self {
            ServiceOptions::PublishSubscribe(_) => MessagingPattern::PublishSubscribe,
            ServiceOptions::Event(_) => MessagingPattern::Event,
            ServiceOptions::RequestResponse(_) => MessagingPattern::RequestResponse,
        }
    }
}

//! The options of a publisher and of a subscriber, and the number of a port.
use iox_domain_values::{
    AllocationStrategy, BackpressureAction, BackpressureStrategy, DegradationAction,
};

/// The number of a publisher or of a subscriber; each kind is counted from 1.
///
/// Not in `iceoryx2`.
#[derive(Clone, Copy)]
pub enum PortNumber {
    /// The number of a publisher.
    Publisher(u64),
    /// The number of a subscriber.
    Subscriber(u64),
}

/// The options of a publisher. An option that is None has its default.
///
/// Ported from `iceoryx2::service::port_factory::publisher::PortFactoryPublisher`, whose handlers are fixed actions here.
#[derive(Clone, Copy)]
pub struct PublisherOptions {
    /// The maximum number of loans at once.
    pub max_loaned_samples: Option<u64>,
    /// What a send does at a full mailbox if no handler decides.
    pub backpressure_strategy: Option<BackpressureStrategy>,
    /// How many slots the publisher gets instead of those that the worst case needs.
    pub preallocated_samples: Option<u64>,
    /// How many elements a slice may have at first.
    pub initial_max_slice_len: Option<u64>,
    /// What a loan of a longer slice does.
    pub allocation_strategy: Option<AllocationStrategy>,
    /// What the handler answers at a full mailbox.
    pub backpressure_handler: Option<BackpressureAction>,
    /// What the handler answers if a connection fails.
    pub degradation_handler: Option<DegradationAction>,
}

/// The options of a subscriber. An option that is None has its default.
///
/// Ported from `iceoryx2::service::port_factory::subscriber::PortFactorySubscriber`, whose handler is a fixed action here.
#[derive(Clone, Copy)]
pub struct SubscriberOptions {
    /// The maximum number of messages of one publisher that wait for the subscriber.
    pub buffer_size: Option<u64>,
    /// What the handler answers if a connection fails.
    pub degradation_handler: Option<DegradationAction>,
}

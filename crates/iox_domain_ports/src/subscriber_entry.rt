//! An entry of the list of subscribers.

/// An entry of the list of subscribers: what a publisher needs to know of a subscriber.
#[derive(Clone, Copy)]
pub struct SubscriberEntry {
    /// The number of the subscriber.
    pub subscriber: u64,
    /// The maximum number of messages that wait for it in a connection.
    pub buffer_size: usize,
}

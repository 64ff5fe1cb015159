//! The capacities of a publisher.

/// The capacities of a publisher and of its connections.
#[derive(Clone, Copy)]
pub struct SenderConfig {
    /// Whether a full mailbox drops its oldest message for a new one.
    pub overflows: bool,
    /// How many slots a segment has.
    pub slots: usize,
    /// The maximum number of segments, at least 1.
    pub most_segments: usize,
    /// The maximum number of values in a slot of the first segment.
    pub room: usize,
    /// The maximum number of loans at once.
    pub most_loans: usize,
    /// The maximum number of messages in the history.
    pub history: usize,
    /// The highest limit of waiting messages that a connection may have.
    pub most_waiting: usize,
    /// The maximum number of messages borrowed from one connection.
    pub most_borrowed: usize,
}

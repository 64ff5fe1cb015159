//! An entry of the list of publishers.

/// An entry of the list of publishers: what a subscriber needs to know of a publisher.
#[derive(Clone, Copy)]
pub struct PublisherEntry {
    /// The number of the publisher.
    pub publisher: u64,
}

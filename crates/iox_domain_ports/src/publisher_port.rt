//! A publisher.
use crate::messages::Sender;
use crate::progress::Progress;
use crate::readers::Readers;
use crate::ties::Ties;
use iox_domain_values::{AllocationStrategy, PortOwner};

/// A publisher with its messages and connections.
///
/// Ported from `iceoryx2::port::publisher::Publisher`.
#[derive(Drop)]
pub struct PublisherPort<T, U> {
    /// The number of its service.
    pub service: u64,
    /// Its own number.
    pub number: u64,
    /// Its owner, and the node in which it was created.
    pub owner: PortOwner,
    /// Its place in the list of publishers.
    pub place: usize,
    /// How its segments grow when a longer slice is loaned.
    pub allocation: AllocationStrategy,
    /// How many values an element has: 1, except if the values are the bytes of a payload that only the description defines.
    pub unit: usize,
    /// Whether it is open. An open publisher is on the list of publishers.
    pub stands: bool,
    /// The number of changes of the list of subscribers when it was last followed.
    pub seen: u64,
    /// The sequence number that the last send gave its message, or the one before the first; None if messages aren't numbered.
    pub last_sequence: Option<u64>,
    /// For each place of the list of subscribers the index of the connection to which messages go.
    pub ties: Ties,
    /// For each index of a connection to whom the connection leads; None if it ended.
    pub readers: Readers,
    /// How far the current send is, if there is one.
    pub progress: Progress,
    /// Its messages, and what its connections hold.
    pub sender: Sender<T, U>,
}

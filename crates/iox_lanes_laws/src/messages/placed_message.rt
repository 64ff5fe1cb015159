//! An entry of the order of a connection, with the number of its message.

use iox_queues_steps::Placed;

/// A put, take or look, its moment, and the number of the message that it puts or takes: None for a look, for a take that found nothing,
/// and for a message that isn't kept. Not in `iceoryx2`.
#[derive(Clone, Copy, Debug, PartialEq, Eq)]
pub struct PlacedMessage {
    /// The entry of the order.
    pub placed: Placed,
    /// The number of its message.
    pub number: Option<usize>,
}

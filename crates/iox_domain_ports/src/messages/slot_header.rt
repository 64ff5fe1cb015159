//! The header of the message in a slot.

/// The header of the message in a slot.
///
/// Ported from `iceoryx2::service::header::publish_subscribe::Header`, without what all messages of a publisher share.
#[derive(Clone, Copy)]
pub struct SlotHeader<U> {
    /// How many elements the message has.
    pub elements: u64,
    /// The message's user header.
    pub user_header: U,
    /// The sequence number that its send gave the message; None for a loan, and if messages aren't numbered.
    pub sequence: Option<u64>,
}

//! What a message meets at a place, and what a send answers.

/// What a message meets at a place of the list of subscribers.
#[derive(Clone, Copy)]
pub enum Meeting {
    /// There is no such place: all places are visited.
    Over,
    /// No connection is at the place, or it is full and no subscriber reads from it.
    Passed,
    /// The connection took the message.
    Delivered,
    /// The connection is full, and the subscriber with this number reads from it.
    Full(u64),
}

/// What a send answers.
///
/// Ported from what `iceoryx2::port::publisher::Publisher::send` answers; there the call blocks its caller at a full mailbox.
#[derive(Clone, Copy, PartialEq, Eq)]
pub enum Sent {
    /// The send is finished; the number says how many connections took the message.
    Delivered(usize),
    /// The send is blocked at a full mailbox.
    Blocked,
}
